ghost use Rattle.std.specs.Prelude.{◌≡◌};
ghost use Rattle.dav_edge.specs.Schedule.{fails_now, next_call};

/// Which calls of an object are to fail, by their numbers, and how many began so far.
#[derive(Drop)]
pub struct Schedule {
    fails: Vec<u64>,
    calls: u64,
}

impl Schedule {
    pub fn new(fails: Vec<u64>) -> Schedule
        ensures { result ≡ record { fails = fails; calls = 0 } }
    {
        Schedule { fails, calls: 0 }
    }

    /// Counts a call, and says whether it is to fail.
    pub fn begin(&mut self) -> bool
        ensures fails { result ≡ fails_now self.old }
        ensures next { self.new ≡ next_call self.old }
    {
        let call = self.calls;
        self.calls = call.saturating_add(1);
        self.fails.as_slice().contains(&call)
    }
}
