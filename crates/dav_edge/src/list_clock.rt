ghost use Rattle.std.specs.Prelude.{◌≡◌, [], ◌∷◌};
ghost use Rattle.dav_edge.specs.Listed.{number_or_last, one_call_more};
ghost use Rattle.dav_edge.specs.Numbers.{NumbersGrew, number_given};

use crate::Clock;

/// A clock that is known before: the moments of a list, and then the last of them again and again; 0 where the list is empty.
/// It tells its calls, unless there were as many as the greatest u64.
#[derive(Drop)]
pub struct ListClock {
    moments: Vec<u64>,
    calls: u64,
}

impl ListClock {
    ghost use Rattle.dav_edge.specs.ListClock.{moments_of, clock_calls, clock_log};

    /// Each call gives the next of these moments, in whole seconds.
    pub fn new(moments: Vec<u64>) -> ListClock
        ensures log { clock_log result ≡ record { told = Some []; faults = 0 } }
        ensures moments { moments_of result ≡ moments.items }
        ensures calls { clock_calls result ≡ 0 }
    {
        ListClock { moments, calls: 0 }
    }

    // The moment that the next call gives.
    fn next(&self) -> u64
        ensures { result ≡ number_or_last (moments_of self.now) (clock_calls self.now) }
    {
        let last = self.moments.len().saturating_sub(1);
        let place = (self.calls as usize).min(last);
        self.moments.get(place).copied().unwrap_or(0)
    }
}

impl Clock for ListClock {
    ghost use Rattle.dav_edge.specs.ListClock.{moments_of, clock_calls, clock_log};

    ghost log = { clock_log };

    fn now(&mut self) -> u64
        ensures log { NumbersGrew (clock_log self.old) (clock_log self.new) (number_given result ∷ []) }
        ensures moment { result ≡ number_or_last (moments_of self.old) (clock_calls self.old) }
        ensures counted { clock_calls self.new ≡ one_call_more (clock_calls self.old) }
        ensures same { moments_of self.new ≡ moments_of self.old }
    {
        let moment = self.next();
        self.calls = self.calls.saturating_add(1);
        moment
    }
}
