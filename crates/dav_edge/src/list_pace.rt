ghost use Rattle.std.specs.Prelude.{◌≡◌, [], ◌∷◌};
ghost use Rattle.dav_edge.specs.Listed.{number_or_zero, one_call_more};
ghost use Rattle.dav_edge.specs.Numbers.{NumbersGrew, number_given};

use crate::Pace;

/// A pace that is known before: the numbers of turns of a list, and 0 after them. It tells its calls, unless there were as many
/// as the greatest u64.
#[derive(Drop)]
pub struct ListPace {
    turns: Vec<u8>,
    calls: u64,
}

impl ListPace {
    ghost use Rattle.dav_edge.specs.ListPace.{turns_of, pace_calls, pace_log};

    /// Each call gives the next of these numbers of turns.
    pub fn new(turns: Vec<u8>) -> ListPace
        ensures log { pace_log result ≡ record { told = Some []; faults = 0 } }
        ensures turns { turns_of result ≡ turns.items }
        ensures calls { pace_calls result ≡ 0 }
    {
        ListPace { turns, calls: 0 }
    }
}

impl Pace for ListPace {
    ghost use Rattle.dav_edge.specs.ListPace.{turns_of, pace_calls, pace_log};

    ghost log = { pace_log };

    fn before_step(&mut self) -> u8
        ensures log { NumbersGrew (pace_log self.old) (pace_log self.new) (number_given result ∷ []) }
        ensures turns { result ≡ number_or_zero (turns_of self.old) (pace_calls self.old) }
        ensures counted { pace_calls self.new ≡ one_call_more (pace_calls self.old) }
        ensures same { turns_of self.new ≡ turns_of self.old }
    {
        let turns = self.turns.get(self.calls as usize).copied().unwrap_or(0);
        self.calls = self.calls.saturating_add(1);
        turns
    }
}
