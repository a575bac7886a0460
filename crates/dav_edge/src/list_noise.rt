ghost use Rattle.std.specs.Prelude.{◌≡◌, [], ◌∷◌};
ghost use Rattle.dav_edge.specs.Listed.{number_or_zero, one_call_more};
ghost use Rattle.dav_edge.specs.Numbers.{NumbersGrew, number_given};

use crate::Noise;

/// Noise that is known before: the words of a list, and 0 after them. It tells its calls, unless there were as many as the
/// greatest u64.
#[derive(Drop)]
pub struct ListNoise {
    words: Vec<u64>,
    calls: u64,
}

impl ListNoise {
    ghost use Rattle.dav_edge.specs.ListNoise.{words_of, noise_calls, noise_log};

    /// Each call gives the next of these words.
    pub fn new(words: Vec<u64>) -> ListNoise
        ensures log { noise_log result ≡ record { told = Some []; faults = 0 } }
        ensures words { words_of result ≡ words.items }
        ensures calls { noise_calls result ≡ 0 }
    {
        ListNoise { words, calls: 0 }
    }
}

impl Noise for ListNoise {
    ghost use Rattle.dav_edge.specs.ListNoise.{words_of, noise_calls, noise_log};

    ghost log = { noise_log };

    fn word(&mut self) -> u64
        ensures log { NumbersGrew (noise_log self.old) (noise_log self.new) (number_given result ∷ []) }
        ensures word { result ≡ number_or_zero (words_of self.old) (noise_calls self.old) }
        ensures counted { noise_calls self.new ≡ one_call_more (noise_calls self.old) }
        ensures same { words_of self.new ≡ words_of self.old }
    {
        let word = self.words.get(self.calls as usize).copied().unwrap_or(0);
        self.calls = self.calls.saturating_add(1);
        word
    }
}
