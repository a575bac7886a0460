ghost use Rattle.std.specs.Prelude.{[], ◌∷◌};
ghost use Rattle.dav_edge.specs.Numbers.{NumberLog, NumbersGrew, number_given};

/// What gives words for nonces, which nobody else is to foresee. That they are random is not claimed.
pub trait Noise {
    /// The calls so far, where the object tells them.
    ghost log: { Self → NumberLog };

    /// The next word, any u64. It never fails and takes no memory.
    fn word(&mut self) -> u64
        ensures log { NumbersGrew (log self.old) (log self.new) (number_given result ∷ []) };
}
