ghost use Rattle.std.specs.Prelude.{[], ◌∷◌};
ghost use Rattle.dav_edge.specs.Numbers.{NumberLog, NumbersGrew, number_given};

/// What tells the time.
pub trait Clock {
    /// The calls so far, where the object tells them.
    ghost log: { Self → NumberLog };

    /// The moment, in whole seconds. A later call may give an earlier one. It never fails and takes no memory.
    fn now(&mut self) -> u64
        ensures log { NumbersGrew (log self.old) (log self.new) (number_given result ∷ []) };
}
