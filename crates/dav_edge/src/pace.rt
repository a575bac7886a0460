ghost use Rattle.std.specs.Prelude.{[], ◌∷◌};
ghost use Rattle.dav_edge.specs.Numbers.{NumberLog, NumbersGrew, number_given};

/// What says how the turns of the uploader stand between the steps of the shell.
pub trait Pace {
    /// The calls so far, where the object tells them.
    ghost log: { Self → NumberLog };

    /// How many turns of the uploader come before the next step of the shell. It never fails and takes no memory.
    fn before_step(&mut self) -> u8
        ensures log { NumbersGrew (log self.old) (log self.new) (number_given result ∷ []) };
}
