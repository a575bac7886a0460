ghost use Rattle.std.specs.Prelude.{ℕ, [], ◌∷◌};
ghost use Rattle.dav_machine.specs.Devices.{one_device};
ghost use Rattle.dav_machine.specs.Machine.{give};
ghost use Rattle.dav_edge.specs.Numbers.{NumberLog, NumbersGrew, number_given, AsksNumber, DoesByNumbers};

/// A law: a machine that asks for one number and gives it is run to its end by one call.
pub fn one_number_is_asked()
    ensures { (old new : NumberLog) (n : ℕ) → NumbersGrew old new (number_given n ∷ []) → DoesByNumbers old new (AsksNumber (give one_device)) n }
{}
