ghost use Rattle.std.specs.Prelude.{◌≡◌, ◌==◌, List, if◌then◌else◌};
ghost use Rattle.dav_doc.specs.Machine as machine;
ghost use Rattle.dav_markup.specs.Section.{section_in, ran_in};

/// How many `]` stand right before in a run of text.
#[derive(Clone, Copy, Debug, PartialEq, Eq)]
pub enum Brackets {
    Zero,
    One,
    /// Two or more.
    Two,
}

/// Where a scanner stands in a CDATA section: XML 1.0 section 2.7.
#[derive(Clone, Copy, Debug, PartialEq, Eq)]
pub enum Section {
    /// Behind `<![`.
    WantsC,
    WantsD,
    WantsFirstA,
    WantsT,
    WantsSecondA,
    WantsBracket,
    Inside(Brackets),
    /// Behind a carriage return.
    Return,
}

/// What a byte does there.
#[derive(Clone, Copy, Debug, PartialEq, Eq)]
pub enum Ran {
    /// No document has it there.
    Bad,
    Further(Section),
    /// One `]` that came before ends nothing.
    Held,
    /// So many `]` that came before end nothing, nor does this byte.
    Text { held: Brackets, byte: u8 },
    /// So many `]` that came before end nothing, and it is a carriage return, which stands for a line feed: XML 1.0 section 2.11.
    Return { held: Brackets },
    /// It ends the section.
    Ended,
}

/// The next byte of the section's word.
fn only(want: u8, next: Section, byte: u8) -> Ran
    ensures { result ≡ (if byte == want then Ran.Further next else Ran.Bad) }
{
    if byte == want {
        return Ran::Further(next);
    }
    Ran::Bad
}

/// A byte in a section, behind so many `]`.
fn inside(brackets: Brackets, byte: u8) -> Ran
    ensures { (o : machine.Open) (os : List machine.Open) → machine.step (section_in (Section.Inside brackets) o os) byte ≡ ran_in result o os }
{
    if byte == b']' {
        return match brackets {
            Brackets::Zero => Ran::Further(Section::Inside(Brackets::One)),
            Brackets::One => Ran::Further(Section::Inside(Brackets::Two)),
            Brackets::Two => Ran::Held,
        };
    }
    if byte == b'>' && brackets == Brackets::Two {
        return Ran::Ended;
    }
    if byte == b'\r' {
        return Ran::Return { held: brackets };
    }
    Ran::Text {
        held: brackets,
        byte,
    }
}

/// A byte in a section, behind a carriage return.
fn behind_return(byte: u8) -> Ran
    ensures { (o : machine.Open) (os : List machine.Open) → machine.step (section_in Section.Return o os) byte ≡ ran_in result o os }
{
    if byte == b'\n' {
        return Ran::Further(Section::Inside(Brackets::Zero));
    }
    inside(Brackets::Zero, byte)
}

impl Section {
    /// What one more byte does.
    pub fn after(self, byte: u8) -> Ran
        ensures { (o : machine.Open) (os : List machine.Open) → machine.step (section_in self o os) byte ≡ ran_in result o os }
    {
        match self {
            Section::WantsC => only(b'C', Section::WantsD, byte),
            Section::WantsD => only(b'D', Section::WantsFirstA, byte),
            Section::WantsFirstA => only(b'A', Section::WantsT, byte),
            Section::WantsT => only(b'T', Section::WantsSecondA, byte),
            Section::WantsSecondA => only(b'A', Section::WantsBracket, byte),
            Section::WantsBracket => only(b'[', Section::Inside(Brackets::Zero), byte),
            Section::Inside(brackets) => inside(brackets, byte),
            Section::Return => behind_return(byte),
        }
    }
}
