ghost use Rattle.std.specs.Prelude.{◌≡◌, ◌≤◌, ◌++◌, ◌∷◌, []};
ghost use Rattle.dav_doc.specs.Document.{Char};
ghost use Rattle.dav_doc.specs.Machine.{chars, held as held_lem};
ghost use Rattle.dav_doc.specs.References.{utf_8 as utf_8_lem};
ghost use Rattle.dav_markup.specs.Few.{few_in};
ghost use Rattle.dav_markup.specs.Section.{brackets_in};

use crate::section::Brackets;

/// The bytes of text that one byte of a document gives: one to four.
#[derive(Clone, Copy, Debug, PartialEq, Eq)]
pub enum Few {
    One([u8; 1]),
    Two([u8; 2]),
    Three([u8; 3]),
    Four([u8; 4]),
}

impl Few {
    /// The bytes.
    pub fn as_slice(&self) -> &[u8]
        ensures { result.now ≡ few_in self.now }
    {
        match self {
            Few::One(bytes) => bytes.as_slice(),
            Few::Two(bytes) => bytes.as_slice(),
            Few::Three(bytes) => bytes.as_slice(),
            Few::Four(bytes) => bytes.as_slice(),
        }
    }
}

/// The character in UTF-8: RFC 3629, section 3.
pub fn utf_8(value: u32) -> Few
    requires { value ≤ 1114111 }
    ensures { few_in result ≡ utf_8_lem value }
{
    if value <= 127 {
        return Few::One([value as u8]);
    }
    if value <= 2047 {
        return Few::Two([(192 + value / 64) as u8, (128 + value % 64) as u8]);
    }
    if value <= 65535 {
        return Few::Three([
            (224 + value / 4096) as u8,
            (128 + value / 64 % 64) as u8,
            (128 + value % 64) as u8,
        ]);
    }
    Few::Four([
        (240 + value / 262144) as u8,
        (128 + value / 4096 % 64) as u8,
        (128 + value / 64 % 64) as u8,
        (128 + value % 64) as u8,
    ])
}

/// The byte behind so many `]` that stand for themselves.
pub fn behind_brackets(held: Brackets, byte: u8) -> Few
    ensures { chars (few_in result) ≡ held_lem (brackets_in held) ++ (Char byte ∷ []) }
{
    match held {
        Brackets::Zero => Few::One([byte]),
        Brackets::One => Few::Two([b']', byte]),
        Brackets::Two => Few::Three([b']', b']', byte]),
    }
}
