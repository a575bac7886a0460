ghost use Rattle.std.specs.Prelude.{◌≡◌, ◌&&◌, option_map, nat_le};
ghost use Rattle.dav_doc.specs.Characters.{owed as owed_lem, owed_after, within as within_lem, is_ascii as is_ascii_lem, lead as lead_lem};
ghost use Rattle.dav_markup.specs.Owing.{owed_in};

/// What is owed to a character, in the bytes of its UTF-8 form: RFC 3629 section 4.
#[derive(Clone, Copy, Debug, PartialEq, Eq)]
pub enum Owed {
    /// Nothing.
    Whole,
    /// A byte from `low` to `high`, and so many further ones.
    Owes { low: u8, high: u8, further: u8 },
    /// What follows the byte EF, where U+FFFE and U+FFFF are left out.
    Special,
}

/// So many bytes that go on with a character.
fn further(count: u8) -> Owed
    ensures { owed_in result ≡ owed_lem count }
{
    if count == 0 {
        return Owed::Whole;
    }
    Owed::Owes {
        low: 128,
        high: 191,
        further: count - 1,
    }
}

/// Whether the byte is from `low` to `high`.
fn within(low: u8, high: u8, byte: u8) -> bool
    ensures { result ≡ within_lem low high byte }
{
    low <= byte && byte <= high
}

/// Whether the byte is a character of XML by itself: XML 1.0, production 2.
fn is_ascii(byte: u8) -> bool
    ensures { result ≡ is_ascii_lem byte }
{
    within(32, 127, byte) || byte == b'\t' || byte == b'\n' || byte == b'\r'
}

/// What is owed behind the first byte of a character past ASCII.
fn lead(byte: u8) -> Option<Owed>
    ensures { option_map owed_in result ≡ lead_lem byte }
{
    if within(194, 223, byte) {
        return Some(further(1));
    }
    match byte {
        224 => Some(owes(160, 191, 1)),
        237 => Some(owes(128, 159, 1)),
        239 => Some(Owed::Special),
        240 => Some(owes(144, 191, 2)),
        244 => Some(owes(128, 143, 2)),
        _ => {
            if within(225, 238, byte) {
                Some(owes(128, 191, 1))
            } else if within(241, 243, byte) {
                Some(owes(128, 191, 2))
            } else {
                None
            }
        }
    }
}

fn owes(low: u8, high: u8, further: u8) -> Owed
    ensures { result ≡ Owed.Owes low high further }
{
    Owed::Owes { low, high, further }
}

impl Owed {
    /// What is owed after one more byte. None where no character has the byte there.
    pub fn after(self, byte: u8) -> Option<Owed>
        ensures { option_map owed_in result ≡ owed_after (owed_in self) byte }
    {
        match self {
            Owed::Whole => {
                if is_ascii(byte) {
                    Some(Owed::Whole)
                } else {
                    lead(byte)
                }
            }
            Owed::Owes {
                low,
                high,
                further: count,
            } => {
                if within(low, high, byte) {
                    Some(further(count))
                } else {
                    None
                }
            }
            Owed::Special => {
                if within(128, 190, byte) {
                    Some(owes(128, 191, 0))
                } else if byte == 191 {
                    Some(owes(128, 189, 0))
                } else {
                    None
                }
            }
        }
    }
}
