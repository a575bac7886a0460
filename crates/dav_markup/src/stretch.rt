ghost use Rattle.std.specs.Prelude.{◌≡◌, option_map};
ghost use Rattle.dav_markup.specs.Owing.{owed_in};
ghost use Rattle.dav_markup.specs.Stretch.{is_plain as is_plain_lem, is_alike as is_alike_lem, after_alike, IsStretch, IsShared};

use crate::character::Owed;
use crate::name::in_name;

/// What the bytes of a stretch have in common.
#[derive(Clone, Copy, Debug, PartialEq, Eq)]
pub enum Alike {
    /// They stand for themselves in text, and none can be of `]]>`: XML 1.0, production 14.
    Text,
    /// A name can go on with them.
    Name,
}

/// How many bytes of a text lead on alike, and what is owed to a character behind them.
#[derive(Clone, Copy, Debug, PartialEq, Eq)]
pub struct Stretch {
    pub len: usize,
    pub owed: Owed,
}

/// Whether the byte stands for itself in text, and can't be of `]]>`.
fn is_plain(byte: u8) -> bool
    ensures { result ≡ is_plain_lem byte }
{
    !(byte == b'<' || byte == b'&' || byte == b'\r' || byte == b']' || byte == b'>')
}

/// Whether the byte is one of these.
fn is_alike(alike: Alike, byte: u8) -> bool
    ensures { result ≡ is_alike_lem alike byte }
{
    match alike {
        Alike::Text => is_plain(byte),
        Alike::Name => in_name(byte),
    }
}

/// What is owed behind one more of these bytes. None where the byte is none of them, or no character
/// has it there.
fn after(alike: Alike, owed: Owed, byte: u8) -> Option<Owed>
    ensures { option_map owed_in result ≡ after_alike (is_alike_lem alike) (owed_in owed) byte }
{
    if !is_alike(alike, byte) {
        return None;
    }
    owed.after(byte)
}

/// The longest stretch of these bytes that the text begins with.
pub fn longest(alike: Alike, owed: Owed, bytes: &[u8]) -> Stretch
    ensures { IsStretch (is_alike_lem alike) (owed_in owed) bytes.now result.len (owed_in result.owed) }
{
    let mut behind = owed;
    for (index, byte) in bytes.iter().enumerate() {
        match after(alike, behind, *byte) {
            Some(next) => behind = next,
            None => {
                return Stretch {
                    len: index,
                    owed: behind,
                };
            }
        }
    }
    Stretch {
        len: bytes.len(),
        owed: behind,
    }
}

/// The longest stretch that the text has in common with the word.
pub fn shared(word: &[u8], owed: Owed, bytes: &[u8]) -> Stretch
    ensures { IsShared word.now (owed_in owed) bytes.now result.len (owed_in result.owed) }
{
    let mut behind = owed;
    let mut len = 0;
    while len < bytes.len() && len < word.len() {
        if bytes[len] != word[len] {
            return Stretch { len, owed: behind };
        }
        match behind.after(bytes[len]) {
            Some(next) => behind = next,
            None => return Stretch { len, owed: behind },
        }
        len += 1;
    }
    Stretch { len, owed: behind }
}
