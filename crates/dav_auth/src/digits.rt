ghost use Rattle.std.specs.Prelude.{◌≡◌, ◌↔◌, IsTrue};
ghost use Rattle.dav_auth.specs.Digits.{lower_digit as lower_digit_lem, lower_digits};

/// The digit with a lower letter.
fn lower_digit(byte: u8) -> u8
    ensures { result ≡ lower_digit_lem byte }
{
    if byte >= b'A' && byte <= b'F' {
        byte + 32
    } else {
        byte
    }
}

/// Whether the digits that came are those that are owed. The case of hexadecimal letters does not
/// count.
pub fn proved(want: &[u8], got: &[u8]) -> bool
    ensures { IsTrue result ↔ (lower_digits want.now ≡ lower_digits got.now) }
{
    if want.len() != got.len() {
        return false;
    }
    for (i, byte) in want.iter().enumerate() {
        if lower_digit(*byte) != lower_digit(got[i]) {
            return false;
        }
    }
    true
}
