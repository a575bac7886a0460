ghost use Rattle.std.specs.Prelude.{◌≡◌};
ghost use Rattle.dav_auth.specs.Clean.{is_clean as is_clean_lem};

/// Whether a field can carry the bytes: no CR, LF or NUL is among them.
pub(crate) fn is_clean(bytes: &[u8]) -> bool
    ensures { result ≡ is_clean_lem bytes.now }
{
    bytes
        .iter()
        .all(|b| !(*b == b'\r' || *b == b'\n' || *b == 0))
}
