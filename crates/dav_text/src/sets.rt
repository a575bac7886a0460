use percent_encoding::{AsciiSet, NON_ALPHANUMERIC, ascii_set};

/// The bytes that a path's text escapes: all but the unreserved ones of RFC 3986 section 2.3.
pub const ESCAPED: AsciiSet = ascii_set!(
    NON_ALPHANUMERIC
        .remove(b'-')
        .remove(b'.')
        .remove(b'_')
        .remove(b'~')
);
