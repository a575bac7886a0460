use dav_text::Blob;

/// A part of a list of challenges, in the list's order.
#[derive(Debug, Drop)]
pub enum Piece {
    /// A challenge begins with this scheme.
    Scheme(Blob),
    /// The challenge has this parameter. The value is without quotes and backslashes.
    Parameter { name: Blob, value: Blob },
}
