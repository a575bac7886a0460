use dav_text::Seen;

/// What came of an upload that a whole reply answered.
#[derive(Debug, Drop)]
pub struct Came {
    pub status: u16,
    /// What is known of the file behind the reply.
    pub seen: Seen,
    /// After how many seconds the server asks for the request again; 0 where it does not say.
    pub retry_after: u64,
}
