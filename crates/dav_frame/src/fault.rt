/// Why a stream gives no reply.
#[derive(Clone, Copy, Debug, PartialEq, Eq)]
pub enum FrameFault {
    /// No continuation makes a head of the bytes that begin at this offset.
    NotAReply { at: u64 },
    /// The stream ended inside the reply, after so many bytes of it.
    Cut { got: u64 },
    /// A Content-Length that is no number of 1 to 15 digits, or two that differ.
    BadLength,
    /// No continuation makes a chunk, or trailers, of the bytes that begin at this offset.
    BadChunk { at: u64 },
    /// A transfer coding other than `chunked` alone, or a content coding other than `identity`.
    Coding,
    /// The heads and trailers pass 65,536 bytes together, or one head, or the trailers, go on after
    /// their 130th line feed.
    HeadLimit,
    /// The body is longer than `BODY_LIMIT`.
    BodyLimit,
    /// Want of memory.
    Memory,
}
