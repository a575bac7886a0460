/// A size that has a limit.
#[derive(Clone, Copy, Debug, PartialEq, Eq)]
pub enum Which {
    /// The bytes of one body.
    Body,
    /// The bytes of a message's head.
    Head,
    /// The jobs that wait.
    Queue,
    /// The bytes that wait.
    Bytes,
    /// The locks that are held.
    Locks,
    /// The files that are open.
    Opens,
    /// The bytes of a path.
    Path,
    /// The files that are known.
    Files,
    /// The levels of a document.
    Depth,
    /// The nodes of a document.
    Nodes,
    /// The bytes of a document that are held at once.
    Held,
    /// The attributes of an element.
    Attributes,
    /// The bytes of a tag.
    Tag,
}
