/// Which document a walker expects, by its root element in the namespace `DAV:`.
#[derive(Clone, Copy, Debug, PartialEq, Eq)]
pub enum Root {
    /// `multistatus`, whose children `response` are lent.
    Multistatus,
    /// `prop`, which is lent whole.
    Prop,
}
