/// What is wrong with a field of a record.
#[derive(Clone, Copy, Debug, PartialEq, Eq)]
pub(crate) enum Flaw {
    /// It isn't whole.
    CutOff,
    /// It has a value that it can't have.
    Wrong,
}
