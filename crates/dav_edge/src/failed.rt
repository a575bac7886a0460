/// The one fault of a device. Its object counts it.
#[derive(Clone, Copy, Debug, PartialEq, Eq)]
pub struct Failed;
