/// The answer of a call to the outside that failed. The object's own count of faults tells that it did.
#[derive(Clone, Copy, Debug, PartialEq, Eq)]
pub struct Failed;
