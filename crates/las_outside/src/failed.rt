//! The one error of the outside.

/// The outside could not do what a call asked of it. The object's count of faults rose, too.
#[derive(Clone, Copy, Debug, PartialEq, Eq)]
pub struct Failed;
