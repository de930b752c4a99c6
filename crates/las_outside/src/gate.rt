//! What the workers of a crew call around each input.

/// Called when a worker begins an input and when it ends it.
///
/// A gate answers nothing and changes nothing that a contract sees. The workers share it, so it is `Sync`, and both
/// calls return. It serves a test that has to know whether two workers run at once, or that delays one of them.
pub trait Gate: Sync {
    /// A worker is about to begin the input of this number.
    fn enter(&self, number: u32);

    /// The worker has ended the input of this number.
    fn leave(&self, number: u32);
}

/// The gate of a plain run, whose calls return at once.
#[derive(Clone, Copy, Debug, Default)]
pub struct OpenGate;

impl Gate for OpenGate {
    fn enter(&self, _number: u32) {}

    fn leave(&self, _number: u32) {}
}
