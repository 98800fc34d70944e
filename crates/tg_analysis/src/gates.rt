//! What a thread passes before it does its part.

/// What a thread passes before it does its part of some work, as a block of a table's rows.
pub trait Gate: Sync {
    /// Called once for each part, with its number, by whoever does it, before it begins.
    fn enter(&self, part: usize);
}

/// The gate that holds nobody up.
#[derive(Clone, Copy, Debug)]
pub struct OpenGate;

impl Gate for OpenGate {
    fn enter(&self, _part: usize) {}
}
