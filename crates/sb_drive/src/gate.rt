//! What groups pass before they turn.

/// What a group passes once in each round, before the first turn of its nodes. Programs use the free one; tests watch
/// groups by others.
pub trait Gate {
    /// Lets the group of that number pass. Groups that turn side by side call this side by side.
    fn enter(&self, group: u32);
}

/// Lets every group pass, and does nothing.
#[derive(Clone, Copy, Debug)]
pub struct FreeGate;

impl Gate for FreeGate {
    fn enter(&self, _group: u32) {}
}
