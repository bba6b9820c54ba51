//! How long a round is.

/// How long a round is. What is promised of a round holds at every pace.
#[derive(Clone, Copy, Debug, PartialEq, Eq)]
pub struct Pace {
    /// So many passes over all groups the calling thread makes alone at first, while they move; one is made in any case.
    pub alone: u32,
    /// So many passes a thread makes at most beside others, and the calling thread where it is the only one.
    pub passes: u32,
    /// So many passes in a row may move nothing beside others.
    pub patience: u32,
    /// So many sweeps over a group are made at most before the next group.
    pub sweeps: u32,
}
