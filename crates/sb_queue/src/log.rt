//! What the ends of a queue know.

use sb_link::LinkPlan;
use sb_packet::Item;
use std::collections::LinkedList;

/// What a pass of a queue may do, and what went through it. It stands in proofs alone: no value of it is made.
pub struct Log {
    /// The pass may push.
    pub pushes: bool,
    /// The pass may pop.
    pub pops: bool,
    /// What the ring is made for, once that is known.
    pub plan: Option<LinkPlan>,
    /// The items that it pushed.
    pub sent: LinkedList<Item>,
    /// The items that it popped.
    pub received: LinkedList<Item>,
}
