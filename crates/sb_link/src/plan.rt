//! What a ring is made for.

ghost use Rattle.std.specs.Prelude.{◌≡◌, ◌≤◌, ◌<◌};
ghost use Rattle.sb_link.specs.Plans.{IsRingWidth};

use crate::flows::Flows;

/// What a ring is made for: this project's own.
#[derive(Clone, Copy, Debug, PartialEq, Eq)]
pub struct LinkPlan {
    /// The ring's number: that of its link twice, and one more where answers go on it.
    pub ring: u16,
    /// The ring carries answers, from a device to a host.
    pub up: bool,
    /// A packet on the ring speaks of at most so many bytes: 8, 16 or 32.
    pub width: u8,
    /// So many items wait on the ring at most: 1 to 1,024.
    pub capacity: u16,
    /// So many words go over the ring in all at most: up to 262,144.
    pub budget: u32,
    /// What goes over the ring.
    pub flows: Flows,
    pub ghost wide: { IsRingWidth width },
    pub ghost some_room: { 0 < capacity },
    pub ghost most_room: { capacity ≤ 1024 },
    pub ghost budgeted: { budget ≤ 262144 },
}
