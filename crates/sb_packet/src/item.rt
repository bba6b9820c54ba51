//! What goes over a ring.

use crate::packet::Packet;

/// A packet, or the end of a ring's traffic in one direction.
#[derive(Clone, Copy, Debug, PartialEq, Eq)]
pub enum Item {
    Packet(Packet),
    Close,
}
