//! One entry of a journal.

use crate::packet::Packet;

/// A packet that a device stepped.
#[derive(Clone, Copy, Debug, PartialEq, Eq)]
pub struct Entry {
    /// The number of the round in which it was stepped, from 0.
    pub round: u32,
    /// The device, by its place in the network's list.
    pub device: u8,
    pub packet: Packet,
}
