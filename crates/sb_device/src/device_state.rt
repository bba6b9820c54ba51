//! A device's memory and its journal.

use sb_mem::Memory;
use sb_packet::Journal;

/// A device's memory, and the journal of the packets by which it was stepped.
#[derive(Drop)]
pub struct DeviceState {
    /// The device, by its place in the network's list.
    pub number: u8,
    pub memory: Memory,
    pub journal: Journal,
}
