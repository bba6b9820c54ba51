//! What one host asks of one device.

/// The traffic between one host and one device.
#[derive(Clone, Copy, Debug, PartialEq, Eq)]
pub struct Flow {
    /// The host's id, 0 to 31.
    pub host: u8,
    /// The device, by its place in the network's list.
    pub device: u8,
}
