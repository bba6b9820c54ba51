//! A device of a bundle.

use sb_packet::{Bytes, Name};

/// A device: so many pages of memory from an address on, which begin with the image and zeros behind it.
#[derive(Debug, Drop)]
pub struct DevicePlan {
    pub name: Name,
    /// The first byte's address, a multiple of 4,096.
    pub base: u64,
    /// The number of its pages of 4,096 bytes, 1 to 256.
    pub pages: u32,
    /// It refuses to be written.
    pub readonly: bool,
    /// At most as many bytes as the device has.
    pub image: Bytes,
}
