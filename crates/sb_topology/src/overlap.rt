//! Two devices that have a byte in common.

/// A device, by its place, and the first earlier one that it overlaps.
#[derive(Clone, Copy, Debug)]
pub struct Overlap {
    pub device: usize,
    pub other: usize,
}
