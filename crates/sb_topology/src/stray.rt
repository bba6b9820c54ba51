//! A route that leads astray or is missing.

/// A router, and the device that packets at it are for, by their places.
#[derive(Clone, Copy, Debug)]
pub struct Stray {
    pub router: u8,
    pub device: u8,
}
