//! A link of a bundle.

use crate::place::Place;
use sb_packet::Name;

/// A link: requests go from `from` to `to`, and answers back.
#[derive(Clone, Copy, Debug, PartialEq, Eq)]
pub struct LinkRow {
    pub name: Name,
    pub from: Place,
    pub to: Place,
    /// A packet on it speaks of at most so many bytes: 8, 16 or 32.
    pub width: u8,
    /// So many items wait on each of its rings at most: 1 to 1,024.
    pub capacity: u16,
}
