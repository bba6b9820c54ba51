//! A link whose width isn't tested yet.

use sb_flow::Place;
use sb_packet::Name;

/// A link between places that are there. Its width is any number.
#[derive(Clone, Copy, Debug)]
pub struct LinkDraft {
    pub name: Name,
    pub from: Place,
    pub to: Place,
    pub width: u64,
    pub capacity: u16,
}
