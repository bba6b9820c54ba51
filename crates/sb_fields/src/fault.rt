//! What can be wrong with a bundle.

use sb_flow::Place;
use sb_packet::Path;
use sb_text::LineFault;

/// The first fault of a bundle, in the order in which they are tested, each over the whole bundle in the order of the
/// text: this project's own. Hosts, routers, devices and links are named by their places in the bundle's lists, from 0.
#[derive(Debug, Drop)]
pub enum LoadFault {
    /// The bytes are no JSON value.
    Json,
    /// A field is missing, or of another kind than it should be, or there is no such field.
    Field {
        path: Path,
    },
    /// A number, the length of a list or of a script, or the pages of all devices together are out of range.
    Count {
        path: Path,
    },
    /// A name isn't one, or is an earlier one's, or names nothing of its kind.
    Name {
        path: Path,
    },
    /// An earlier host has the same id.
    HostId {
        host: u8,
    },
    /// A device doesn't begin with a page, or ends above `2^56`.
    Range {
        device: u8,
    },
    /// A device has bytes in common with an earlier one, `other`.
    Overlap {
        device: u8,
        other: u8,
    },
    /// A device's image has that many bytes, more than the device.
    Image {
        device: u8,
        bytes: u32,
    },
    /// A link has a width that links don't have.
    Width {
        link: u8,
    },
    /// A link joins what it may not.
    End {
        link: u8,
    },
    /// A link goes from a router to itself or to an earlier one.
    Backward {
        link: u8,
    },
    /// No link leaves that host, or leads to that device.
    Unlinked {
        place: Place,
    },
    /// That line of a host's script, counted from 1, has this fault, which is never `LineFault::Memory`.
    Script {
        host: u8,
        line: u32,
        fault: LineFault,
    },
    /// A router's route for a device leads astray, or is missing where a host aims at the device.
    Route {
        router: u8,
        device: u8,
    },
    /// The scripts have that many words in all, more than 262,144.
    Budget {
        words: u32,
    },
    /// Memory was missing; it says nothing of the bundle.
    Memory,
}
