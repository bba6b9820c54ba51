//! A link of a way.

/// A link of a way, with the routers that it joins; None where it joins a host or a device there.
#[derive(Clone, Copy, Debug, PartialEq, Eq)]
pub struct Leg {
    pub link: u8,
    pub from: Option<u8>,
    pub to: Option<u8>,
}
