//! What a link joins.

/// An end of a link, by its place in the bundle's list of its kind, from 0.
#[derive(Clone, Copy, Debug, PartialEq, Eq)]
pub enum Place {
    Host(u8),
    Router(u8),
    Device(u8),
}
