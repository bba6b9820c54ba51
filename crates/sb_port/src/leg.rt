//! A node's ends of a link.

use sb_link::Fabric;

/// A link that leads to a node: requests come in, and answers go out.
#[derive(Drop)]
pub struct InLeg<F: Fabric> {
    /// The link, by its place in the network's list.
    pub link: u8,
    pub requests: F::Rx,
    pub answers: F::Tx,
}

/// A link that leads on from a node: requests go out, and answers come in.
#[derive(Drop)]
pub struct OutLeg<F: Fabric> {
    /// The link, by its place in the network's list.
    pub link: u8,
    pub requests: F::Tx,
    pub answers: F::Rx,
}
