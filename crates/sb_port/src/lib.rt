//! Ports: what a node has to send over a ring, in the order in which it was offered.
#![tactic(auto)]

mod leg;
mod outbox;
mod port;
mod port_turn;
mod sound;
#[cfg(test)]
mod tests;

pub use leg::{InLeg, OutLeg};
pub use outbox::Outbox;
pub use port::OutPort;
pub use port_turn::PortTurn;
pub use sound::is_sound;
