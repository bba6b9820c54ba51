//! Links: rings of items from one producer to one consumer, one for requests and one for answers.
#![tactic(auto)]

mod answers;
mod ends;
mod fabric;
mod flow;
mod flows;
mod ghost_history;
mod hand;
#[cfg(test)]
mod harness;
mod moves;
mod packet_flow;
mod pass_on;
mod places;
mod plan;
mod registered_ring;
mod ring_registry;
mod serial;
mod serial_rx;
mod serial_tx;
#[cfg(test)]
mod tests;

pub use answers::{Cause, Pop, Push, Turn};
pub use ends::{RxEnd, TxEnd};
pub use fabric::{Fabric, MeetFabric};
pub use flow::Flow;
pub use flows::Flows;
pub use moves::move_item;
pub use pass_on::{PassOn, PassOnRx, PassOnTx};
pub use plan::LinkPlan;
pub use registered_ring::RegisteredRing;
pub use ring_registry::RingRegistry;
pub use serial::SerialFabric;
pub use serial_rx::SerialRx;
pub use serial_tx::SerialTx;
