//! The project's own ring: from one producer to one consumer, each on a thread of its own, over single loads and stores.
#![tactic(auto)]

mod consumer;
mod fabric;
mod layout;
mod meet;
mod notes;
mod plays;
mod producer;
mod rule;
mod rx;
#[cfg(test)]
mod tests;
mod tx;
mod view;

pub use fabric::RingFabric;
pub use rule::RingRule;
pub use rx::RingRx;
pub use tx::RingTx;
pub use view::{Role, View};
