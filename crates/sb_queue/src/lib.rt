//! Rings over a borrowed queue: the forerunner of the own ring, kept to be measured against it.
#![tactic(auto)]

mod fabric;
mod log;
mod make;
mod rule;
mod rx;
mod tx;

pub use fabric::QueueFabric;
pub use log::Log;
pub use rule::InOrder;
pub use rx::QueueRx;
pub use tx::QueueTx;
