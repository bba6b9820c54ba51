//! Rings under test, over any fabric, and what is tested of each fabric.
#![tactic(auto)]

mod carries;
mod line;
mod sender;
#[cfg(test)]
mod table;
#[cfg(test)]
mod threads;
mod traffic;

pub use line::Line;
pub use sender::Sender;
pub use traffic::{one_device_plan, read_of_word};
