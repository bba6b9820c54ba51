//! What routers, devices and hosts have in common: how they turn their ports and pop their rings, and what their turns
//! answer.
#![tactic(auto)]

mod findings;
mod steps;

pub use findings::Findings;
pub use steps::{hand_on, pop_ring, turn_port};
