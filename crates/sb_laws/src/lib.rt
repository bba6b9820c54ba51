//! Whole runs of a network: the laws on which they rest, over plain data.
#![tactic(auto)]

pub mod device_laws;
pub mod host_laws;
pub mod laws;
pub mod network_laws;
pub mod router_laws;
pub mod side_laws;
