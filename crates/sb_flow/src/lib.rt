//! Bundles and ways: which flow goes over which ring.
#![tactic(auto)]

mod addresses;
mod bundle;
mod device_plan;
mod flow_path;
mod gather;
mod host_paths;
mod host_plan;
pub mod laws;
mod leg;
mod link_row;
mod load;
mod marks;
mod paths;
mod place;
mod ranges;
mod router_plan;
mod script_counts;
#[cfg(test)]
mod tests;
#[cfg(test)]
mod twin_tests;
mod walk;
mod words;

pub use addresses::target;
pub use bundle::Bundle;
pub use device_plan::DevicePlan;
pub use host_plan::HostPlan;
pub use link_row::LinkRow;
pub use paths::Paths;
pub use place::Place;
pub use router_plan::RouterPlan;
pub use words::{all_words, bundle_words};
