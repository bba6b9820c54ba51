//! Loads a bundle.
#![tactic(auto)]

mod bundle;
mod device_tests;
mod devices;
mod drafts;
mod host_draft;
mod hosts;
pub mod laws;
mod link_draft;
mod link_tests;
mod links;
mod loader;
mod name_lists;
mod named;
mod new_names;
mod overlap;
mod plan;
mod routers;
mod routes;
mod script_tests;
mod scripts;
mod stray;
mod ways;
mod widths;

pub use loader::load;
pub use sb_fields::LoadFault;
