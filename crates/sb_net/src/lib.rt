//! Whole networks: built from a bundle, run to their end, and settled.
#![tactic(auto)]

mod collecting;
pub mod ending_laws;
mod groups;
mod making;
mod net;
mod running;
mod settling;
mod side_by_side;
pub mod spending_laws;
pub mod standing_laws;
pub mod standstill_laws;

pub use net::{Net, build};
pub use settling::SettledNet;
pub use side_by_side::USUAL_PACE;
