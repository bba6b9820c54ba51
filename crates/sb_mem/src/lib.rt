//! The byte memory of a device, and how it serves requests.
#![tactic(auto)]

mod answer;
mod atomic;
mod memory;
mod serving;

pub use memory::Memory;
pub use serving::serve;
