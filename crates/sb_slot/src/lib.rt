//! Slots: items as eight numbers of 64 bits each, as they go over rings between threads and over a wire.
#![tactic(auto)]

mod item_fault;
mod slot;
mod slot_body;
mod slot_checks;

pub use item_fault::ItemFault;
pub use slot::{from_slot, to_slot};
