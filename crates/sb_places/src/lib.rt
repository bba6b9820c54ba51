//! Values that threads share, each at a place that one thread at a time may take. Nobody waits for a place: who finds it
//! taken goes on to the next one.
#![tactic(auto)]

mod gather;
mod hand;
mod passes;
mod place;
mod plays;
mod rule;
mod spread;
#[cfg(test)]
mod tests;
mod visitor;
mod work;

pub use gather::visit_all;
pub use hand::Hand;
pub use rule::PlacesRule;
pub use visitor::{Visited, Visitor};
pub use work::Pace;
