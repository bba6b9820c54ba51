//! Cutting packets to a width, and merging them up to one.
#![tactic(auto)]

mod cutter;
pub mod laws;
mod merger;
mod shapes;
#[cfg(test)]
mod tests;

pub use cutter::Cutter;
pub use merger::{Merged, Merger};
