//! The generator: a bundle that a number makes, as work to measure by, and the summary of it.
#![tactic(auto)]

mod bundle;
mod draws;
mod generator;
mod scripts;
mod summary;
#[cfg(test)]
mod tests;
mod totals;

pub use bundle::gen_bundle;
pub use summary::print_summary;
pub use totals::{Totals, gen_totals};
