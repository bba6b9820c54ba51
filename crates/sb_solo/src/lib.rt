//! Runs of one script against one memory.
#![tactic(auto)]

mod bundle;
mod laws;
mod outcomes;
mod solo;

pub use bundle::solo_bundle;
pub use laws::{
    outcomes_are_many, solo_journals_are_lawful, solo_packets_are_few,
    solo_results_are_the_journals,
};
pub use solo::{ScriptRun, run_script};
