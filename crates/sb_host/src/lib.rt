//! Hosts: they issue the transactions of their scripts, and keep what was answered.
#![tactic(auto)]

mod answer_row;
mod cursor;
mod host;
mod host_core;
#[cfg(test)]
mod host_tests;
mod laws;
mod outcome;
mod place;
mod script;
mod script_plan;
mod serving;
#[cfg(test)]
mod tests;
mod transaction_plan;
mod transaction_table;
mod transactions;
mod window;
#[cfg(test)]
mod window_tests;

pub use host::{Host, HostParts};
pub use laws::{
    host_stays_whole, hosts_ask_what_their_scripts_aim_at, hosts_keep_their_windows,
    hosts_offer_their_scripts, own_rings_are_made_for_hosts, unmoved_hosts_are_still,
    waiting_hosts_miss_answers,
};
pub use transactions::Transactions;
