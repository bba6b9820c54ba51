//! The words of the command line of `sb`, and what they ask for.
#![tactic(auto)]

mod arguments;
mod command;
mod forms;
mod reading;
#[cfg(test)]
mod tests;
mod words_fault;

pub use command::Command;
pub use reading::command_of;
pub use words_fault::WordsFault;
