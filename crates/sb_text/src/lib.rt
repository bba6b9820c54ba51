//! The texts that are read and written: a script with its lines, words and transactions; and the report of a run.
#![tactic(auto)]

mod body;
mod digit;
mod line;
mod line_fault;
mod line_word;
mod lines;
mod numerals;
mod printed;
mod report;
#[cfg(test)]
mod report_tests;
mod results;
mod script;
mod script_fault;
#[cfg(test)]
mod tests;
mod transaction;
mod verb;
mod words;

pub use line::read_line;
pub use line_fault::LineFault;
pub use line_word::LineWord;
pub use numerals::{number, numeral};
pub use printed::Printed;
pub use report::{print, print_line};
pub use results::Results;
pub use script::read_script;
pub use script_fault::ScriptFault;
