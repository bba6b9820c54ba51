//! A checker of reports: is a report with its history that of a lawful run, and if not, where does it go wrong first? It
//! shares no code with what prints one but what prints a line.
#![tactic(auto)]

mod answer_note;
mod answer_notes;
mod checking;
mod closing_text;
mod course;
mod device_lines;
mod entry_line;
mod fault;
mod gathered;
mod heading;
mod history;
mod host_lines;
mod host_progress;
pub mod laws;
mod line_piece;
mod line_words;
mod lines;
mod lookups;
mod next_word;
mod part;
mod progress;
mod unread;
mod verdict;
mod whole_lines;

pub use checking::check;
pub use entry_line::read_entry;
pub use gathered::Gathered;
pub use heading::{announced, is_first_line};
pub use lines::ReportLines;
pub use progress::Progress;
pub use verdict::{Reason, Verdict};
