//! What is said of a report.

/// Why a report isn't that of a lawful run.
#[derive(Clone, Copy, Debug, PartialEq, Eq)]
pub enum Reason {
    /// A line of the history is missing, or hasn't the form of an entry's line.
    Form,
    /// An entry isn't the next of its host at its device, isn't at its target, is wider than its device's link, or goes back.
    Entry,
    /// The entries end while words of scripts are missing.
    Short,
    /// A later line differs from the text of the run, is missing or is one too many.
    Text,
}

/// What is said of a report.
#[derive(Clone, Copy, Debug, PartialEq, Eq)]
pub enum Verdict {
    /// It is the report, with history, of a lawful run.
    Yes,
    /// It isn't; it goes wrong first at `line`, counted from 1.
    No { line: u32, reason: Reason },
    /// Memory was missing; it says nothing of the report.
    Memory,
}
