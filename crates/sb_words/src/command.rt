//! The commands of `sb`.

/// What the words of the command line ask for.
#[derive(Clone, Copy, Debug, PartialEq, Eq)]
pub enum Command {
    /// Run a script against one memory: the word `solo`.
    Solo,
    /// Run a bundle on one thread: `replay [--order N] [--history]`.
    ///
    /// `order` is the number of the order in which nodes take turns, 0 to 4,294,967,295; it is 0 where the words
    /// don't give it. `history` says whether the report has the journal.
    Replay { order: u32, history: bool },
    /// Run a bundle on threads: `run [--workers N] [--history]`.
    ///
    /// `workers` is the number of groups that the nodes are dealt to, each of which has a thread: 1 to 16; it is 4 where the
    /// words don't give it. `history` says whether the report has the journal.
    Run { workers: u32, history: bool },
    /// Judge a report by its bundle: the word `check`.
    Check,
    /// Run the bundle that is generated from a number, and print a summary of it: `gen N`.
    ///
    /// `number` is that number, 0 to 4,294,967,295.
    Gen { number: u32 },
}
