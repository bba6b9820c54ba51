//! What can be wrong with a script.

ghost use Rattle.std.specs.Prelude.{◌≡◌};
ghost use Rattle.sb_text.specs.declared.script_fault.ScriptFault.TheVariants.{Memory};

use crate::line_fault::LineFault;
use std::alloc::AllocError;

/// The first fault of a script, in the order in which they are tested: this project's own.
#[derive(Clone, Copy, Debug, PartialEq, Eq)]
pub enum ScriptFault {
    /// There are more than 65,536 lines; `count` has also those that are blank or comments.
    Lines { count: u32 },
    /// The first line with a fault, counted from 1. Its fault is never `Memory`.
    Line { line: u32, fault: LineFault },
    /// All transactions together speak of more than 262,144 words.
    Words { words: u32 },
    /// Memory was missing; it says nothing of the script.
    Memory,
}

impl From<AllocError> for ScriptFault {
    ghost from_gives = { λ _ result. result ≡ Memory };

    fn from(_error: AllocError) -> ScriptFault {
        ScriptFault::Memory
    }
}
