//! Why words of the command line give no command.

ghost use Rattle.std.specs.Prelude.{◌≡◌};
ghost use Rattle.sb_words.specs.declared.words_fault.WordsFault.TheVariants.{Memory};

use std::alloc::AllocError;

/// Why words give no command.
#[derive(Clone, Copy, Debug, PartialEq, Eq)]
pub enum WordsFault {
    /// The words are not taken, or a number isn't in its range.
    Usage,
    /// Memory was missing; it says nothing of the words.
    Memory,
}

impl From<AllocError> for WordsFault {
    ghost from_gives = { λ _ result. result ≡ Memory };

    fn from(_error: AllocError) -> WordsFault {
        WordsFault::Memory
    }
}
