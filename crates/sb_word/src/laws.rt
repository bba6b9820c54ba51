//! Laws of command words, for all numbers: they do nothing when they run.

ghost use Rattle.std.specs.Prelude.{◌≡◌, ◌<◌, ◌^◌, ℕ, None, Some, length};
ghost use Rattle.sb_word.specs.declared.atomic.AtomicOp.{AtomicOp};
ghost use Rattle.sb_word.specs.declared.command.Cmd.{Cmd};
ghost use Rattle.sb_word.specs.Atomics.{all_atomics, atomic_number, atomic_numbered};
ghost use Rattle.sb_word.specs.Faults.{word_fault};
ghost use Rattle.sb_word.specs.Words.{word_of, IsWordOf};

/// A command has one word, a word has at most one command, and a command's word has no fault.
pub fn words_are_exact()
    ensures word { (c : Cmd) → c.len < 2 ^ 8 → IsWordOf (word_of c) c }
    ensures one_word { (w : ℕ) (c : Cmd) → IsWordOf w c → w ≡ word_of c }
    ensures one_command { (w : ℕ) (c d : Cmd) → IsWordOf w c → IsWordOf w d → c ≡ d }
    ensures faultless { (w : ℕ) (c : Cmd) → IsWordOf w c → word_fault w ≡ None }
{}

/// Each atomic has a number of its own, and no other numbers are an atomic's than 0 to 8.
pub fn atomics_are_numbered()
    ensures numbered { (a : AtomicOp) → atomic_numbered (atomic_number a) ≡ Some a }
    ensures all { length all_atomics ≡ 9 }
{}
