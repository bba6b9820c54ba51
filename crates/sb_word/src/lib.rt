//! The command word of a packet.
#![tactic(auto)]

mod atomic;
mod codec;
mod command;
mod fault;
mod laws;

pub use atomic::AtomicOp;
pub use codec::{decode, encode};
pub use command::{Cmd, Op};
pub use fault::WordFault;
pub use laws::{atomics_are_numbered, words_are_exact};
