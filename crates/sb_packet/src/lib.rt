//! Packets, transactions and journals, and the definitions that every contract above cites (in `specs/`).
#![tactic(auto)]

mod bytes;
mod entry;
mod item;
mod journal;
pub mod laws;
mod name;
mod packet;
mod padding;
mod path;
mod request;
mod script;
mod sizes;
mod spans;
mod transaction;

pub use bytes::Bytes;
pub use entry::Entry;
pub use item::Item;
pub use journal::Journal;
pub use name::Name;
pub use packet::Packet;
pub use padding::padded;
pub use path::Path;
pub use request::{packet_of, packets};
pub use sb_word::{AtomicOp, Cmd, Op, WordFault};
pub use script::Script;
pub use sizes::{ADDRESS_END, BODY_BYTES, PAGE_BYTES};
pub use spans::{carried, carried_span, span, word_count, words_span};
pub use transaction::{Code, Kind, Txn, TxnState};
