//! What ends and nodes answer.

use sb_packet::Item;

/// What a push answers.
#[derive(Clone, Copy, Debug, PartialEq, Eq)]
pub enum Push {
    /// The item was sent.
    Done,
    /// The ring is full: `sent` items were sent, and `taken` of them are known to have been taken.
    Full { sent: u32, taken: u32 },
}

/// What a pop answers.
#[derive(Clone, Copy, Debug, PartialEq, Eq)]
pub enum Pop {
    /// The next item.
    Item(Item),
    /// Nothing waits: `received` items were received, and no more than these `sent` are known to have been sent.
    Empty { received: u32, sent: u32 },
}

/// Why a node did nothing in its turn.
#[derive(Clone, Copy, Debug, PartialEq, Eq)]
pub enum Cause {
    /// An incoming ring is empty, with the counts of its pop.
    Empty { ring: u16, received: u32, sent: u32 },
    /// An outgoing ring is full, with the counts of its push.
    Full { ring: u16, sent: u32, taken: u32 },
    /// A host waits for the answer to this transaction, whose place in its table the next one takes.
    Window { index: u32 },
    /// A wire has nothing to read, or no room, for now.
    Later,
    /// A wire ended, failed, or brought what isn't of its form.
    Broken,
}

/// What a node's turn answers.
#[derive(Clone, Copy, Debug, PartialEq, Eq)]
pub enum Turn {
    /// The node moved: it took something, handed something on, dropped or sent something.
    Moved,
    /// The node did nothing, and isn't done.
    Idle(Cause),
    /// The node did nothing, and is done: all that comes in has ended, and all that goes out was ended.
    Done,
}
