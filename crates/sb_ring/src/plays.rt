//! What each step on a ring's words tells the seat that makes it.

use crate::rule::RingView;
use atomic_table::{Join, Play, Split};

// the producer loads the head word
pub(crate) struct HeadLoad;

impl Play<u8, RingView> for HeadLoad {
    ghost use Rattle.sb_ring.specs.Plays.{IsHeadLoad};

    ghost then = { λ s before n after. IsHeadLoad before n after };
}

// either end loads the word behind those that it has
pub(crate) struct WordLoad;

impl Play<u8, RingView> for WordLoad {
    ghost use Rattle.sb_ring.specs.Plays.{IsWordLoad};

    ghost then = { λ s before n after. IsWordLoad before n after };
}

// the producer stores another word in place of the last one that it has
pub(crate) struct WordStore;

impl Play<u8, RingView> for WordStore {
    ghost use Rattle.sb_ring.specs.Plays.{IsWordStore};

    ghost then = { λ s before n after. IsWordStore before n after };
}

// the producer sends the item whose words it has
pub(crate) struct ItemEnd;

impl Play<u8, RingView> for ItemEnd {
    ghost use Rattle.sb_slot.specs.Slots.{slot_of};
    ghost use Rattle.sb_ring.specs.Plays.{IsItemEnd};
    ghost use Rattle.sb_ring.specs.Sending.{MaySend};

    ghost then = { λ s before n after. IsItemEnd slot_of MaySend before after };
}

// the producer stores the tail word
pub(crate) struct TailStore;

impl Play<u8, RingView> for TailStore {
    ghost use Rattle.sb_ring.specs.Plays.{IsTailStore};

    ghost then = { λ s before n after. IsTailStore before after };
}

// the consumer loads the tail word
pub(crate) struct TailLoad;

impl Play<u8, RingView> for TailLoad {
    ghost use Rattle.sb_ring.specs.Plays.{IsTailLoad};

    ghost then = { λ s before n after. IsTailLoad before n after };
}

// the consumer stores the head word
pub(crate) struct HeadStore;

impl Play<u8, RingView> for HeadStore {
    ghost use Rattle.sb_slot.specs.Slots.{slot_of};
    ghost use Rattle.sb_ring.specs.Plays.{IsHeadStore};
    ghost use Rattle.sb_ring.specs.Sending.{MaySend};

    ghost then = { λ s before n after. IsHeadStore slot_of MaySend before after };
}

// the producer makes its consumer
pub(crate) struct Pairing;

impl Split<RingView> for Pairing {
    ghost use Rattle.sb_ring.specs.Plays.{with_consumer};
    ghost use Rattle.sb_ring.specs.Rule.{new_consumer};

    ghost left = { with_consumer };

    ghost right = { λ view. new_consumer view.plan };
}

// the consumer writes a note of what it received
pub(crate) struct ReceivedNote;

impl Split<RingView> for ReceivedNote {
    ghost use Rattle.sb_ring.specs.Plays.{note_of_received};

    ghost left = { λ view. view };

    ghost right = { note_of_received };
}

// the producer writes a note of what it published
pub(crate) struct SentNote;

impl Split<RingView> for SentNote {
    ghost use Rattle.sb_ring.specs.Plays.{note_of_sent};

    ghost left = { λ view. view };

    ghost right = { note_of_sent };
}

// an end reads a note of the other one
pub(crate) struct NoteRead;

impl Join<RingView> for NoteRead {
    ghost use Rattle.std.specs.Prelude.{None};
    ghost use Rattle.sb_ring.specs.Plays.{read_note, with_told};

    ghost both = { with_told };

    ghost spent = { read_note None };
}
