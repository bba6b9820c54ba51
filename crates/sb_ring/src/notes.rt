//! The steps by which a ring gets its second end, and by which its ends meet.

ghost use Rattle.std.specs.Prelude.{◌≡◌, ◌<◌, false, []};
ghost use Rattle.sb_ring.specs.Plays.{note_of_received, note_of_sent, with_consumer, with_told};
ghost use Rattle.sb_ring.specs.Rule.{new_consumer};
ghost use Rattle.sb_ring.specs.declared.view.Role.TheVariants as roles;

use crate::plays::{NoteRead, Pairing, ReceivedNote, SentNote};
use crate::rule::{RingSeat, RingWords};

/// The consumer's seat of a ring that has none.
pub(crate) fn make_consumer(words: &RingWords, seat: &mut RingSeat) -> RingSeat
    requires table { seat.old.table_id ≡ words.now.table_id }
    requires size { 0 < words.now.table_id.words }
    requires role { seat.old.me.0.role ≡ roles.Producer }
    requires unpaired { seat.old.me.0.paired ≡ false }
    ensures table { seat.new.table_id ≡ seat.old.table_id }
    ensures paired { seat.new.me ≡ (with_consumer seat.old.me.0, seat.old.me.1) }
    ensures other_table { result.table_id ≡ seat.old.table_id }
    ensures consumer { result.me ≡ (new_consumer seat.old.me.0.plan, []) }
{
    words.split_seat::<Pairing>(seat)
}

/// The consumer writes a note of what it received.
pub(crate) fn note_received(words: &RingWords, seat: &mut RingSeat) -> RingSeat
    requires table { seat.old.table_id ≡ words.now.table_id }
    requires size { 0 < words.now.table_id.words }
    requires role { seat.old.me.0.role ≡ roles.Consumer }
    ensures table { seat.new.table_id ≡ seat.old.table_id }
    ensures same { seat.new.me ≡ seat.old.me }
    ensures note_table { result.table_id ≡ seat.old.table_id }
    ensures note { result.me ≡ (note_of_received seat.old.me.0, []) }
{
    words.split_seat::<ReceivedNote>(seat)
}

/// The producer writes a note of what it published.
pub(crate) fn note_sent(words: &RingWords, seat: &mut RingSeat) -> RingSeat
    requires table { seat.old.table_id ≡ words.now.table_id }
    requires size { 0 < words.now.table_id.words }
    requires role { seat.old.me.0.role ≡ roles.Producer }
    ensures table { seat.new.table_id ≡ seat.old.table_id }
    ensures same { seat.new.me ≡ seat.old.me }
    ensures note_table { result.table_id ≡ seat.old.table_id }
    ensures note { result.me ≡ (note_of_sent seat.old.me.0, []) }
{
    words.split_seat::<SentNote>(seat)
}

/// The producer reads a note of the consumer.
pub(crate) fn read_received(words: &RingWords, seat: &mut RingSeat, note: RingSeat)
    requires table { seat.old.table_id ≡ words.now.table_id }
    requires note_table { note.table_id ≡ words.now.table_id }
    requires size { 0 < words.now.table_id.words }
    requires role { seat.old.me.0.role ≡ roles.Producer }
    requires note_role { note.me.0.role ≡ roles.ReceivedNote }
    requires note_slots { note.me.1 ≡ [] }
    ensures table { seat.new.table_id ≡ seat.old.table_id }
    ensures told { seat.new.me ≡ (with_told seat.old.me.0 note.me.0, seat.old.me.1) }
{
    words.join_seat::<NoteRead>(seat, note);
}

/// The consumer reads a note of the producer.
pub(crate) fn read_sent(words: &RingWords, seat: &mut RingSeat, note: RingSeat)
    requires table { seat.old.table_id ≡ words.now.table_id }
    requires note_table { note.table_id ≡ words.now.table_id }
    requires size { 0 < words.now.table_id.words }
    requires role { seat.old.me.0.role ≡ roles.Consumer }
    requires note_role { note.me.0.role ≡ roles.SentNote }
    requires note_slots { note.me.1 ≡ [] }
    ensures table { seat.new.table_id ≡ seat.old.table_id }
    ensures told { seat.new.me ≡ (with_told seat.old.me.0 note.me.0, seat.old.me.1) }
{
    words.join_seat::<NoteRead>(seat, note);
}
