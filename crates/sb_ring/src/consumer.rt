//! The consumer's steps on the words of a ring.

ghost use Rattle.std.specs.Prelude.{◌≡◌, ◌+◌, ◌*◌, ◌<◌, ◌≤◌, [], ◌∷◌, ◌++◌, length};
ghost use Rattle.sb_ring.specs.Layout.{head_word, slot_width};
ghost use Rattle.sb_ring.specs.Plays.{with_item, with_part, IsTailLoad};
ghost use Rattle.sb_ring.specs.Rule.{slot_place};
ghost use Rattle.sb_ring.specs.Sending.{MaySend};
ghost use Rattle.sb_ring.specs.declared.view.Role.TheVariants.{Consumer};

use crate::layout::{HEAD_WORD, SLOT_WIDTH, TAIL_WORD};
use crate::plays::{HeadStore, TailLoad, WordLoad};
use crate::rule::{RingSeat, RingWords};
use sb_packet::Item;
use sb_slot::from_slot;

/// Loads the count of the items that are published.
pub(crate) fn load_tail(words: &RingWords, seat: &mut RingSeat) -> u64
    requires table { seat.old.table_id ≡ words.now.table_id }
    requires size { head_word < words.now.table_id.words }
    requires role { seat.old.me.0.role ≡ Consumer }
    ensures table { seat.new.table_id ≡ seat.old.table_id }
    ensures loaded { IsTailLoad seat.old.me result seat.new.me }
{
    words.load::<TailLoad>(seat, TAIL_WORD)
}

// loads the next word of the slot
fn load_word(words: &RingWords, seat: &mut RingSeat, place: usize) -> u64
    requires table { seat.old.table_id ≡ words.now.table_id }
    requires place { place ≡ slot_place slot_width words.now.key.capacity (length seat.old.me.0.items) + length seat.old.me.0.part }
    requires size { place < words.now.table_id.words }
    requires role { seat.old.me.0.role ≡ Consumer }
    requires waits { length seat.old.me.0.items < seat.old.me.0.learnt }
    requires narrow { length seat.old.me.0.part < slot_width }
    ensures table { seat.new.table_id ≡ seat.old.table_id }
    ensures loaded { seat.new.me ≡ (with_part seat.old.me.0 (seat.old.me.0.part ++ result ∷ []), seat.old.me.1) }
{
    words.load::<WordLoad>(seat, place)
}

/// Loads the words of the slot that begins at a place, one after another.
pub(crate) fn load_slot(words: &RingWords, seat: &mut RingSeat, place: usize) -> [u64; 8]
    requires table { seat.old.table_id ≡ words.now.table_id }
    requires place { place ≡ slot_place slot_width words.now.key.capacity (length seat.old.me.0.items) }
    requires size { place + slot_width ≤ words.now.table_id.words }
    requires role { seat.old.me.0.role ≡ Consumer }
    requires waits { length seat.old.me.0.items < seat.old.me.0.learnt }
    requires begun { seat.old.me.0.part ≡ [] }
    ensures table { seat.new.table_id ≡ seat.old.table_id }
    ensures loaded { seat.new.me ≡ (with_part seat.old.me.0 result, seat.old.me.1) }
{
    let mut slot = [0; SLOT_WIDTH];
    for k in 0..SLOT_WIDTH {
        slot[k] = load_word(words, seat, place + k);
    }
    slot
}

/// Stores the count of the items that were received, and answers the item whose words were loaded.
pub(crate) fn store_head(
    words: &RingWords,
    seat: &mut RingSeat,
    slot: &[u64; 8],
    count: u64,
) -> Item
    requires table { seat.old.table_id ≡ words.now.table_id }
    requires size { head_word < words.now.table_id.words }
    requires role { seat.old.me.0.role ≡ Consumer }
    requires whole { slot.now ≡ seat.old.me.0.part }
    requires waits { length seat.old.me.0.items < seat.old.me.0.learnt }
    requires count { count ≡ length seat.old.me.0.items + 1 }
    ensures table { seat.new.table_id ≡ seat.old.table_id }
    ensures lawful { MaySend seat.old.me.0.plan seat.old.me.0.items result }
    ensures received { seat.new.me ≡ (with_item seat.old.me.0 result, seat.old.me.1) }
{
    words.store::<HeadStore>(seat, HEAD_WORD, count);
    let Ok(item) = from_slot(slot) else {
        unreachable!()
    };
    item
}
