//! The producer's steps on the words of a ring.

ghost use Rattle.std.specs.Prelude.{◌≡◌, ◌+◌, ◌*◌, ◌<◌, ◌≤◌, [], ◌∷◌, ◌++◌, length, Some};
ghost use Rattle.sb_link.specs.declared.plan.LinkPlan.{LinkPlan};
ghost use Rattle.sb_slot.specs.Slots.{slot_of, IsSlotOf};
ghost use Rattle.sb_packet.specs.declared.item.Item.{Item};
ghost use Rattle.sb_ring.specs.Layout.{head_word, slot_width};
ghost use Rattle.sb_link.specs.PlanOf.{plan_of};
ghost use Rattle.sb_link.specs.Traffic.{MayFollow};
ghost use Rattle.sb_ring.specs.Plays.{with_ahead, with_last, with_part, with_published, IsHeadLoad};
ghost use Rattle.sb_ring.specs.Rule.{sent_of, slot_place};
ghost use Rattle.sb_ring.specs.Sending.{MaySend};
ghost use Rattle.sb_ring.specs.declared.view.Role.TheVariants.{Producer};

use crate::layout::{HEAD_WORD, SLOT_WIDTH, TAIL_WORD};
use crate::plays::{HeadLoad, ItemEnd, TailStore, WordLoad, WordStore};
use crate::rule::{RingSeat, RingWords};
use sb_packet::Item;
use sb_slot::to_slot;

/// Loads the count of the items that were taken.
pub(crate) fn load_head(words: &RingWords, seat: &mut RingSeat) -> u64
    requires table { seat.old.table_id ≡ words.now.table_id }
    requires size { head_word < words.now.table_id.words }
    requires role { seat.old.me.0.role ≡ Producer }
    ensures table { seat.new.table_id ≡ seat.old.table_id }
    ensures loaded { IsHeadLoad seat.old.me result seat.new.me }
{
    words.load::<HeadLoad>(seat, HEAD_WORD)
}

// loads the word that stands next in the free slot
fn find_word(words: &RingWords, seat: &mut RingSeat, place: usize) -> u64
    requires table { seat.old.table_id ≡ words.now.table_id }
    requires place { place ≡ slot_place slot_width words.now.key.capacity (length (sent_of seat.old.me.0)) + length seat.old.me.0.part }
    requires size { place < words.now.table_id.words }
    requires role { seat.old.me.0.role ≡ Producer }
    requires free { length (sent_of seat.old.me.0) < seat.old.me.0.learnt + words.now.key.capacity }
    requires narrow { length seat.old.me.0.part < slot_width }
    ensures table { seat.new.table_id ≡ seat.old.table_id }
    ensures found { seat.new.me ≡ (with_part seat.old.me.0 (seat.old.me.0.part ++ result ∷ []), seat.old.me.1) }
{
    words.load::<WordLoad>(seat, place)
}

// stores another word in place of the one that was found last
fn replace_word(words: &RingWords, seat: &mut RingSeat, place: usize, word: u64)
    requires table { seat.old.table_id ≡ words.now.table_id }
    requires place { place + 1 ≡ slot_place slot_width words.now.key.capacity (length (sent_of seat.old.me.0)) + length seat.old.me.0.part }
    requires size { place < words.now.table_id.words }
    requires role { seat.old.me.0.role ≡ Producer }
    requires found { 0 < length seat.old.me.0.part }
    ensures table { seat.new.table_id ≡ seat.old.table_id }
    ensures replaced { seat.new.me ≡ (with_part seat.old.me.0 (with_last seat.old.me.0.part word), seat.old.me.1) }
{
    words.store::<WordStore>(seat, place, word);
}

// brings the next word into the slot: where it stands there already, a store would cost much and change nothing
fn put_word(words: &RingWords, seat: &mut RingSeat, place: usize, word: u64)
    requires table { seat.old.table_id ≡ words.now.table_id }
    requires place { place ≡ slot_place slot_width words.now.key.capacity (length (sent_of seat.old.me.0)) + length seat.old.me.0.part }
    requires size { place < words.now.table_id.words }
    requires role { seat.old.me.0.role ≡ Producer }
    requires free { length (sent_of seat.old.me.0) < seat.old.me.0.learnt + words.now.key.capacity }
    requires narrow { length seat.old.me.0.part < slot_width }
    ensures table { seat.new.table_id ≡ seat.old.table_id }
    ensures stored { seat.new.me ≡ (with_part seat.old.me.0 (seat.old.me.0.part ++ word ∷ []), seat.old.me.1) }
{
    if find_word(words, seat, place) != word {
        replace_word(words, seat, place, word);
    }
}

// brings words into the free slot, which begins at a place, one after another
fn store_slot(words: &RingWords, seat: &mut RingSeat, place: usize, slot: &[u64; 8])
    requires table { seat.old.table_id ≡ words.now.table_id }
    requires place { place ≡ slot_place slot_width words.now.key.capacity (length (sent_of seat.old.me.0)) }
    requires size { place + slot_width ≤ words.now.table_id.words }
    requires role { seat.old.me.0.role ≡ Producer }
    requires free { length (sent_of seat.old.me.0) < seat.old.me.0.learnt + words.now.key.capacity }
    requires begun { seat.old.me.0.part ≡ [] }
    ensures table { seat.new.table_id ≡ seat.old.table_id }
    ensures stored { seat.new.me ≡ (with_part seat.old.me.0 slot.now, seat.old.me.1) }
{
    for j in 0..SLOT_WIDTH {
        put_word(words, seat, place + j, slot[j]);
    }
}

// sends the item whose words stand in the free slot: for the proof alone, it is a load of a word that nobody uses
fn end_item(words: &RingWords, seat: &mut RingSeat, item: &Item)
    requires table { seat.old.table_id ≡ words.now.table_id }
    requires size { head_word < words.now.table_id.words }
    requires role { seat.old.me.0.role ≡ Producer }
    requires whole { slot_of item.now ≡ seat.old.me.0.part }
    requires lawful { MaySend seat.old.me.0.plan (sent_of seat.old.me.0) item.now }
    ensures table { seat.new.table_id ≡ seat.old.table_id }
    ensures sent { seat.new.me ≡ (with_ahead seat.old.me.0 item.now, seat.old.me.1) }
{
    words.load::<ItemEnd>(seat, TAIL_WORD);
}

/// Sends an item: brings its words into the free slot, which begins at a place. It isn't published.
pub(crate) fn store_item(words: &RingWords, seat: &mut RingSeat, place: usize, item: &Item)
    requires table { seat.old.table_id ≡ words.now.table_id }
    requires place { place ≡ slot_place slot_width words.now.key.capacity (length (sent_of seat.old.me.0)) }
    requires size { place + slot_width ≤ words.now.table_id.words }
    requires head { head_word < words.now.table_id.words }
    requires role { seat.old.me.0.role ≡ Producer }
    requires free { length (sent_of seat.old.me.0) < seat.old.me.0.learnt + words.now.key.capacity }
    requires begun { seat.old.me.0.part ≡ [] }
    requires planned { seat.old.me.0.plan ≡ Some words.now.key }
    requires lawful { MayFollow (plan_of words.now.key) (sent_of seat.old.me.0) item.now }
    ensures table { seat.new.table_id ≡ seat.old.table_id }
    ensures sent { seat.new.me ≡ (with_ahead seat.old.me.0 item.now, seat.old.me.1) }
{
    let slot = to_slot(item);
    store_slot(words, seat, place, &slot);
    end_item(words, seat, item);
}

/// Stores the count of the items that were sent: all of them are published.
pub(crate) fn store_tail(words: &RingWords, seat: &mut RingSeat, count: u64)
    requires table { seat.old.table_id ≡ words.now.table_id }
    requires size { head_word < words.now.table_id.words }
    requires role { seat.old.me.0.role ≡ Producer }
    requires count { count ≡ length (sent_of seat.old.me.0) }
    ensures table { seat.new.table_id ≡ seat.old.table_id }
    ensures published { seat.new.me ≡ (with_published seat.old.me.0, seat.old.me.1) }
{
    words.store::<TailStore>(seat, TAIL_WORD, count);
}
