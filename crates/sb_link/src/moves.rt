//! From one ring to another.

ghost use Rattle.std.specs.Prelude.{◌≡◌, ◌≤◌, true, false, List, [], ◌∷◌, ◌++◌, None, length, IfSome, IfNone};
ghost use Rattle.sb_link.specs.Traffic.{MayFollow};
ghost use Rattle.sb_packet.specs.declared.item.Item.{Item};
ghost use Rattle.sb_link.specs.Moves.{CanFollow, held_items, IsStuck};

use crate::answers::{Pop, Push};
use crate::ends::{RxEnd, TxEnd};
use sb_packet::Item;

/// Sends the item that is held, or else the next one that comes, and says whether it was sent. An item that came and
/// couldn't be sent is held. So what was sent, and the item that is held, are what was received. Takes no memory.
pub fn move_item<U: RxEnd, T: TxEnd>(rx: &mut U, held: &mut Option<Item>, tx: &mut T) -> bool
    requires plans { CanFollow (U.planned rx.old) (T.planned tx.old) }
    requires in_order { U.received rx.old ≡ T.sent tx.old ++ held_items held.old }
    ensures in_order { U.received rx.new ≡ T.sent tx.new ++ held_items held.new }
    ensures sent { result ≡ true → (item : Item) × (T.sent tx.new ≡ T.sent tx.old ++ item ∷ []) }
    ensures empty { result ≡ true → held.new ≡ None }
    ensures still { result ≡ false → T.sent tx.new ≡ T.sent tx.old }
    ensures stuck { result ≡ false
        → IsStuck held.new (U.received rx.new) (U.known rx.new) (T.planned tx.new).capacity (T.sent tx.new) (T.taken tx.new) }
    ensures known { U.known rx.old ≤ U.known rx.new }
    ensures taken { T.taken tx.old ≤ T.taken tx.new }
    ensures rx_plan { U.planned rx.new ≡ U.planned rx.old }
    ensures tx_plan { T.planned tx.new ≡ T.planned tx.old }
    ensures rx_mark { U.mark rx.new ≡ U.mark rx.old }
    ensures tx_mark { T.mark tx.new ≡ T.mark tx.old }
{
    *held = next_item(rx, *held);
    let Some(item) = *held else {
        return false;
    };
    match tx.try_push(&item) {
        Push::Done => {
            *held = None;
            true
        }
        Push::Full { .. } => false,
    }
}

// the item that is held, or else the next one that comes
fn next_item<U: RxEnd>(rx: &mut U, held: Option<Item>) -> Option<Item>
    ensures received { (before : List Item) → U.received rx.old ≡ before ++ held_items held
        → U.received rx.new ≡ before ++ held_items result }
    ensures lawful { (before : List Item) → U.received rx.old ≡ before ++ held_items held
        → IfSome result (λ item. MayFollow (U.planned rx.old) before item) }
    ensures empty { IfNone result (U.known rx.new ≡ length (U.received rx.new)) }
    ensures known { U.known rx.old ≤ U.known rx.new }
    ensures plan { U.planned rx.new ≡ U.planned rx.old }
    ensures mark { U.mark rx.new ≡ U.mark rx.old }
{
    if held.is_some() {
        return held;
    }
    match rx.try_pop() {
        Pop::Item(item) => Some(item),
        Pop::Empty { .. } => None,
    }
}
