//! How the ends of a ring meet.

ghost use Rattle.std.specs.Prelude.{◌≡◌, ◌≤◌, []};
ghost use Rattle.sb_link.specs.Ends.{HaveMet};
ghost use Rattle.sb_ring.specs.Rule.{sent_of};

use crate::consumer::load_tail;
use crate::notes::{note_received, note_sent, read_received, read_sent};
use crate::producer::load_head;
use crate::rx::RingRx;
use crate::tx::RingTx;

/// The ends of a ring meet: what was sent is published, and each end loads the other's count. For the proof alone each
/// reads a note of what the other has.
pub(crate) fn meet_ends(tx: &mut RingTx, rx: &mut RingRx)
    requires one_table { tx.old.seat.table_id ≡ rx.old.seat.table_id }
    ensures tx_plan { tx.new.plan ≡ tx.old.plan }
    ensures rx_plan { rx.new.plan ≡ rx.old.plan }
    ensures tx_table { tx.new.seat.table_id ≡ tx.old.seat.table_id }
    ensures rx_table { rx.new.seat.table_id ≡ rx.old.seat.table_id }
    ensures sent { sent_of tx.new.seat.me.0 ≡ sent_of tx.old.seat.me.0 }
    ensures published { tx.new.seat.me.0.ahead ≡ [] }
    ensures received { rx.new.seat.me.0.items ≡ rx.old.seat.me.0.items }
    ensures taken { tx.old.seat.me.0.learnt ≤ tx.new.seat.me.0.learnt }
    ensures known { rx.old.seat.me.0.learnt ≤ rx.new.seat.me.0.learnt }
    ensures met { HaveMet (sent_of tx.new.seat.me.0) tx.new.seat.me.0.learnt rx.new.seat.me.0.items rx.new.seat.me.0.learnt }
{
    tx.publish();
    let table = &*tx.table;
    let words = &table.shared;
    let received = note_received(words, &mut rx.seat);
    let sent = note_sent(words, &mut tx.seat);
    read_received(words, &mut tx.seat, received);
    read_sent(words, &mut rx.seat, sent);
    let taken = load_head(words, &mut tx.seat) as u32;
    let known = load_tail(words, &mut rx.seat);
    tx.taken = taken;
    rx.known = known;
}
