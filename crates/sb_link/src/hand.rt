//! The meeting of the two ends of a ring on one thread.

ghost use Rattle.std.specs.Prelude.{◌≡◌, ◌+◌, ◌≤◌, ◌++◌, length};
ghost use Rattle.sb_link.specs.Ends.{HaveMet};
ghost use Rattle.sb_link.specs.PlanOf.{plan_of};

use crate::serial_rx::SerialRx;
use crate::serial_tx::SerialTx;

// hands over what the sending end keeps, and tells both ends how many items were taken
pub(crate) fn hand_over(tx: &mut SerialTx, rx: &mut SerialRx)
    requires plan { plan_of tx.old.plan ≡ plan_of rx.old.plan }
    requires told { tx.old.taken ≡ rx.old.told }
    requires handed { tx.old.handed ≡ rx.old.received ++ rx.old.waiting.items }
    ensures tx_plan { tx.new.plan ≡ tx.old.plan }
    ensures rx_plan { rx.new.plan ≡ rx.old.plan }
    ensures sent { tx.new.handed ++ tx.new.kept.items ≡ tx.old.handed ++ tx.old.kept.items }
    ensures received { rx.new.received ≡ rx.old.received }
    ensures taken { tx.old.taken ≤ tx.new.taken }
    ensures known { length (rx.old.received ++ rx.old.waiting.items) ≤ length (rx.new.received ++ rx.new.waiting.items) }
    ensures told { tx.new.taken ≡ rx.new.told }
    ensures handed { tx.new.handed ≡ rx.new.received ++ rx.new.waiting.items }
    ensures taken_at_most { tx.new.taken ≤ length rx.new.received }
    ensures known_at_most { length (rx.new.received ++ rx.new.waiting.items) ≤ length (tx.new.handed ++ tx.new.kept.items) }
    ensures met { HaveMet (tx.new.handed ++ tx.new.kept.items) tx.new.taken
        rx.new.received (length (rx.new.received ++ rx.new.waiting.items)) }
{
    while let Some(item) = tx.kept.pop_front() {
        tx.handed.add(&item);
        rx.waiting.push_back_reserved(item);
    }
    tx.taken = rx.taken;
    rx.told = rx.taken;
}
