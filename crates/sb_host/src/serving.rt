//! What a host does at its two ends.

ghost use Rattle.std.specs.Prelude.{◌≡◌, ◌≤◌, ◌<◌, ◌⊎◌, None, true, false, is_some, length};
ghost use Rattle.sb_port.specs.Ports.{IsFit, PortSide, owes};
ghost use Rattle.sb_node.specs.Kept.{IsKeptPort, IsKeptRing};
ghost use Rattle.sb_node.specs.Rested.{IsRestedRing};
ghost use Rattle.sb_node.specs.Sides.{RingSide, port_moves, ring_side};
ghost use Rattle.sb_host.specs.Hosts.{IsHostInOrder};
ghost use Rattle.sb_host.specs.Progress.{IsNextAimed, left_of};
ghost use Rattle.sb_host.specs.Steps.{IsIssued, IsNextOffered, IsReceiveStep, IsWaitFound};
ghost use Rattle.sb_host.specs.Windows.{IsHeldBack, window_cause, window_wait};

use crate::transactions::Transactions;
use sb_link::{Cause, RxEnd, TxEnd};
use sb_node::{Findings, pop_ring};
use sb_packet::Item;
use sb_port::OutPort;

/// Pops the ring of answers, and takes what came. Says whether it popped an item. Takes no memory.
pub(crate) fn receive<U: RxEnd>(
    transactions: &mut Transactions,
    answers: &mut U,
    found: &mut Findings,
) -> bool
    requires in_order { (port : PortSide) × IsHostInOrder transactions.old port (ring_side U.RxEnd answers.old) }
    ensures received { IsReceiveStep (ring_side U.RxEnd answers.old) (ring_side U.RxEnd answers.new) found.old found.new result }
    ensures ring { IsKeptRing (ring_side U.RxEnd answers.old) (ring_side U.RxEnd answers.new) }
    ensures still { result ≡ false → IsRestedRing (ring_side U.RxEnd answers.old) (ring_side U.RxEnd answers.new) }
    ensures unchanged { result ≡ false → transactions.new ≡ transactions.old }
    ensures rest { transactions.new ≡ record transactions.old { rows = transactions.new.rows; ended = transactions.new.ended } }
    ensures in_order { (port : PortSide) → IsHostInOrder transactions.old port (ring_side U.RxEnd answers.old)
        → IsHostInOrder transactions.new port (ring_side U.RxEnd answers.new) }
{
    match pop_ring(answers, found) {
        Some(Item::Packet(answer)) => transactions.take(&answer),
        Some(Item::Close) => transactions.end(),
        None => return false,
    }
    true
}

// offers the next packet, which passes, and goes on behind it
fn offer_next<T: TxEnd>(transactions: &mut Transactions, requests: &mut OutPort<T>)
    requires in_order { (ring : RingSide) × IsHostInOrder transactions.old requests.old ring }
    requires fit { IsFit requests.old.plan requests.old.state }
    requires ready { owes requests.old.state ≡ false }
    requires some { transactions.old.next < length transactions.old.asked.lines }
    requires aimed { IsNextAimed transactions.old }
    requires free { window_wait transactions.old ≡ None }
    ensures next_offered { IsNextOffered transactions.old requests.old requests.new }
    ensures more { port_moves requests.old < port_moves requests.new }
    ensures kept { IsKeptPort requests.old requests.new }
    ensures sent { requests.new.state.sent ≡ requests.old.state.sent }
    ensures onward { transactions.old.next ≤ transactions.new.next }
    ensures rest { transactions.new ≡ record transactions.old { next = transactions.new.next; part = transactions.new.part } }
    ensures in_order { (ring : RingSide) → IsHostInOrder transactions.old requests.old ring
        → IsHostInOrder transactions.new requests.new ring }
    ensures told { requests.new.state.close_requested ≡ false }
    ensures fit { IsFit requests.new.plan requests.new.state }
{
    let packet = transactions.issue();
    requests.offer(&packet);
}

// finds for which transaction the next one waits, and says whether it does
fn find_wait(transactions: &Transactions, found: &mut Findings) -> bool
    ensures found { IsWaitFound (window_cause transactions.now) found.old found.new }
    ensures waits { result ≡ is_some (window_cause transactions.now) }
    ensures free { result ≡ false → window_wait transactions.now ≡ None }
    ensures found_nothing { result ≡ false → found.new ≡ found.old }
{
    match transactions.waits_for() {
        Some(index) => found.add_wait(Cause::Window { index }),
        None => return false,
    }
    true
}

// says whether the next packet is offered now, and finds for which transaction it waits
fn may_offer<T: TxEnd>(
    transactions: &Transactions,
    requests: &OutPort<T>,
    found: &mut Findings,
) -> bool
    ensures some { result ≡ true → transactions.now.next < length transactions.now.asked.lines }
    ensures ready { result ≡ true → owes requests.now.state ≡ false }
    ensures free { result ≡ true → window_wait transactions.now ≡ None }
    ensures found_nothing { result ≡ true → found.new ≡ found.old }
    ensures found_wait { IsWaitFound (window_cause transactions.now) found.old found.new }
    ensures none { result ≡ false → (length transactions.now.asked.lines ≤ transactions.now.next)
        ⊎ ((owes requests.now.state ≡ true) ⊎ (is_some (window_cause transactions.now) ≡ true)) }
{
    let waits = find_wait(transactions, found);
    !waits && transactions.any_left() && requests.ready()
}

/// Passes over what is aimed at no device, offers the next packet where the port is ready and its transaction waits for no
/// slot, and tells the port to close where none is left. Says whether it offered a packet. Takes no memory.
pub(crate) fn issue_next<T: TxEnd>(
    transactions: &mut Transactions,
    requests: &mut OutPort<T>,
    found: &mut Findings,
) -> bool
    requires in_order { (ring : RingSide) × IsHostInOrder transactions.old requests.old ring }
    requires fit { IsFit requests.old.plan requests.old.state }
    ensures issued { IsIssued transactions.new requests.old requests.new found.old found.new result }
    ensures next_offered { IsNextOffered transactions.old requests.old requests.new ⊎ IsHeldBack transactions.old transactions.new }
    ensures kept { IsKeptPort requests.old requests.new }
    ensures sent { requests.new.state.sent ≡ requests.old.state.sent }
    ensures onward { transactions.old.next ≤ transactions.new.next }
    ensures rest { transactions.new ≡ record transactions.old { next = transactions.new.next; part = transactions.new.part } }
    ensures left { result ≡ false → left_of transactions.new ≡ left_of transactions.old }
    ensures in_order { (ring : RingSide) → IsHostInOrder transactions.old requests.old ring
        → IsHostInOrder transactions.new requests.new ring }
    ensures aimed { IsNextAimed transactions.new }
    ensures closes_when_due { transactions.new.next ≡ length transactions.new.asked.lines → requests.new.state.close_requested ≡ true }
    ensures fit { IsFit requests.new.plan requests.new.state }
{
    transactions.pass_over();
    let offers = may_offer(transactions, requests, found);
    if offers {
        offer_next(transactions, requests);
        found.add_move();
        transactions.pass_over();
    }
    if !transactions.any_left() && !requests.close_requested() {
        requests.close();
    }
    offers
}
