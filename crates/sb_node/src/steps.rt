//! What a node does with a port or a ring in its turn.

ghost use Rattle.std.specs.Prelude.{◌≡◌, false};
ghost use Rattle.sb_port.specs.Ports.{IsFit, offered_words, owes};
ghost use Rattle.sb_node.specs.Sides.{ring_side};
ghost use Rattle.sb_node.specs.Kept.{IsKeptPort, IsKeptRing};
ghost use Rattle.sb_node.specs.Rested.{IsRestedPort, IsRestedRing};
ghost use Rattle.sb_node.specs.Steps.{IsHandedOn, IsPortServed, IsPortTurned, IsRingPopped, IsRingServed};

use crate::findings::Findings;
use sb_link::{Pop, RxEnd, TxEnd};
use sb_packet::{Item, Packet};
use sb_port::{OutPort, PortTurn};

/// Turns a port, and notes what it found. `more` says that the node popped or offered something in this turn, so that
/// more may come. Takes no memory.
#[inline(always)]
pub fn turn_port<T: TxEnd>(port: &mut OutPort<T>, more: bool, found: &mut Findings)
    requires fit { IsFit port.old.plan port.old.state }
    ensures turned { IsPortTurned more port.old port.new found.old found.new }
    ensures served { IsPortServed port.old port.new }
    ensures kept { IsKeptPort port.old port.new }
    ensures still { found.new.moved ≡ false → IsRestedPort port.old port.new }
    ensures words { offered_words port.new ≡ offered_words port.old }
    ensures told { port.new.state.close_requested ≡ port.old.state.close_requested }
    ensures fit { IsFit port.new.plan port.new.state }
{
    let ring = port.plan().ring;
    match port.turn(more) {
        PortTurn::Moved => found.add_move(),
        PortTurn::Full { sent, taken } => found.add_full(ring, sent, taken),
        PortTurn::Clear => {}
    }
}

/// Pops the next item of a ring, and notes what it found. Takes no memory.
#[inline(always)]
pub fn pop_ring<U: RxEnd>(ring: &mut U, found: &mut Findings) -> Option<Item>
    ensures popped { IsRingPopped (ring_side U.RxEnd ring.old) (ring_side U.RxEnd ring.new) result found.old found.new }
    ensures served { IsRingServed (ring_side U.RxEnd ring.old) (ring_side U.RxEnd ring.new) }
    ensures kept { IsKeptRing (ring_side U.RxEnd ring.old) (ring_side U.RxEnd ring.new) }
    ensures still { found.new.moved ≡ false → IsRestedRing (ring_side U.RxEnd ring.old) (ring_side U.RxEnd ring.new) }
{
    let number = ring.plan().ring;
    match ring.try_pop() {
        Pop::Item(item) => {
            found.add_move();
            Some(item)
        }
        Pop::Empty { received, sent } => {
            found.add_empty(number, received, sent);
            None
        }
    }
}

/// Offers a packet to a port that is ready, where it passes, and drops it elsewhere. Takes no memory.
#[inline(always)]
#[tactic(auto, using(crate::proofs::Offered::rest_offered))]
pub fn hand_on<T: TxEnd>(port: &mut OutPort<T>, packet: &Packet)
    requires fit { IsFit port.old.plan port.old.state }
    requires ready { owes port.old.state ≡ false }
    requires untold { port.old.state.close_requested ≡ false }
    ensures handed { IsHandedOn port.old port.new packet.now }
    ensures kept { IsKeptPort port.old port.new }
    ensures told { port.new.state.close_requested ≡ false }
    ensures fit { IsFit port.new.plan port.new.state }
{
    if port.passes(packet) {
        port.offer(packet);
    }
}
