//! A port by which a router sends.

ghost use Rattle.std.specs.Prelude.{◌≡◌, false};
ghost use Rattle.std.specs.List.{list_all};
ghost use Rattle.sb_port.specs.Ports.{owes};
ghost use Rattle.sb_router.specs.Popping.{FindsBesides, IsOutletTurned};
ghost use Rattle.sb_router.specs.Steps.{IsHandedTo, IsTold};
ghost use Rattle.sb_router.specs.Forwarding.{IsWholeOutlet};

use crate::causes::lower;
use sb_link::TxEnd;
use sb_node::{Findings, hand_on, turn_port};
use sb_packet::Packet;
use sb_port::OutPort;

/// Turns a port once, and notes what it found. `more` says that more may come.
#[inline(always)]
pub fn turn_outlet<T: TxEnd>(port: &mut OutPort<T>, more: bool, found: &mut Findings)
    requires whole { IsWholeOutlet port.old }
    ensures turned { FindsBesides (IsOutletTurned more port.old port.new) found.old found.new }
{
    let before = found.full.take();
    turn_port(port, more, found);
    found.full = lower(before, found.full);
}

/// Tells a port to close, if it wasn't told before.
pub fn close_outlet<T: TxEnd>(port: &mut OutPort<T>)
    requires whole { IsWholeOutlet port.old }
    ensures told { IsTold port.old port.new }
{
    if !port.close_requested() {
        port.close();
    }
}

/// Offers a packet to a port where it passes, and drops it elsewhere.
#[inline(always)]
pub fn hand_to<T: TxEnd>(port: &mut OutPort<T>, packet: &Packet)
    requires whole { IsWholeOutlet port.old }
    requires ready { owes port.old.state ≡ false }
    requires untold { port.old.state.close_requested ≡ false }
    ensures handed { IsHandedTo port.old port.new packet.now }
{
    hand_on(port, packet);
}

/// Whether each of these ports has sent its Close.
pub fn have_sent_close<T: TxEnd>(ports: &[OutPort<T>]) -> bool
    ensures close_sent { result ≡ list_all (λ port. port.state.close_sent) ports.now }
{
    ports.iter().all(|port| port.closed())
}
