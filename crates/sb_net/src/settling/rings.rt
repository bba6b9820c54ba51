//! Rings are given back.

ghost use Rattle.std.specs.Prelude.{◌≡◌, ◌<◌, ℕ, false, None, Some, Contains, length, slice_index_or};
ghost use Rattle.sb_port.specs.Ports.{PortSide};
ghost use Rattle.sb_node.specs.Sides.{received_words, ring_side};
ghost use Rattle.sb_net.specs.RingEnds.{HasEndsAt};

use sb_link::Fabric;
use sb_port::OutPort;

/// Gives the ends of all rings back to the fabric that made them. Takes no memory.
pub(crate) fn give_back<F: Fabric>(
    fabric: &mut F,
    ports: Vec<Option<OutPort<F::Tx>>>,
    ends: Vec<Option<F::Rx>>,
)
    requires count { length ends.items ≡ length ports.items }
    requires ends { (r : ℕ) → r < length ports.items → HasEndsAt F.Rx.RxEnd r ports.items ends.items }
    requires made { (r : ℕ) (port : PortSide) → r < length ports.items → slice_index_or ports.items r None ≡ Some port
        → Contains (F.made fabric.old) port.plan }
    requires unsettled { (r : ℕ) → r < length ports.items → F.settled fabric.old r ≡ false }
    ensures carried { (r : ℕ) (end : F.Rx) → r < length ports.items → slice_index_or ends.items r None ≡ Some end
        → F.carried fabric.new r ≡ received_words (ring_side F.Rx.RxEnd end) }
    ensures made { F.made fabric.new ≡ F.made fabric.old }
{
    let mut ports = ports;
    let mut ends = ends;
    for ring in 0..ports.len() {
        let Some(port) = ports[ring].take() else {
            return;
        };
        let Some(end) = ends[ring].take() else {
            return;
        };
        fabric.settle(port.into_end(), end);
    }
}
