//! The ends of one direction of a router are lent by their places.

ghost use Rattle.std.specs.Prelude.{◌≡◌, ◌<◌, vec_len};
ghost use Rattle.std.specs.Borrow.{sem, Lends};
ghost use Rattle.sb_node.specs.Sides.{ring_side};
ghost use Rattle.sb_port.specs.contracts.port.OutPort.{the_row as port_row};
ghost use Rattle.sb_router.specs.RouterOf.{lane_of, lane_with_port, lane_with_ring};
ghost use Rattle.sb_router.specs.Lanes.{inlet_at, outlet_at};
ghost use Rattle.sb_router.specs.contracts.lane.Lane.{the_row};

use crate::lane::Lane;
use sb_link::{RxEnd, TxEnd};
use sb_port::OutPort;

impl<T: TxEnd, U: RxEnd> Lane<T, U> {
    /// Lends the port at a place.
    pub(crate) fn port(&mut self, place: usize) -> &mut OutPort<T>
        requires within { place < vec_len self.old.outlets }
        ensures value { result.now ≡ outlet_at (lane_of self.old) place }
        ensures* writes_back { sem 𝓛 (Lends (the_row T.row U.row T.TxEnd U.RxEnd) (port_row T.row T.TxEnd)
            self.entry result (λ port. lane_with_port self.old place port)) }
    {
        let outlets = &mut self.outlets;
        &mut outlets[place]
    }

    /// Lends the end of the ring that comes in at a place.
    pub(crate) fn end(&mut self, place: usize) -> &mut U
        requires within { place < vec_len self.old.inlets }
        ensures value { ring_side U.RxEnd result.now ≡ (inlet_at (lane_of self.old) place).ring }
        ensures* writes_back { sem 𝓛 (Lends (the_row T.row U.row T.TxEnd U.RxEnd) U.row
            self.entry result (λ end. lane_with_ring self.old place (ring_side U.RxEnd end))) }
    {
        let inlets = &mut self.inlets;
        inlets[place].end()
    }
}
