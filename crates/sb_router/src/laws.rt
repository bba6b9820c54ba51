//! Laws of routers.

ghost use Rattle.std.specs.Prelude.{◌≡◌, ◌<◌, ℕ, true, length, set, All};
ghost use Rattle.sb_node.specs.Kept.{IsKeptPort, IsKeptRing, IsPortMet, IsRingMet};
ghost use Rattle.sb_node.specs.Sides.{RingSide};
ghost use Rattle.sb_port.specs.Ports.{PortSide};
ghost use Rattle.sb_link.specs.RingPlans.{NetFlow};
ghost use Rattle.sb_link.specs.Traffic.{has_close};
ghost use Rattle.sb_router.specs.Forwarding.{HasForwarded, Passes, Words};
ghost use Rattle.sb_router.specs.Lanes.{inlet_at, outlet_at};
ghost use Rattle.sb_router.specs.Ways.{route_of};
ghost use Rattle.sb_router.specs.Rested.{IsStillLane, lane_moves};
ghost use Rattle.sb_router.specs.Routers.{DirectionSide, ForwardsAll, IsKeptDirection, IsKeptRouter, IsRestedDirection, IsWholeDirection, IsWholeRouter, RouterSide, router_port, router_ports, router_ring, router_rings, router_with_port, router_with_ring, with_port, with_ring};
ghost use Rattle.sb_router.specs.Steps.{IsSilent};

/// Of each flow that passes a router, what was offered is what came, less some; and nothing is missing but what is held,
/// where each packet that was popped in that direction is sound, and the words that were popped for the port's ring are
/// within its budget. A port sends its Close only where each ring gave its own, and nothing is held.
pub fn routers_hand_on()
    ensures forwarded { (words : Words) (d : DirectionSide) (f : NetFlow) (i o : ℕ) → ForwardsAll words d
        → Passes (route_of d.rows) d.lane f i o → HasForwarded words d.lane f i o }
    ensures closed { (d : DirectionSide) (o : ℕ) → IsWholeDirection d → o < length d.lane.outlets
        → has_close (outlet_at d.lane o).state.sent ≡ true → All IsSilent d.lane.inlets }
{}

/// A direction whose ring's end or port met the other one is whole still, and goes on with what it hands on.
pub fn direction_stays_whole()
    ensures ring { (d : DirectionSide) (k : ℕ) (ring : RingSide) → k < length d.lane.inlets → IsRingMet (inlet_at d.lane k).ring ring
        → IsWholeDirection d → IsWholeDirection (with_ring d k ring) }
    ensures ring_forwards { (words : Words) (d : DirectionSide) (k : ℕ) (ring : RingSide) → k < length d.lane.inlets
        → IsRingMet (inlet_at d.lane k).ring ring → ForwardsAll words d → ForwardsAll words (with_ring d k ring) }
    ensures port { (d : DirectionSide) (k : ℕ) (port : PortSide) → k < length d.lane.outlets → IsPortMet (outlet_at d.lane k) port
        → IsWholeDirection d → IsWholeDirection (with_port d k port) }
    ensures port_forwards { (words : Words) (d : DirectionSide) (k : ℕ) (port : PortSide) → k < length d.lane.outlets
        → IsPortMet (outlet_at d.lane k) port → ForwardsAll words d → ForwardsAll words (with_port d k port) }
{}

/// A router whose ring's end or port met the other one is whole still, and has all others as before.
pub fn router_stays_whole()
    ensures ring { (r : RouterSide) (k : ℕ) (ring : RingSide) → k < length (router_rings r) → IsRingMet (router_ring r k) ring
        → IsWholeRouter r → IsWholeRouter (router_with_ring r k ring) }
    ensures port { (r : RouterSide) (k : ℕ) (port : PortSide) → k < length (router_ports r) → IsPortMet (router_port r k) port
        → IsWholeRouter r → IsWholeRouter (router_with_port r k port) }
    ensures ring_rings { (r : RouterSide) (k : ℕ) (ring : RingSide)
        → router_rings (router_with_ring r k ring) ≡ set (router_rings r) k ring }
    ensures ring_ports { (r : RouterSide) (k : ℕ) (ring : RingSide) → router_ports (router_with_ring r k ring) ≡ router_ports r }
    ensures port_ports { (r : RouterSide) (k : ℕ) (port : PortSide)
        → router_ports (router_with_port r k port) ≡ set (router_ports r) k port }
    ensures port_rings { (r : RouterSide) (k : ℕ) (port : PortSide) → router_rings (router_with_port r k port) ≡ router_rings r }
{}

/// A router keeps its ports and its rings at their places, whatever turns it takes.
pub fn routers_keep_their_places()
    ensures port_count { (r s : RouterSide) → IsKeptRouter r s → length (router_ports s) ≡ length (router_ports r) }
    ensures ring_count { (r s : RouterSide) → IsKeptRouter r s → length (router_rings s) ≡ length (router_rings r) }
    ensures ports { (r s : RouterSide) (k : ℕ) → IsKeptRouter r s → IsKeptPort (router_port r k) (router_port s k) }
    ensures rings { (r s : RouterSide) (k : ℕ) → IsKeptRouter r s → IsKeptRing (router_ring r k) (router_ring s k) }
{}

/// A direction through which no more went, step by step, is still.
pub fn unmoved_directions_are_still()
    ensures still { (before after : DirectionSide) → IsKeptDirection before after → lane_moves after.lane ≡ lane_moves before.lane
        → IsStillLane before.lane after.lane }
{}

/// A direction in which nothing moved is still.
pub fn rested_directions_are_still()
    ensures still { (before after : DirectionSide) → IsRestedDirection before after → IsStillLane before.lane after.lane }
{}
