//! Laws of ports and rings as they stand in their nodes: they keep the promises on which whole runs rest.

ghost use Rattle.std.specs.Prelude.{◌≡◌, ◌≤◌, ◌<◌, ◌+◌, ◌*◌, ℕ, true, length};
ghost use Rattle.sb_link.specs.Ends.{HaveMet};
ghost use Rattle.sb_node.specs.Sides.{RingSide, has_rest, is_full, port_moves};
ghost use Rattle.sb_link.specs.Prefixes.{IsPrefix};
ghost use Rattle.sb_link.specs.Traffic.{AreInTurn};
ghost use Rattle.sb_port.specs.Ports.{IsFit, PortSide};
ghost use Rattle.sb_laws.specs.Moments.{Moment};
ghost use Rattle.sb_laws.specs.Runs.{IsLink, IsPort};
ghost use Rattle.sb_laws.specs.NodeSides.{HasPort, HasRing, ShowsPort, ShowsRing};
ghost use Rattle.sb_laws.specs.Standstills.{IsIdlePort, IsTrueRing, RoundEnd};

/// A port that is fit keeps a port's promise, at any moment.
pub fn fit_ports_keep_their_promise()
    ensures promise { (m : Moment) (r : ℕ) (port : PortSide)
        → IsFit port.plan port.state → HasPort m r port → IsPort m r }
{}

/// A ring whose ends have met keeps a link's.
pub fn met_rings_are_links()
    ensures link { (m : Moment) (r : ℕ) (port : PortSide) (ring : RingSide)
        → HasPort m r port → HasRing m r ring
        → AreInTurn port.plan port.state.sent → IsPrefix ring.received port.state.sent
        → IsLink m r }
{}

/// In a node that did nothing a fit port is idle, where it has nothing left to send but in front of a full ring.
pub fn owing_ports_are_idle()
    ensures idle { (s : RoundEnd) (r : ℕ) (port : PortSide)
        → IsFit port.plan port.state → ShowsPort s r port
        → (has_rest port ≡ true → is_full port ≡ true)
        → IsIdlePort s r }
{}

/// What the two ends of a ring know of each other is true, once they have met and nothing went over the ring since.
pub fn met_rings_are_true()
    ensures ring { (s : RoundEnd) (r : ℕ) (port : PortSide) (ring : RingSide)
        → ShowsPort s r port → ShowsRing s r ring
        → AreInTurn port.plan port.state.sent → 0 < port.plan.capacity
        → HaveMet port.state.sent port.taken ring.received ring.known
        → IsTrueRing s r }
{}

/// What a port and the end behind it do at a ring is within the ring's budget: so rounds in which a node moves are few.
pub fn moves_are_within_budgets()
    ensures port { (port : PortSide)
        → IsFit port.plan port.state → AreInTurn port.plan port.state.sent
        → port_moves port ≤ 3 * port.plan.budget + 1 }
    ensures ring { (ring : RingSide)
        → AreInTurn ring.plan ring.received → length ring.received ≤ ring.plan.budget + 1 }
{}
