//! Laws of routers as they stand in a network: they keep the promises on which whole runs rest.

ghost use Rattle.std.specs.Prelude.{◌≡◌, ◌≢◌, ◌<◌, ℕ, Some, true, false, List, length, All};
ghost use Rattle.sb_link.specs.declared.answers.Turn.{Turn};
ghost use Rattle.sb_link.specs.declared.answers.Turn.TheVariants.{Moved};
ghost use Rattle.sb_packet.specs.Networks.{Network};
ghost use Rattle.sb_link.specs.RingPlans.{NetFlow};
ghost use Rattle.sb_flow.specs.Rings.{ring_plan};
ghost use Rattle.sb_flow.specs.Accepted.{IsAccepted};
ghost use Rattle.sb_router.specs.Forwarding.{HasForwarded, IsLaid, Passes, Words};
ghost use Rattle.sb_router.specs.Lanes.{inlet_at, outlet_at};
ghost use Rattle.sb_router.specs.Ways.{route_of};
ghost use Rattle.sb_router.specs.Routers.{ClosesWhenDue, DirectionSide, ForwardsAll, IsRouterTurn, IsWholeDirection, IsWholeRouter, RouterSide};
ghost use Rattle.sb_router.specs.Turning.{IsIdleLane};
ghost use Rattle.sb_laws.specs.Flows.{Course};
ghost use Rattle.sb_laws.specs.Moments.{Moment};
ghost use Rattle.sb_laws.specs.NetworkLayouts.{IsRouted, links_into, links_out_of, network_answers, network_requests};
ghost use Rattle.sb_laws.specs.Runs.{ForwardsFlow};
ghost use Rattle.sb_laws.specs.RouterSides.{HasLane, HasTable, IsAtStage, IsBuiltFor, IsDirectionMet, IsIdleAtRings, IsRouterAt, IsRouterOf, KeepsAlongWays, LeadsByPlans, ShowsLane, answer_ins, answer_outs, course_words, request_ins, request_outs, ring_outs};
ghost use Rattle.sb_laws.specs.Standstills.{IsIdleReceiver, IsIdleSender, RoundEnd, Stages};

use sb_router::routers_hand_on;

/// A direction of a router that has handed on what came of a flow, less what it dropped, keeps a router's promise for it.
pub fn routers_keep_their_promise()
    ensures flow { (network : Network) (c : Course) (m : Moment) (outs : List ℕ) (d : DirectionSide) (f : NetFlow) (i o : ℕ)
        → HasLane m d.lane → IsRouterOf c outs d.lane → IsWholeDirection d → Passes (route_of d.rows) d.lane f i o
        → HasForwarded (course_words network c outs) d.lane f i o
        → ForwardsFlow network c m f (inlet_at d.lane i).ring.plan.ring (outlet_at d.lane o).plan.ring }
    ensures all_flows { (network : Network) (c : Course) (m : Moment) (outs : List ℕ) (d : DirectionSide) (f : NetFlow) (i o : ℕ)
        → HasLane m d.lane → IsRouterOf c outs d.lane → IsWholeDirection d → Passes (route_of d.rows) d.lane f i o
        → ForwardsAll (course_words network c outs) d
        → ForwardsFlow network c m f (inlet_at d.lane i).ring.plan.ring (outlet_at d.lane o).plan.ring }
{
    routers_hand_on();
}

/// A direction that did nothing in a turn is idle at each of its rings.
pub fn idle_routers_are_idle()
    ensures receivers { (stages : Stages) (e : RoundEnd) (stage : ℕ) (d : DirectionSide)
        → ShowsLane e (route_of d.rows) d.lane → IsAtStage stages stage d.lane
        → IsWholeDirection d → IsIdleLane (route_of d.rows) d.lane
        → All (λ x. IsIdleReceiver stages e x.ring.plan.ring) d.lane.inlets }
    ensures senders { (stages : Stages) (e : RoundEnd) (stage : ℕ) (d : DirectionSide)
        → ShowsLane e (route_of d.rows) d.lane → IsAtStage stages stage d.lane
        → IsWholeDirection d → IsIdleLane (route_of d.rows) d.lane → ClosesWhenDue d
        → All (λ y. IsIdleSender stages e y.plan.ring) d.lane.outlets }
{}

/// So is a router in both directions, after a turn in which it didn't move.
pub fn unmoved_routers_are_idle()
    ensures requests { (stages : Stages) (e : RoundEnd) (stage : ℕ) (before after : RouterSide) (answer : Turn)
        → IsWholeRouter after → IsRouterTurn before answer after → answer ≢ Moved
        → ShowsLane e (route_of after.requests.rows) after.requests.lane → IsAtStage stages stage after.requests.lane
        → IsIdleAtRings stages e after.requests.lane }
    ensures answers { (stages : Stages) (e : RoundEnd) (stage : ℕ) (before after : RouterSide) (answer : Turn)
        → IsWholeRouter after → IsRouterTurn before answer after → answer ≢ Moved
        → ShowsLane e (route_of after.answers.rows) after.answers.lane → IsAtStage stages stage after.answers.lane
        → IsIdleAtRings stages e after.answers.lane }
{}

/// The rings of a direction that is built for a router of a network belong together, as what it promises asks for.
pub fn built_routers_belong_together()
    ensures requests { (network : Network) (r : ℕ) (d : DirectionSide)
        → IsRouted network → IsBuiltFor network (request_ins network r) (request_outs network r) d
        → IsLaid (course_words network (network_requests network) (request_outs network r)) (route_of d.rows) d.lane }
    ensures answers { (network : Network) (r : ℕ) (d : DirectionSide)
        → IsRouted network → IsBuiltFor network (answer_ins network r) (answer_outs network r) d
        → IsLaid (course_words network (network_answers network) (answer_outs network r)) (route_of d.rows) d.lane }
    ensures request_router { (network : Network) (r : ℕ) (d : DirectionSide)
        → IsRouted network → IsBuiltFor network (request_ins network r) (request_outs network r) d
        → IsRouterOf (network_requests network) (request_outs network r) d.lane }
    ensures answer_router { (network : Network) (r : ℕ) (d : DirectionSide)
        → IsRouted network → IsBuiltFor network (answer_ins network r) (answer_outs network r) d
        → IsRouterOf (network_answers network) (answer_outs network r) d.lane }
{}

/// Where each router of a network is built for it and has forwarded what came, each keeps its promise for each flow
/// that passes it: all that whole runs ask of routers.
pub fn routers_keep_promises_along_ways()
    ensures requests { (network : Network) (m : Moment) (router : ℕ → DirectionSide)
        → IsRouted network → All (λ host. host.id < 32) network.hosts
        → ((r : ℕ) → r < length network.routers
        → IsRouterAt network (network_requests network) m (request_ins network r) (request_outs network r) (router r))
        → KeepsAlongWays network (network_requests network) m }
    ensures answers { (network : Network) (m : Moment) (router : ℕ → DirectionSide)
        → IsRouted network → All (λ host. host.id < 32) network.hosts
        → ((r : ℕ) → r < length network.routers
        → IsRouterAt network (network_answers network) m (answer_ins network r) (answer_outs network r) (router r))
        → KeepsAlongWays network (network_answers network) m }
{
    routers_hand_on();
}

/// Where the ends of a direction met the other ends of their rings, it is whole and has forwarded as before.
pub fn met_routers_go_on()
    ensures whole { (before after : DirectionSide)
        → IsDirectionMet before after → IsWholeDirection before → IsWholeDirection after }
    ensures forwards { (words : Words) (before after : DirectionSide)
        → IsDirectionMet before after → ForwardsAll words before → ForwardsAll words after }
{}

/// The table of a router, made from the ways of its network, leads a flow to a ring just where that ring carries it.
pub fn tables_lead_by_plans()
    ensures requests { (network : Network) (r : ℕ) (d : DirectionSide)
        → IsRouted network → All (λ host. host.id < 32) network.hosts
        → ring_outs d.lane ≡ request_outs network r → All (λ y. y.plan ≡ ring_plan network y.plan.ring) d.lane.outlets
        → HasTable network false r (links_out_of network (Some r)) d
        → LeadsByPlans d }
    ensures answers { (network : Network) (r : ℕ) (d : DirectionSide)
        → IsRouted network → All (λ host. host.id < 32) network.hosts
        → ring_outs d.lane ≡ answer_outs network r → All (λ y. y.plan ≡ ring_plan network y.plan.ring) d.lane.outlets
        → HasTable network true r (links_into network (Some r)) d
        → LeadsByPlans d }
{}

/// The hosts of an accepted network have ids for which there are rows in tables.
pub fn accepted_ids_are_low()
    ensures low { (network : Network) → IsAccepted network → All (λ host. host.id < 32) network.hosts }
{}
