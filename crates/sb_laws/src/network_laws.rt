//! Laws of the ways of a network: the laws of whole runs hold of it, and say what its rings carried.

ghost use Rattle.std.specs.Prelude.{◌≡◌, ◌<◌, ℕ, true, List, All};
ghost use Rattle.sb_packet.specs.Networks.{Network};
ghost use Rattle.sb_flow.specs.Rings.{IsCarried, ring_budget, ring_plan};
ghost use Rattle.sb_link.specs.Traffic.{AreInTurn, item_accesses};
ghost use Rattle.sb_packet.specs.declared.entry.Entry.{Entry};
ghost use Rattle.sb_packet.specs.declared.item.Item.{Item};
ghost use Rattle.sb_flow.specs.Accepted.{IsAccepted};
ghost use Rattle.sb_laws.specs.Flows.{budget_over, is_of_ring};
ghost use Rattle.sb_laws.specs.Layouts.{IsLayout};
ghost use Rattle.sb_laws.specs.Moments.{Moment, arrived};
ghost use Rattle.sb_laws.specs.Standstills.{IsWithin, Rises};
ghost use Rattle.sb_laws.specs.NetworkLayouts.{HasWays, IsRouted, answer_ring, network_answers, network_flows, network_layout, network_requests, network_stages, request_ring, ring_count};
ghost use Rattle.sb_laws.specs.Runs.{IsWholeRun};

/// The links and routes of an accepted network lead on.
pub fn accepted_networks_are_routed()
    ensures routed { (network : Network) → IsAccepted network → IsRouted network }
{}

/// Where links and routes lead on, each way leads to its device, and there is one wherever a host aims.
pub fn routed_networks_have_ways()
    ensures ways { (network : Network) → IsRouted network → HasWays network }
{}

/// A network whose ways lead to its devices is laid out by the rings of its links.
pub fn networks_are_laid_out()
    ensures laid_out { (network : Network) → HasWays network → IsLayout network (network_layout network) }
{}

/// The budgets of its courses are those of its rings.
pub fn budgets_are_the_rings()
    ensures requests { (network : Network) (k : ℕ)
        → HasWays network → request_ring k < ring_count network
        → budget_over (network_requests network) (request_ring k) ≡ ring_budget network (request_ring k) }
    ensures answers { (network : Network) (k : ℕ)
        → HasWays network → answer_ring k < ring_count network
        → budget_over (network_answers network) (answer_ring k) ≡ ring_budget network (answer_ring k) }
{}

/// Its stages rise along each ring, and its ways are made of its rings.
pub fn stages_rise()
    ensures rises { (network : Network) (ring : ℕ) → IsRouted network → Rises (network_stages network) ring }
    ensures within { (network : Network)
        → IsRouted network
        → All (IsWithin (network_stages network) (network_layout network)) (network_flows network) }
{}

/// What may go over a ring by its plan is words of the ring's flows.
pub fn planned_words_are_carried()
    ensures requests { (network : Network) (k : ℕ) (list : List Item)
        → IsRouted network → request_ring k < ring_count network
        → AreInTurn (ring_plan network (request_ring k)) list
        → All (λ a. is_of_ring network (network_requests network) (request_ring k) a ≡ true) (item_accesses list) }
    ensures answers { (network : Network) (k : ℕ) (list : List Item)
        → IsRouted network → answer_ring k < ring_count network
        → AreInTurn (ring_plan network (answer_ring k)) list
        → All (λ a. is_of_ring network (network_answers network) (answer_ring k) a ≡ true) (item_accesses list) }
{}

/// In a whole run each of its rings carried just what a ring is to carry.
pub fn rings_carry_their_flows()
    ensures carried { (network : Network) (journal : List Entry) (m : Moment) (ring : ℕ)
        → HasWays network → IsWholeRun network (network_layout network) journal m
        → ring < ring_count network → IsCarried network journal ring (arrived m ring) }
{}
