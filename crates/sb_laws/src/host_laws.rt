//! Laws of hosts as they stand in a network: they keep the promises on which whole runs rest.

ghost use Rattle.std.specs.Prelude.{◌≡◌, ◌≢◌, ◌≤◌, ◌<◌, ◌%◌, ℕ, true, false, List, [], length, slice_get, All, Contains, None, Some, is_some};
ghost use Rattle.sb_host.specs.Asked.{asked_accesses, asked_by};
ghost use Rattle.sb_host.specs.Hosts.{HostSide, IsHostTurn, IsKeptHost, IsWholeHost, host_wait};
ghost use Rattle.sb_host.specs.Outcomes.{outcomes_so_far};
ghost use Rattle.sb_host.specs.Progress.{TransactionsSide};
ghost use Rattle.sb_host.specs.Rows.{IsTable};
ghost use Rattle.sb_host.specs.Steps.{IsIdleHost};
ghost use Rattle.sb_host.specs.Windows.{window_cause};
ghost use Rattle.sb_link.specs.declared.answers.Turn.{Turn};
ghost use Rattle.sb_link.specs.declared.answers.Turn.TheVariants.{Moved};
ghost use Rattle.sb_port.specs.Ports.{IsFit, PortSide};
ghost use Rattle.sb_node.specs.Sides.{RingSide, received_words};
ghost use Rattle.sb_packet.specs.Networks.{NetHost, Network, device_at};
ghost use Rattle.sb_packet.specs.Answers.{host_outcomes};
ghost use Rattle.sb_flow.specs.Rings.{is_upward, ring_budget, ring_flows, ring_plan};
ghost use Rattle.sb_packet.specs.Cuts.{transaction_packets};
ghost use Rattle.sb_link.specs.RingPlans.{goes_through};
ghost use Rattle.sb_packet.specs.Scripts.{IsTransaction};
ghost use Rattle.sb_link.specs.Traffic.{IsPlanned};
ghost use Rattle.sb_packet.specs.declared.transaction.Txn.{Txn};
ghost use Rattle.sb_flow.specs.Ways.{first_link};
ghost use Rattle.sb_packet.specs.declared.entry.Entry.{Entry};
ghost use Rattle.sb_laws.specs.Flows.{aimed_script};
ghost use Rattle.sb_laws.specs.NodeSides.{HasPort, HasRing, IsHostAt, IsHostBuiltFor, IsHostOf, ShowsPort, ShowsRing};
ghost use Rattle.sb_laws.specs.Layouts.{HasScripts, IsLayout, Layout};
ghost use Rattle.sb_laws.specs.Moments.{Moment, arrived};
ghost use Rattle.sb_laws.specs.NetworkLayouts.{IsRouted, network_flows, network_layout, request_ring};
ghost use Rattle.sb_laws.specs.Runs.{HasAllEnded, IsHost, IsMomentOf};
ghost use Rattle.sb_laws.specs.Standstills.{IsIdleReceiver, IsIdleSender, MissesAnswer, RoundEnd, Stages};

use sb_host::{hosts_offer_their_scripts, waiting_hosts_miss_answers};

/// What a host asks for are the words of its script that a device has, where devices have whole pages; and a whole host
/// keeps a host's promise for each of its flows.
pub fn hosts_keep_their_promise()
    ensures script { (network : Network) (host : NetHost)
        → HasScripts network → All (λ d. d.base % 4096 ≡ 0) network.devices → Contains network.hosts host
        → asked_accesses (asked_by network host) ≡ aimed_script network host.id }
    ensures promise { (network : Network) (layout : Layout) (m : Moment) (host : NetHost) (h : HostSide)
        → HasScripts network → All (λ d. d.base % 4096 ≡ 0) network.devices
        → IsHostOf network layout host h → IsWholeHost h → HasPort m h.requests.plan.ring h.requests
        → All (λ f. f.host ≡ host.id → IsHost network layout m f) layout.requests.flows }
{
    hosts_offer_their_scripts();
}

/// A host that did nothing in its turn is idle at both its rings. It has told its port to close, or its ring is full, or it
/// waits for a slot.
pub fn idle_hosts_are_idle()
    ensures sender { (stages : Stages) (s : RoundEnd) (r : ℕ) (t : TransactionsSide) (port : PortSide) (ring : RingSide)
        → ShowsPort s r port → s.waits r ≡ is_some (window_cause t) → stages.leaves_host r ≡ true → IsFit port.plan port.state
        → IsIdleHost t port ring → IsIdleSender stages s r }
    ensures receiver { (stages : Stages) (s : RoundEnd) (r : ℕ) (t : TransactionsSide) (port : PortSide) (ring : RingSide)
        → ShowsRing s r ring → s.holds r ≡ None → s.at.held r ≡ []
        → IsIdleHost t port ring → IsIdleReceiver stages s r }
{}

/// So is a whole host after a turn in which it didn't move.
pub fn unmoved_hosts_are_idle()
    ensures sender { (stages : Stages) (s : RoundEnd) (before after : HostSide) (round : ℕ) (answer : Turn)
        → IsWholeHost after → IsHostTurn before round answer after → answer ≢ Moved
        → ShowsPort s after.requests.plan.ring after.requests → s.waits after.requests.plan.ring ≡ is_some (host_wait after)
        → stages.leaves_host after.requests.plan.ring ≡ true
        → IsIdleSender stages s after.requests.plan.ring }
    ensures receiver { (stages : Stages) (s : RoundEnd) (before after : HostSide) (round : ℕ) (answer : Turn)
        → IsWholeHost after → IsHostTurn before round answer after → answer ≢ Moved
        → ShowsRing s after.answers.plan.ring after.answers
        → s.holds after.answers.plan.ring ≡ None → s.at.held after.answers.plan.ring ≡ []
        → IsIdleReceiver stages s after.answers.plan.ring }
{}

/// A host that waits for a slot misses an answer: it has offered a word that is answered, and nothing that looks like the
/// answer has come.
pub fn waiting_hosts_miss_answers_of_their_flows()
    ensures misses { (network : Network) (layout : Layout) (m : Moment) (host : NetHost) (h : HostSide)
        → IsLayout network layout → All (λ d. d.base % 4096 ≡ 0) network.devices
        → IsHostOf network layout host h → IsWholeHost h → HasPort m h.requests.plan.ring h.requests
        → HasRing m h.answers.plan.ring h.answers → is_some (host_wait h) ≡ true
        → MissesAnswer network layout m h.requests.plan.ring }
{
    hosts_offer_their_scripts();
    waiting_hosts_miss_answers();
}

/// Where each ring has given its Close, a host that told its port to close knows of each of its transactions what the
/// journal says: by the words that came to it, each is found by its reply address, its opcode and its size.
pub fn hosts_find_the_journals_outcomes()
    ensures outcomes { (network : Network) (layout : Layout) (journal : List Entry) (m : Moment) (host : NetHost) (h : HostSide)
        → IsLayout network layout → All (λ d. d.base % 4096 ≡ 0) network.devices
        → IsMomentOf network layout journal m → HasAllEnded layout m
        → IsHostOf network layout host h → IsWholeHost h → h.requests.state.close_requested ≡ true
        → HasRing m h.answers.plan.ring h.answers
        → outcomes_so_far h.transactions.asked (received_words h.answers) h.transactions.next ≡ host_outcomes network journal host }
    ensures table { (m : Moment) (h : HostSide)
        → IsWholeHost h → HasRing m h.answers.plan.ring h.answers
        → IsTable h.transactions.asked (arrived m h.answers.plan.ring) h.transactions.rows }
{}

/// A host at the two rings of the link from a place of a network, which asks for the script there, stays so in its turns.
/// It belongs to the network: all its flows begin at its one ring, and all their answers come by its other.
pub fn built_hosts_belong_to_their_networks()
    ensures kept { (network : Network) (place round : ℕ) (before after : HostSide)
        → IsKeptHost round before after → IsHostBuiltFor network place before → IsHostBuiltFor network place after }
    ensures belongs { (network : Network) (place : ℕ) (host : NetHost) (h : HostSide)
        → IsRouted network → slice_get network.hosts place ≡ Some host → IsHostBuiltFor network place h
        → IsHostOf network (network_layout network) host h }
{}

/// Where each host stands so in its network, each flow's host keeps its promise: all that whole runs ask of hosts.
pub fn hosts_keep_promises_for_all_flows()
    ensures promises { (network : Network) (m : Moment) (host : ℕ → HostSide)
        → IsRouted network → ((n : ℕ) → n < length network.hosts → IsHostAt network m n (host n))
        → All (IsHost network (network_layout network) m) (network_flows network) }
{
    hosts_offer_their_scripts();
}

/// The ring from a host has room for all words that the host asks of devices: they are the words of the ring's flows.
pub fn host_rings_have_room()
    ensures room { (network : Network) (place k : ℕ) (host : NetHost)
        → IsRouted network → slice_get network.hosts place ≡ Some host → first_link network place ≡ Some k
        → length (asked_accesses (asked_by network host)) ≤ ring_budget network (request_ring k) }
{}

/// A ring of requests over which a host's flow to a device goes is made for each packet of each of the host's
/// transactions that are aimed at the device.
pub fn rings_are_made_for_packets()
    ensures planned { (network : Network) (host : NetHost) (i d ring : ℕ) (t : Txn)
        → IsRouted network → IsTransaction t → device_at network t.addr ≡ Some d → is_upward ring ≡ false
        → goes_through (ring_flows network ring) (record { host = host.id; device = d }) ≡ true
        → All (IsPlanned (ring_plan network ring)) (transaction_packets host i t) }
{}
