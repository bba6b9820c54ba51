//! Laws over the definitions: how the ways of every accepted network run.

ghost use Rattle.std.specs.Prelude.{◌≡◌, ◌≤◌, ◌<◌, ℕ, Some, All, length, slice_get, sum_by, if◌then◌else◌};
ghost use Rattle.sb_packet.specs.Networks.{NetHost, NetLink, Network};
ghost use Rattle.sb_flow.specs.Ways.{IsCourse, NetWay, down_stage, flow_links, is_aimed_at, network_ways, up_stage};
ghost use Rattle.sb_packet.specs.Scripts.{script_accesses, IsTransaction};
ghost use Rattle.sb_packet.specs.Journals.{flow_part};
ghost use Rattle.sb_flow.specs.Rings.{counted_accesses, is_upward, ring_budget};
ghost use Rattle.sb_flow.specs.Accepted.{IsAccepted};
ghost use Rattle.sb_flow.specs.NetworkOf.{network_of};
ghost use Rattle.sb_flow.specs.declared.bundle.Bundle.{Bundle};

/// The network of each bundle is accepted.
pub fn bundles_are_accepted()
    ensures accepted { (bundle : Bundle) → IsAccepted (network_of bundle) }
{}

/// Each way of an accepted network leads to its device, by at most one link more than there are routers. No link is
/// twice on it, and all ways go by one order, that of the routers.
pub fn ways_lead_to_their_devices()
    ensures courses { (network : Network) → IsAccepted network → All (IsCourse network) (network_ways network) }
{}

/// Each link of an accepted network rises in one order of all places, where requests go and where answers go.
pub fn links_rise()
    ensures requests { (network : Network) (k : ℕ) (link : NetLink)
        → IsAccepted network → slice_get network.links k ≡ Some link
        → down_stage network link.from < down_stage network link.to }
    ensures answers { (network : Network) (k : ℕ) (link : NetLink)
        → IsAccepted network → slice_get network.links k ≡ Some link
        → up_stage network link.to < up_stage network link.from }
{}

/// A ring's budget, which is the number of its flows' words, is at most 262,144. A flow has the same words on all rings of
/// its way that go one way, and they are as many as its host's transactions at its device have.
pub fn rings_count_the_words_of_their_flows()
    ensures bounded { (network : Network) (ring : ℕ) → IsAccepted network → ring_budget network ring ≤ 262144 }
    ensures same { (network : Network) (ring other : ℕ) (way : NetWay)
        → is_upward ring ≡ is_upward other → counted_accesses network ring way ≡ counted_accesses network other way }
    ensures transactions { (network : Network) (host : NetHost) (d : ℕ)
        → IsAccepted network → All IsTransaction host.script
        → length (flow_part network host d (script_accesses host))
        ≡ sum_by (λ t. if is_aimed_at network d t then t.count else 0) host.script }
{}

/// Each way of an accepted network is that of its flow, so its links are the ones by which the flow goes.
pub fn flows_have_one_way()
    ensures links { (network : Network) → IsAccepted network
        → All (λ way. flow_links network (record { host = way.host.id; device = way.device }) ≡ way.links)
        (network_ways network) }
{}
