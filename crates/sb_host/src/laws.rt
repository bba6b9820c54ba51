//! Laws of hosts.

ghost use Rattle.std.specs.Prelude.{◌≡◌, ◌≤◌, ◌∷◌, ◌*◌, ℕ, List, true, None, Some, All, filter, is_some, length, slice_get};
ghost use Rattle.sb_flow.specs.Rings.{ring_plan};
ghost use Rattle.sb_flow.specs.Ways.{first_link};
ghost use Rattle.sb_port.specs.Waiting.{IsWidth};
ghost use Rattle.sb_flow.specs.Accepted.{IsAccepted, misplaced_device};
ghost use Rattle.sb_host.specs.Progress.{IsMadeFor, left_of};
ghost use Rattle.sb_packet.specs.Networks.{NetHost, Network, device_at};
ghost use Rattle.sb_link.specs.Prefixes.{IsPrefix};
ghost use Rattle.sb_packet.specs.Scripts.{IsTransaction, script_accesses};
ghost use Rattle.sb_packet.specs.Messages.{Message};
ghost use Rattle.sb_link.specs.Traffic.{MayPass, has_close};
ghost use Rattle.sb_port.specs.Ports.{PortSide, let_go, offered_words};
ghost use Rattle.sb_node.specs.Kept.{IsPortMet, IsRingMet};
ghost use Rattle.sb_node.specs.Sides.{RingSide, received_words};
ghost use Rattle.sb_host.specs.Asked.{asked_accesses, asked_by};
ghost use Rattle.sb_host.specs.Hosts.{HostSide, IsWholeHost, host_wait};
ghost use Rattle.sb_host.specs.Rested.{IsRestedHost};
ghost use Rattle.sb_host.specs.Windows.{IsAnswerMissed, under_way, window_slots};

/// What a host has offered begins its words that go to devices, and once it has told its port to close, or the Close was
/// sent, it is all of them. Its next packet passes, so none is dropped.
pub fn hosts_offer_their_scripts()
    ensures in_order { (h : HostSide) → IsWholeHost h → IsPrefix (offered_words h.requests) (asked_accesses h.transactions.asked) }
    ensures told { (h : HostSide) → IsWholeHost h → h.requests.state.close_requested ≡ true
        → offered_words h.requests ≡ asked_accesses h.transactions.asked }
    ensures closed { (h : HostSide) → IsWholeHost h → has_close h.requests.state.sent ≡ true
        → offered_words h.requests ≡ asked_accesses h.transactions.asked }
    ensures passes { (h : HostSide) (m : Message) (rest : List Message) → IsWholeHost h → left_of h.transactions ≡ m ∷ rest
        → MayPass h.requests.plan (length (offered_words h.requests)) m }
{}

/// The words of a host that go to devices are those of its script whose address a device has: each transaction lies in
/// one page, and so at one device or at none.
pub fn hosts_ask_what_their_scripts_aim_at()
    ensures words { (network : Network) (host : NetHost) → misplaced_device network ≡ None → All IsTransaction host.script
        → asked_accesses (asked_by network host) ≡ filter (λ a. is_some (device_at network a.dst)) (script_accesses host) }
{}

/// A host whose ring or port has met the other end is whole still.
pub fn host_stays_whole()
    ensures ring { (h : HostSide) (ring : RingSide) → IsWholeHost h → IsRingMet h.answers ring
        → IsWholeHost (record h { answers = ring }) }
    ensures port { (h : HostSide) (port : PortSide) → IsWholeHost h → IsPortMet h.requests port
        → IsWholeHost (record h { requests = port }) }
{}

/// Where a host didn't move, what it sent, received, offered and let go stays, and so do the packets that are left and the
/// answers that it keeps.
pub fn unmoved_hosts_are_still()
    ensures sent { (before after : HostSide) → IsRestedHost before after → after.requests.state.sent ≡ before.requests.state.sent }
    ensures received { (before after : HostSide) → IsRestedHost before after → after.answers.received ≡ before.answers.received }
    ensures offered { (before after : HostSide) → IsRestedHost before after → offered_words after.requests ≡ offered_words before.requests }
    ensures let_go { (before after : HostSide) → IsRestedHost before after → let_go after.requests.state ≡ let_go before.requests.state }
    ensures left { (before after : HostSide) → IsRestedHost before after → left_of after.transactions ≡ left_of before.transactions }
    ensures kept { (before after : HostSide) → IsRestedHost before after → after.transactions.rows ≡ before.transactions.rows }
{}

/// Of the transactions of a host that are answered from the network, at most 64 are under way.
pub fn hosts_keep_their_windows()
    ensures few { (h : HostSide) → IsWholeHost h → length (under_way h.transactions) ≤ window_slots }
{}

/// A host that waits for a slot has offered a word that is answered, and nothing that answers it has come.
pub fn waiting_hosts_miss_answers()
    ensures missed { (h : HostSide) → IsWholeHost h → is_some (host_wait h) ≡ true
        → IsAnswerMissed h.transactions.asked.id (offered_words h.requests) (received_words h.answers) }
{}

/// In an accepted network the ring of requests of a host's own link is made for the host: for each of its packets, and for
/// all its words.
pub fn own_rings_are_made_for_hosts()
    ensures made { (network : Network) (h k : ℕ) (host : NetHost)
        → IsAccepted network → slice_get network.hosts h ≡ Some host → first_link network h ≡ Some k
        → IsMadeFor (ring_plan network (2 * k)) (asked_by network host) }
    ensures wide { (network : Network) (h k : ℕ)
        → IsAccepted network → first_link network h ≡ Some k → IsWidth (ring_plan network (2 * k)).width }
{}
