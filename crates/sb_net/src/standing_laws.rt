//! Laws of networks of nodes that stand.

ghost use Rattle.std.specs.Prelude.{◌≡◌, ℕ, ◌<◌, Bool, false, List, [], ◌++◌, length, All, IsTrue};
ghost use Rattle.sb_flow.specs.Accepted.{IsAccepted};
ghost use Rattle.sb_packet.specs.Journals.{is_in_round_order};
ghost use Rattle.sb_packet.specs.Networks.{Network};
ghost use Rattle.sb_packet.specs.declared.entry.Entry.{Entry};
ghost use Rattle.sb_laws.specs.NetworkLayouts.{network_layout};
ghost use Rattle.sb_laws.specs.Runs.{HasEntries, IsMomentOf};
ghost use Rattle.sb_member.specs.Joints.{HaveAllMet, MeetAlong};
ghost use Rattle.sb_member.specs.Members.{IsWholeMember};
ghost use Rattle.sb_member.specs.declared.joint.Joint.{Joint as AnyJoint};
ghost use Rattle.sb_member.specs.declared.member.Member.{Member as AnyMember};
ghost use Rattle.sb_net.specs.Running.{AreNetTurns};
ghost use Rattle.sb_net.specs.Recorded.{IsRecorded, device_entries, entry_counts, new_entries};
ghost use Rattle.sb_net.specs.RingEnds.{AreLinked, net_moment};
ghost use Rattle.sb_net.specs.Standing.{StandsFor};

use sb_link::Fabric;

/// A network's nodes stand for it still after turns of a round, and after their ends have met. Once the ends of all rings have
/// met, what was received by each ring begins what was sent over it.
pub fn networks_stand_on<F: Fabric>()
    ensures turned { (network : Network) (joints : List AnyJoint) (round : ℕ) (before after : List (AnyMember F F.Tx F.Rx))
        (moved : Bool)
        → StandsFor network joints before → AreNetTurns round before after moved → All IsWholeMember after
        → StandsFor network joints after }
    ensures met { (network : Network) (joints : List AnyJoint) (before after : List (AnyMember F F.Tx F.Rx))
        → StandsFor network joints before → MeetAlong joints before after → StandsFor network joints after }
    ensures linked { (network : Network) (joints : List AnyJoint) (nodes : List (AnyMember F F.Tx F.Rx))
        → StandsFor network joints nodes → HaveAllMet joints (length joints) nodes → AreLinked joints nodes }
{}

/// What the devices of a network served in a round is recorded in a journal by putting behind it, device by device,
/// the entries that are new: all of that round, and none where no node moved. A journal whose rounds were earlier is in
/// the order of rounds still. Meetings of ends change no device's entries.
pub fn rounds_are_recorded<F: Fabric>()
    ensures recorded { (network : Network) (joints : List AnyJoint) (round : ℕ) (before turned after : List (AnyMember F F.Tx F.Rx))
        (moved : Bool) (journal : List Entry)
        → StandsFor network joints before → AreNetTurns round before turned moved → MeetAlong joints turned after
        → IsRecorded network journal before
        → IsRecorded network (journal ++ new_entries network (entry_counts network before) after) after }
    ensures rounds { (network : Network) (joints : List AnyJoint) (round : ℕ) (before turned after : List (AnyMember F F.Tx F.Rx))
        (moved : Bool)
        → StandsFor network joints before → AreNetTurns round before turned moved → MeetAlong joints turned after
        → All (λ e. e.round ≡ round) (new_entries network (entry_counts network before) after) }
    ensures in_order { (network : Network) (joints : List AnyJoint) (round : ℕ) (before turned after : List (AnyMember F F.Tx F.Rx))
        (moved : Bool) (journal : List Entry)
        → StandsFor network joints before → AreNetTurns round before turned moved → MeetAlong joints turned after
        → IsTrue (is_in_round_order journal) → All (λ e. e.round < round) journal
        → IsTrue (is_in_round_order (journal ++ new_entries network (entry_counts network before) after)) }
    ensures none { (network : Network) (joints : List AnyJoint) (round : ℕ) (before turned after : List (AnyMember F F.Tx F.Rx))
        (moved : Bool)
        → StandsFor network joints before → AreNetTurns round before turned moved → MeetAlong joints turned after
        → moved ≡ false → new_entries network (entry_counts network before) after ≡ [] }
    ensures kept { (network : Network) (joints : List AnyJoint) (turned after : List (AnyMember F F.Tx F.Rx)) (d : ℕ)
        → MeetAlong joints turned after → device_entries network after d ≡ device_entries network turned d }
    ensures counts_kept { (network : Network) (joints : List AnyJoint) (turned after : List (AnyMember F F.Tx F.Rx))
        → MeetAlong joints turned after → entry_counts network after ≡ entry_counts network turned }
{}

/// A network's nodes that stand, with linked rings and a journal that has what the devices served, are at a moment of a
/// run: each ring, port, host, router and device keeps its promise. And a journal in the order of rounds has entries of
/// the network's devices alone, none wider than the link that leads there.
pub fn nets_keep_their_promises<F: Fabric>()
    ensures moment { (network : Network) (joints : List AnyJoint) (nodes : List (AnyMember F F.Tx F.Rx)) (journal : List Entry)
        → IsAccepted network → StandsFor network joints nodes → AreLinked joints nodes → IsRecorded network journal nodes
        → IsMomentOf network (network_layout network) journal (net_moment joints nodes) }
    ensures entries { (network : Network) (joints : List AnyJoint) (nodes : List (AnyMember F F.Tx F.Rx)) (journal : List Entry)
        → IsAccepted network → StandsFor network joints nodes → AreLinked joints nodes → IsRecorded network journal nodes
        → IsTrue (is_in_round_order journal) → HasEntries network journal }
{}
