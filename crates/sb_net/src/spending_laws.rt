//! Laws of how much is done at the rings of a network.

ghost use Rattle.std.specs.Prelude.{◌≡◌, ◌≤◌, ◌<◌, ◌-◌, ◌^◌, ℕ, Bool, true, List, length};
ghost use Rattle.sb_flow.specs.Accepted.{IsAccepted, word_count};
ghost use Rattle.sb_packet.specs.Networks.{Network};
ghost use Rattle.sb_packet.specs.declared.entry.Entry.{Entry};
ghost use Rattle.sb_member.specs.Joints.{MeetAlong};
ghost use Rattle.sb_member.specs.declared.joint.Joint.{Joint as AnyJoint};
ghost use Rattle.sb_member.specs.declared.member.Member.{Member as AnyMember};
ghost use Rattle.sb_net.specs.Running.{AreNetTurns};
ghost use Rattle.sb_net.specs.Recorded.{IsRecorded};
ghost use Rattle.sb_net.specs.RingEnds.{AreLinked};
ghost use Rattle.sb_net.specs.Spent.{network_moves, spent};
ghost use Rattle.sb_net.specs.Standing.{StandsFor};

use sb_link::Fabric;

/// Rounds in which a node moves are few: turns take nothing back of what was done at the rings of a network, turns of which
/// one moved add to it, and meetings leave it as it is; it is bounded by the budgets of the rings, and that bound
/// is below the last number of a round of 32 bits.
pub fn moving_nets_end<F: Fabric>()
    ensures turned { (network : Network) (joints : List AnyJoint) (before after : List (AnyMember F F.Tx F.Rx))
        (round : ℕ) (moved : Bool)
        → StandsFor network joints before → AreNetTurns round before after moved → spent joints before ≤ spent joints after }
    ensures moved { (network : Network) (joints : List AnyJoint) (before after : List (AnyMember F F.Tx F.Rx))
        (round : ℕ) (moved : Bool)
        → StandsFor network joints before → AreNetTurns round before after moved
        → moved ≡ true → spent joints before < spent joints after }
    ensures met { (network : Network) (joints : List AnyJoint) (before after : List (AnyMember F F.Tx F.Rx))
        → StandsFor network joints before → MeetAlong joints before after → spent joints after ≡ spent joints before }
    ensures bounded { (network : Network) (joints : List AnyJoint) (nodes : List (AnyMember F F.Tx F.Rx))
        → StandsFor network joints nodes → AreLinked joints nodes → spent joints nodes ≤ network_moves network }
    ensures small { (network : Network) → IsAccepted network → network_moves network < 2 ^ 32 - 1 }
{}

/// The journal of a run has room for each word of the scripts: at no time has it more entries than they have words, since
/// each entry is of a packet with a word or more, and each word comes to one device at most.
pub fn journals_have_room<F: Fabric>()
    ensures room { (network : Network) (joints : List AnyJoint) (journal : List Entry) (nodes : List (AnyMember F F.Tx F.Rx))
        → IsAccepted network → StandsFor network joints nodes → AreLinked joints nodes → IsRecorded network journal nodes
        → length journal ≤ word_count network }
{}
