//! Laws of a round in which no node moved.

ghost use Rattle.std.specs.Prelude.{◌≡◌, ℕ, false, List, length};
ghost use Rattle.sb_flow.specs.Accepted.{IsAccepted};
ghost use Rattle.sb_link.specs.declared.answers.Turn.{Turn};
ghost use Rattle.sb_packet.specs.Networks.{Network};
ghost use Rattle.sb_packet.specs.declared.entry.Entry.{Entry};
ghost use Rattle.sb_laws.specs.Standstills.{IsStandstill, IsWholeStandstill};
ghost use Rattle.sb_laws.specs.NetworkLayouts.{network_layout, network_stages};
ghost use Rattle.sb_laws.specs.Runs.{IsMomentOf};
ghost use Rattle.sb_member.specs.Joints.{HaveAllMet};
ghost use Rattle.sb_member.specs.declared.joint.Joint.{Joint as AnyJoint};
ghost use Rattle.sb_member.specs.declared.member.Member.{Member as AnyMember};
ghost use Rattle.sb_net.specs.Running.{IsNetRound};
ghost use Rattle.sb_net.specs.RingEnds.{AreLinked, net_moment, net_round_end};
ghost use Rattle.sb_net.specs.Standing.{StandsFor};

use sb_link::Fabric;

/// After a round in which no node moved, and before which the ends of each ring had met, a network stands still: the ends
/// of each ring know all of each other as before, what was received begins what was sent, and each node is idle at each
/// of its rings. Where rings and nodes keep the promises of a run it is a standstill of the whole network, in which no
/// host waits.
pub fn unmoved_nets_stand_still<F: Fabric>()
    ensures met { (network : Network) (joints : List AnyJoint) (before after : List (AnyMember F F.Tx F.Rx))
        (round : ℕ) (last : List Turn)
        → StandsFor network joints after → HaveAllMet joints (length joints) before → IsNetRound round before after last false
        → HaveAllMet joints (length joints) after }
    ensures linked { (network : Network) (joints : List AnyJoint) (before after : List (AnyMember F F.Tx F.Rx))
        (round : ℕ) (last : List Turn)
        → StandsFor network joints after → HaveAllMet joints (length joints) before → IsNetRound round before after last false
        → AreLinked joints after }
    ensures still { (network : Network) (joints : List AnyJoint) (before after : List (AnyMember F F.Tx F.Rx))
        (round : ℕ) (last : List Turn)
        → IsAccepted network → StandsFor network joints after
        → HaveAllMet joints (length joints) before → IsNetRound round before after last false
        → IsStandstill (network_stages network) (net_round_end joints after) }
    ensures whole { (network : Network) (joints : List AnyJoint) (before after : List (AnyMember F F.Tx F.Rx))
        (round : ℕ) (last : List Turn) (journal : List Entry)
        → IsAccepted network → StandsFor network joints after
        → HaveAllMet joints (length joints) before → IsNetRound round before after last false
        → IsMomentOf network (network_layout network) journal (net_moment joints after)
        → IsWholeStandstill network (network_layout network) journal (network_stages network) (net_round_end joints after) }
{}
