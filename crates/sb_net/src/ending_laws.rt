//! Laws of the end of a run.

ghost use Rattle.std.specs.Prelude.{List};
ghost use Rattle.sb_packet.specs.Networks.{Network};
ghost use Rattle.sb_packet.specs.declared.entry.Entry.{Entry};
ghost use Rattle.sb_flow.specs.Accepted.{IsAccepted};
ghost use Rattle.sb_laws.specs.Standstills.{IsWholeStandstill};
ghost use Rattle.sb_laws.specs.NetworkLayouts.{network_layout, network_stages};
ghost use Rattle.sb_laws.specs.Runs.{HasEntries};
ghost use Rattle.sb_member.specs.Joints.{MeetAlong};
ghost use Rattle.sb_member.specs.declared.joint.Joint.{Joint as AnyJoint};
ghost use Rattle.sb_member.specs.declared.member.Member.{Member as AnyMember};
ghost use Rattle.sb_net.specs.Over.{IsOver};
ghost use Rattle.sb_net.specs.Recorded.{IsRecorded};
ghost use Rattle.sb_net.specs.RingEnds.{net_round_end};
ghost use Rattle.sb_net.specs.Standing.{StandsFor};

use sb_link::Fabric;

/// A standstill of a network's nodes is the end of a lawful run: the journal that was collected from its devices is one
/// legal history of its scripts, each node is done, each ring carried what it is to carry, and each host tells and each
/// device holds what the journal says.
pub fn ended_nets_are_over<F: Fabric>()
    ensures over { (network : Network) (joints : List AnyJoint) (journal : List Entry) (nodes : List (AnyMember F F.Tx F.Rx))
        → IsAccepted network → StandsFor network joints nodes → IsRecorded network journal nodes → HasEntries network journal
        → IsWholeStandstill network (network_layout network) journal (network_stages network) (net_round_end joints nodes)
        → IsOver network journal joints nodes }
{}

/// A run that is over stays so where the ends of its rings meet once more.
pub fn over_nets_stay_over<F: Fabric>()
    ensures met { (network : Network) (joints : List AnyJoint) (journal : List Entry) (before after : List (AnyMember F F.Tx F.Rx))
        → IsOver network journal joints before → StandsFor network joints before → MeetAlong joints before after
        → IsOver network journal joints after }
{}
