//! Rounds of a network's nodes, one after another, on one thread.

ghost use Rattle.std.specs.Prelude.{◌≡◌, ◌<◌, length, All};
ghost use Rattle.sb_packet.specs.Networks.{Network};
ghost use Rattle.sb_member.specs.Groups.{IsDealt, dealt_nodes, grouped_nodes};
ghost use Rattle.sb_member.specs.Members.{IsWholeMember};
ghost use Rattle.sb_net.specs.Running.{HasGone, HasRun, IsReady};

use crate::collecting::collect;
use sb_drive::{Group, round_in_order};
use sb_link::MeetFabric;
use sb_member::{Joint, Member, meet_rings};
use sb_packet::Journal;

// a round of the one group's nodes, and whether one moved
fn turn_all<F: MeetFabric>(groups: &mut [Group<Member<F>>], order: u32, number: u32) -> bool
    requires one { length groups.old ≡ 1 }
    requires some { 0 < length (dealt_nodes (grouped_nodes groups.old)) }
    requires whole { All IsWholeMember (dealt_nodes (grouped_nodes groups.old)) }
    ensures one { length groups.new ≡ 1 }
    ensures dealt { IsDealt (grouped_nodes groups.new) }
    ensures whole { All IsWholeMember (dealt_nodes (grouped_nodes groups.new)) }
    ensures gone { HasGone number (dealt_nodes (grouped_nodes groups.old)) (dealt_nodes (grouped_nodes groups.new)) result }
{
    let group = &mut groups[0];
    round_in_order(group, order, number)
}

/// Rounds until no node moves. In each round nodes take turns by `round_in_order`; then the ends of each ring meet, and
/// what the devices served is put behind the journal. The devices have the numbers from `first` on. It takes
/// no memory.
pub(crate) fn run_serial<F: MeetFabric>(
    groups: &mut [Group<Member<F>>],
    joints: &[Joint],
    first: usize,
    collected: &mut [usize],
    order: u32,
    journal: &mut Journal,
)
    requires one { length groups.old ≡ 1 }
    requires ready { (network : Network)
        × IsReady network first collected.old joints.now (dealt_nodes (grouped_nodes groups.old)) journal.old }
    ensures run { (network : Network) → IsReady network first collected.old joints.now (dealt_nodes (grouped_nodes groups.old)) journal.old
        → HasRun network journal.new.entries joints.now (dealt_nodes (grouped_nodes groups.new)) }
    ensures one { length groups.new ≡ 1 }
    ensures dealt { IsDealt (grouped_nodes groups.new) }
{
    for number in 0..u32::MAX {
        if !turn_all(groups, order, number) {
            return;
        }
        meet_rings(groups, joints);
        collect(groups, first, collected, journal);
    }
}
