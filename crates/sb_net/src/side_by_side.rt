//! Long rounds of a network's nodes, whose groups turn side by side.

ghost use Rattle.std.specs.Prelude.{◌≡◌, length, All};
ghost use Rattle.sb_packet.specs.Networks.{Network};
ghost use Rattle.sb_member.specs.Groups.{IsDealt, dealt_nodes, grouped_nodes};
ghost use Rattle.sb_member.specs.Members.{IsWholeMember};
ghost use Rattle.sb_net.specs.Running.{HasGone, HasRun, IsReady};

use crate::collecting::collect;
use sb_drive::{Gate, Group, Pace, round};
use sb_link::MeetFabric;
use sb_member::{Joint, Member, meet_rings};
use sb_packet::Journal;
use std::alloc::Global;
use std::thread::Threads;

/// The pace of a run, which was found by measurement.
pub const USUAL_PACE: Pace = Pace {
    alone: 16,
    passes: 1_000_000,
    patience: 100,
    sweeps: 4,
};

// turns the nodes of all groups in a long round, on so many threads at most, and says whether one moved
fn turn_groups<R: Threads + Sync, F: MeetFabric, G: Gate + Sync>(
    rt: &R,
    alloc: Global,
    groups: &mut [Group<Member<F>>],
    workers: u32,
    pace: Pace,
    number: u32,
    gate: &G,
) -> bool
    requires dealt { IsDealt (grouped_nodes groups.old) }
    requires whole { All IsWholeMember (dealt_nodes (grouped_nodes groups.old)) }
    ensures count { length groups.new ≡ length groups.old }
    ensures dealt { IsDealt (grouped_nodes groups.new) }
    ensures whole { All IsWholeMember (dealt_nodes (grouped_nodes groups.new)) }
    ensures gone { HasGone number (dealt_nodes (grouped_nodes groups.old)) (dealt_nodes (grouped_nodes groups.new)) result }
{
    round(rt, alloc, groups, workers as usize, pace, number, gate)
}

/// Long rounds until no node moves. In each the groups turn, by `round`; then, on the caller's thread, the ends of each
/// ring meet, and what the devices served is put behind the journal. The devices have the numbers from `first` on. It needs
/// no memory, and takes what there is for threads.
pub(crate) fn run_side_by_side<R: Threads + Sync, F: MeetFabric, G: Gate + Sync>(
    rt: &R,
    alloc: Global,
    groups: &mut [Group<Member<F>>],
    joints: &[Joint],
    first: usize,
    collected: &mut [usize],
    workers: u32,
    pace: Pace,
    gate: &G,
    journal: &mut Journal,
)
    requires dealt { IsDealt (grouped_nodes groups.old) }
    requires ready { (network : Network) × IsReady network first collected.old joints.now
        (dealt_nodes (grouped_nodes groups.old)) journal.old }
    ensures run { (network : Network) → IsReady network first collected.old joints.now (dealt_nodes (grouped_nodes groups.old)) journal.old
        → HasRun network journal.new.entries joints.now (dealt_nodes (grouped_nodes groups.new)) }
    ensures count { length groups.new ≡ length groups.old }
    ensures dealt { IsDealt (grouped_nodes groups.new) }
{
    for number in 0..u32::MAX {
        if !turn_groups(rt, alloc, groups, workers, pace, number, gate) {
            return;
        }
        meet_rings(groups, joints);
        collect(groups, first, collected, journal);
    }
}
