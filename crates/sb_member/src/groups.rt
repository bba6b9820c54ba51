//! Rings between nodes that are dealt to groups.

ghost use Rattle.std.specs.Prelude.{◌≡◌, ◌<◌, length};
ghost use Rattle.sb_member.specs.Groups.{HasMetAcross, HasMetInside, HaveMetBetween, IsDealt, IsRingAcross, dealt_nodes, grouped_nodes, nodes_in};
ghost use Rattle.sb_member.specs.Joints.{HasRingMet, HaveAllMet, IsJoined, IsRingPlaced, MeetAlong};

use crate::joint::{Joint, meet_ends, meet_within};
use crate::member::Member;
use crate::pair::two;
use sb_drive::Group;
use sb_link::MeetFabric;

// the ends of a ring meet that leads from one node of a group to another
fn meet_inside<F: MeetFabric>(groups: &mut [Group<Member<F>>], group: usize, places: &Joint)
    requires group { group < length groups.old }
    requires placed { IsRingPlaced (nodes_in (grouped_nodes groups.old) group) places.now }
    ensures met { HasMetInside group places.now (grouped_nodes groups.old) (grouped_nodes groups.new) }
{
    let group = &mut groups[group];
    meet_within(&mut group.nodes, places);
}

// the ends of a ring meet between the nodes of two groups
fn meet_between<F: MeetFabric>(from: &mut [Member<F>], to: &mut [Member<F>], places: &Joint)
    requires ends { IsRingAcross from.old to.old places.now }
    ensures met { HaveMetBetween places.now from.old from.new to.old to.new }
{
    let sender = &mut from[places.from];
    let receiver = &mut to[places.to];
    meet_ends(sender, places.out, receiver, places.into);
}

// the same of the groups
fn meet_groups<F: MeetFabric>(
    from: &mut Group<Member<F>>,
    to: &mut Group<Member<F>>,
    places: &Joint,
)
    requires ends { IsRingAcross from.old.nodes.items to.old.nodes.items places.now }
    ensures met { HaveMetBetween places.now from.old.nodes.items from.new.nodes.items to.old.nodes.items to.new.nodes.items }
{
    let senders = &mut from.nodes;
    let receivers = &mut to.nodes;
    meet_between(senders, receivers, places);
}

// the ends of a ring meet that leads to a later group
fn meet_onward<F: MeetFabric>(
    groups: &mut [Group<Member<F>>],
    from: usize,
    to: usize,
    places: &Joint,
)
    requires order { from < to }
    requires within { to < length groups.old }
    requires ends { IsRingAcross (nodes_in (grouped_nodes groups.old) from) (nodes_in (grouped_nodes groups.old) to) places.now }
    ensures met { HasMetAcross from to places.now (grouped_nodes groups.old) (grouped_nodes groups.new) }
{
    let (sender, receiver) = two(groups, from, to);
    meet_groups(sender, receiver, places);
}

// the ends of a ring meet that leads to an earlier group
fn meet_backward<F: MeetFabric>(
    groups: &mut [Group<Member<F>>],
    from: usize,
    to: usize,
    places: &Joint,
)
    requires order { to < from }
    requires within { from < length groups.old }
    requires ends { IsRingAcross (nodes_in (grouped_nodes groups.old) from) (nodes_in (grouped_nodes groups.old) to) places.now }
    ensures met { HasMetAcross from to places.now (grouped_nodes groups.old) (grouped_nodes groups.new) }
{
    let (receiver, sender) = two(groups, to, from);
    meet_groups(sender, receiver, places);
}

/// The two ends of a ring meet in their nodes, by `MeetFabric::meet`. The nodes are dealt to groups: of w groups, node
/// n stands in group n mod w, at place n / w. Takes no memory.
pub fn meet_ring<F: MeetFabric>(groups: &mut [Group<Member<F>>], joint: &Joint)
    requires dealt { IsDealt (grouped_nodes groups.old) }
    requires placed { IsRingPlaced (dealt_nodes (grouped_nodes groups.old)) joint.now }
    ensures dealt { IsDealt (grouped_nodes groups.new) }
    ensures count { length groups.new ≡ length groups.old }
    ensures met { HasRingMet joint.now (dealt_nodes (grouped_nodes groups.old)) (dealt_nodes (grouped_nodes groups.new)) }
{
    let count = groups.len();
    let from = joint.from % count;
    let to = joint.to % count;
    let places = Joint {
        from: joint.from / count,
        out: joint.out,
        to: joint.to / count,
        into: joint.into,
    };
    if from == to {
        meet_inside(groups, from, &places);
    } else if from < to {
        meet_onward(groups, from, to, &places);
    } else {
        meet_backward(groups, from, to, &places);
    }
}

/// The ends of each ring meet, in the order of the rings' numbers. Takes no memory.
pub fn meet_rings<F: MeetFabric>(groups: &mut [Group<Member<F>>], joints: &[Joint])
    requires dealt { IsDealt (grouped_nodes groups.old) }
    requires joined { IsJoined joints.now (dealt_nodes (grouped_nodes groups.old)) }
    ensures dealt { IsDealt (grouped_nodes groups.new) }
    ensures count { length groups.new ≡ length groups.old }
    ensures met { MeetAlong joints.now (dealt_nodes (grouped_nodes groups.old)) (dealt_nodes (grouped_nodes groups.new)) }
    ensures joined { IsJoined joints.now (dealt_nodes (grouped_nodes groups.new)) }
    ensures all_met { HaveAllMet joints.now (length joints.now) (dealt_nodes (grouped_nodes groups.new)) }
{
    for ring in 0..joints.len() {
        meet_ring(groups, &joints[ring]);
    }
}
