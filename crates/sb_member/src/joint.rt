//! Where a ring stands.

ghost use Rattle.std.specs.Prelude.{◌≡◌, ◌<◌, length};
ghost use Rattle.sb_member.specs.Ends.{HaveMetAt, port_at, ports_of, ring_at, rings_of};
ghost use Rattle.sb_member.specs.Joints.{HasRingMet, IsRingPlaced};

use crate::member::Member;
use crate::pair::two;
use sb_link::MeetFabric;

/// Where a ring stands: the node that sends over it and the place of its port there, and the node that receives by it
/// and the place of its end there.
#[derive(Clone, Copy, Debug, PartialEq, Eq)]
pub struct Joint {
    pub from: usize,
    pub out: usize,
    pub to: usize,
    pub into: usize,
}

// the ends of a ring meet: the port at a place of one node, and the end at a place of another
pub(crate) fn meet_ends<F: MeetFabric>(
    from: &mut Member<F>,
    out: usize,
    to: &mut Member<F>,
    into: usize,
)
    requires out { out < length (ports_of from.old) }
    requires within { into < length (rings_of to.old) }
    requires marks { (port_at from.old out).mark ≡ (ring_at to.old into).mark }
    ensures met { HaveMetAt out into from.old from.new to.old to.new }
{
    F::meet(from.port(out).end(), to.end(into));
}

// the two ends of a ring meet in their nodes
pub(crate) fn meet_within<F: MeetFabric>(nodes: &mut [Member<F>], joint: &Joint)
    requires placed { IsRingPlaced nodes.old joint.now }
    ensures met { HasRingMet joint.now nodes.old nodes.new }
{
    if joint.from < joint.to {
        let (from, to) = two(nodes, joint.from, joint.to);
        meet_ends(from, joint.out, to, joint.into);
    } else {
        let (to, from) = two(nodes, joint.to, joint.from);
        meet_ends(from, joint.out, to, joint.into);
    }
}
