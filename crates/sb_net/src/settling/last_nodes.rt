//! The last node of those that were dealt to groups.

ghost use Rattle.std.specs.Prelude.{◌≡◌, ◌+◌, [], ◌∷◌, ◌++◌, IsSome, IfSome};
ghost use Rattle.sb_member.specs.Groups.{IsDealt, dealt_nodes, grouped_nodes, node_total};
ghost use Rattle.sb_net.specs.Apart.{AreTakenApart, IsRoomFor};

use crate::settling::apart::{Apart, take_node};
use sb_drive::Group;
use sb_link::Fabric;
use sb_member::Member;

/// Takes the node of the last number out of its group. Takes no memory.
pub(crate) fn pop_last<F: Fabric>(
    groups: &mut [Group<Member<F>>],
    number: usize,
) -> Option<Member<F>>
    requires dealt { IsDealt (grouped_nodes groups.old) }
    requires last { number + 1 ≡ node_total (grouped_nodes groups.old) }
    ensures some { IsSome result }
    ensures dealt { IsDealt (grouped_nodes groups.new) }
    ensures total { node_total (grouped_nodes groups.new) ≡ number }
    ensures taken { IfSome result (λ node. dealt_nodes (grouped_nodes groups.old) ≡ dealt_nodes (grouped_nodes groups.new) ++ node ∷ []) }
{
    let count = groups.len();
    let group = &mut groups[number % count];
    group.pop()
}

/// Takes all nodes apart, from the last one down to the first. Takes no memory.
pub(crate) fn take_apart<F: Fabric>(
    groups: &mut [Group<Member<F>>],
    count: usize,
    apart: Apart<F>,
) -> Apart<F>
    requires dealt { IsDealt (grouped_nodes groups.old) }
    requires count { count ≡ node_total (grouped_nodes groups.old) }
    requires room { IsRoomFor (dealt_nodes (grouped_nodes groups.old)) apart }
    ensures taken { AreTakenApart F.Rx.RxEnd (dealt_nodes (grouped_nodes groups.old)) apart result }
{
    let mut apart = apart;
    for taken in 0..count {
        let Some(node) = pop_last(groups, count - 1 - taken) else {
            return apart;
        };
        take_node(node, &mut apart);
    }
    apart.hosts.reverse();
    apart.devices.reverse();
    apart
}
