//! Nodes are dealt to groups.

ghost use Rattle.std.specs.Prelude.{◌≡◌, ◌<◌, ◌++◌, [], ◌∷◌, length, replicate, IfOk};
ghost use Rattle.sb_member.specs.Groups.{IsDealt, dealt_nodes, grouped_nodes};

use sb_drive::Group;
use sb_link::{Fabric, Turn};
use sb_member::Member;
use std::alloc::{AllocError, Global};

// so many groups without nodes
fn empty_groups<F: Fabric>(alloc: Global, count: usize) -> Result<Vec<Group<Member<F>>>, AllocError>
    ensures groups { IfOk result (λ groups. grouped_nodes groups.items ≡ replicate count []) }
{
    let mut groups = Vec::new(alloc);
    for _ in 0..count {
        groups.push(Group {
            nodes: Vec::new(alloc),
            last: Vec::new(alloc),
            moved: false,
        })?;
    }
    Ok(groups)
}

// puts a node behind the others of a group
fn add_node<F: Fabric>(group: &mut Group<Member<F>>, node: Member<F>) -> Result<(), AllocError>
    ensures added { IfOk result (λ _. group.new.nodes.items ≡ group.old.nodes.items ++ node ∷ []) }
{
    group.last.reserve(1)?;
    group.nodes.push(node)?;
    group.last.push_reserved(Turn::Done);
    Ok(())
}

/// Deals nodes to so many groups: node n to group n mod the number of groups, behind those that are there.
///
/// # Errors
///
/// `AllocError` where there isn't enough memory; then the nodes are dropped.
pub(crate) fn deal<F: Fabric>(
    alloc: Global,
    nodes: Vec<Member<F>>,
    count: usize,
) -> Result<Vec<Group<Member<F>>>, AllocError>
    requires some { 0 < count }
    ensures count { IfOk result (λ groups. length groups.items ≡ count) }
    ensures dealt { IfOk result (λ groups. IsDealt (grouped_nodes groups.items)) }
    ensures nodes { IfOk result (λ groups. dealt_nodes (grouped_nodes groups.items) ≡ nodes.items) }
{
    let mut groups = empty_groups(alloc, count)?;
    let mut nodes = nodes.into_iter();
    let all = nodes.len();
    for number in 0..all {
        let Some(node) = nodes.next() else {
            unreachable!()
        };
        let group = &mut groups[number % count];
        add_node(group, node)?;
    }
    Ok(groups)
}
