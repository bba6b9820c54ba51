//! Long rounds, in which groups turn side by side.

ghost use Rattle.std.specs.Prelude.{◌≡◌, ◌<◌, true, false, All, IfOk, length, vec_len};
ghost use Rattle.sb_drive.specs.SideBySide.{EachGoesOn, EachGroupRested, EachGroupRound, IsWholeGroup, SomeGroupMoved, any_moved};

use crate::alone::turn_alone;
use crate::gate::Gate;
use crate::group::Group;
use crate::group_visitor::GroupVisitor;
use crate::node::Node;
use crate::pace::Pace;
use sb_places::visit_all;
use std::alloc::{AllocError, Global};
use std::snapshot::Snapshot;
use std::thread::Threads;

/// A long round: turns the nodes of all groups, on so many threads at most, and says whether one of them moved.
///
/// The calling thread begins alone. It passes over the groups, and a group enters the gate, with its place, before its
/// first turn. Then it sweeps: each of its nodes, in order, takes up to eight turns in a row, until it doesn't move. The
/// round is over with the first of these passes in which nothing moves, or with the last where there is one worker.
///
/// Else it goes on on as many threads as there are workers, the calling one among them, and no more than groups. No thread
/// owns a group. Each goes over all groups, and takes those that no other has at that moment: the group enters the gate,
/// sweeps while it moves, some times at most, and is given back. A thread leaves the round when it had all groups in one
/// pass and all nodes answered Done, when another one found that, or when some passes in a row moved nothing. All threads
/// have ended when the round has. Where memory for this is short, the round is over before it.
///
/// So a round may be any number of turns for each node, and they have the round's number.
pub fn round<R: Threads + Sync, N: Node + Send + Drop, G: Gate + Sync>(
    rt: &R,
    alloc: Global,
    groups: &mut [Group<N>],
    workers: usize,
    pace: Pace,
    number: u32,
    gate: &G,
) -> bool
    requires whole { All (IsWholeGroup N.whole) groups.old }
    ensures whole { All (IsWholeGroup N.whole) groups.new }
    ensures rounds { EachGroupRound N.reaches N.rests N.turns number groups.old groups.new }
    ensures answer { result ≡ any_moved groups.new }
    ensures some_moved { result ≡ true → SomeGroupMoved N.reaches N.turns number groups.old groups.new }
    ensures none_moved { result ≡ false → EachGroupRested N.rests N.turns number groups.old groups.new }
{
    turn_groups(rt, alloc, groups, workers, pace, number, gate);
    any_moved(groups)
}

// turns the groups on the calling thread, and then on several
fn turn_groups<R: Threads + Sync, N: Node + Send + Drop, G: Gate + Sync>(
    rt: &R,
    alloc: Global,
    groups: &mut [Group<N>],
    workers: usize,
    pace: Pace,
    number: u32,
    gate: &G,
)
    requires whole { All (IsWholeGroup N.whole) groups.old }
    ensures whole { All (IsWholeGroup N.whole) groups.new }
    ensures rounds { EachGroupRound N.reaches N.rests N.turns number groups.old groups.new }
{
    let threads = workers.min(groups.len());
    let alone = if threads < 2 { pace.passes } else { pace.alone };
    let moves = turn_alone(groups, alone, pace.sweeps, number, gate);
    if moves && threads >= 2 {
        go_on_threads(rt, alloc, groups, threads, pace, number, gate);
    }
}

// so many groups without nodes
fn no_groups<N: Drop>(alloc: Global, count: usize) -> Result<Vec<Group<N>>, AllocError>
    ensures count { IfOk result (λ groups. vec_len groups ≡ count) }
{
    let mut groups = Vec::new(alloc);
    for _ in 0..count {
        groups.push(Group {
            nodes: Vec::new(alloc),
            last: Vec::new(alloc),
            moved: false,
        })?;
    }
    Ok(groups)
}

// goes on with the round of all groups, on so many threads; they are at places that nobody owns meanwhile
fn go_on_threads<R: Threads + Sync, N: Node + Send + Drop, G: Gate + Sync>(
    rt: &R,
    alloc: Global,
    groups: &mut [Group<N>],
    threads: usize,
    pace: Pace,
    number: u32,
    gate: &G,
)
    requires some { 0 < length groups.old }
    requires whole { All (IsWholeGroup N.whole) groups.old }
    ensures whole { All (IsWholeGroup N.whole) groups.new }
    ensures goes_on { EachGoesOn N.reaches N.rests N.turns number groups.old groups.new }
{
    let Ok(mut shared) = no_groups(alloc, groups.len()) else {
        return;
    };
    groups.swap_with_slice(&mut shared);
    let visitor = GroupVisitor {
        before: Snapshot::of(&shared),
        number,
        sweeps: pace.sweeps,
        gate,
    };
    let patience = sb_places::Pace {
        passes: pace.passes,
        patience: pace.patience,
    };
    let mut back = visit_all(rt, alloc, shared, &visitor, threads, patience);
    groups.swap_with_slice(&mut back);
}

// whether a node of a group moved in its last round
fn any_moved<N>(groups: &[Group<N>]) -> bool
    ensures { result ≡ any_moved groups.now }
{
    groups.iter().any(|group| group.moved)
}
