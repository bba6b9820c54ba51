//! Sweeps: each node of a group takes some turns in a row, in order, and again.

ghost use Rattle.std.specs.Prelude.{◌≡◌, ◌||◌, true, All};
ghost use Rattle.sb_drive.specs.Rounds.{HasTurnedInARow, IsRound};
ghost use Rattle.sb_drive.specs.SideBySide.{GoesOn, IsGroupRound};

use crate::group::Group;
use crate::node::Node;
use sb_link::Turn;

// so many turns a node takes in a row while it moves: most of a turn's cost is to look at each of its rings, and a node
// that moved often finds the next item there
const TURNS_IN_A_ROW: u32 = 8;

// what a node's turns in a row came to
#[derive(Clone, Copy)]
struct TurnsInARow {
    // a turn moved
    moved: bool,
    // the answer of the last one
    last: Turn,
}

// turns a node until it doesn't move, or has taken so many turns in a row
fn turn_in_a_row<N: Node>(node: &mut N, number: u32) -> TurnsInARow
    requires whole { N.whole node.old }
    ensures whole { N.whole node.new }
    ensures row { HasTurnedInARow N.reaches N.rests N.turns number node.old result.last node.new result.moved }
{
    let mut last = node.turn(number);
    let moved = matches!(last, Turn::Moved);
    for _ in 1..TURNS_IN_A_ROW {
        if !matches!(last, Turn::Moved) {
            break;
        }
        last = node.turn(number);
    }
    TurnsInARow { moved, last }
}

/// Turns each node some times in a row, in order, and says whether one of them moved. Their last answers stand in `last`
/// then.
pub(crate) fn sweep<N: Node>(group: &mut Group<N>, number: u32) -> bool
    requires whole { All N.whole group.old.nodes.items }
    ensures whole { All N.whole group.new.nodes.items }
    ensures round { IsRound N.reaches N.rests N.turns number group.old.nodes.items group.new.nodes.items group.new.last.items result }
{
    let mut moved = false;
    let nodes = &mut group.nodes;
    let last = &mut group.last;
    for place in 0..nodes.len() {
        let row = turn_in_a_row(&mut nodes[place], number);
        moved |= row.moved;
        last[place] = row.last;
    }
    moved
}

/// The first sweep of a round over a group; says whether a node moved.
pub(crate) fn begin<N: Node>(group: &mut Group<N>, number: u32) -> bool
    requires whole { All N.whole group.old.nodes.items }
    ensures whole { All N.whole group.new.nodes.items }
    ensures round { IsGroupRound N.reaches N.rests N.turns number group.old group.new }
    ensures answer { result ≡ group.new.moved }
{
    let moved = sweep(group, number);
    group.moved = moved;
    moved
}

// one more sweep of a round over a group; says whether a node moved in it
fn sweep_on<N: Node>(group: &mut Group<N>, number: u32) -> bool
    requires whole { All N.whole group.old.nodes.items }
    ensures whole { All N.whole group.new.nodes.items }
    ensures round { GoesOn N.reaches N.rests N.turns number group.old group.new }
    ensures moved { group.new.moved ≡ (group.old.moved || result) }
{
    let moved = group.moved;
    let swept = sweep(group, number);
    group.moved = moved | swept;
    swept
}

/// Goes on with a round of a group: sweeps until one moves nothing, or so many were made. Says whether a node moved in
/// them.
pub(crate) fn go_on<N: Node>(group: &mut Group<N>, sweeps: u32, number: u32) -> bool
    requires whole { All N.whole group.old.nodes.items }
    ensures whole { All N.whole group.new.nodes.items }
    ensures round { GoesOn N.reaches N.rests N.turns number group.old group.new }
    ensures moved { result ≡ true → group.new.moved ≡ true }
{
    let mut moved = false;
    for _ in 0..sweeps {
        if !sweep_on(group, number) {
            break;
        }
        moved = true;
    }
    moved
}

/// Whether each answer is Done.
pub(crate) fn all_done(answers: &[Turn]) -> bool {
    answers.iter().all(|answer| matches!(answer, Turn::Done))
}
