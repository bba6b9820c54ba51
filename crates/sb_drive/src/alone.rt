//! The part of a round that is on the calling thread alone.

ghost use Rattle.std.specs.Prelude.{◌≡◌, All, length};
ghost use Rattle.sb_drive.specs.SideBySide.{EachGoesOn, EachGroupRound, IsWholeGroup};

use crate::gate::Gate;
use crate::group::Group;
use crate::node::Node;
use crate::sweep::{begin, go_on};

// the first sweep of a round over each group, which enters the gate before it; says whether one moved
fn begin_each<N: Node, G: Gate>(groups: &mut [Group<N>], number: u32, gate: &G) -> bool
    requires whole { All (IsWholeGroup N.whole) groups.old }
    ensures whole { All (IsWholeGroup N.whole) groups.new }
    ensures rounds { EachGroupRound N.reaches N.rests N.turns number groups.old groups.new }
{
    let mut moved = false;
    for place in 0..groups.len() {
        gate.enter(u32::try_from(place).unwrap_or(u32::MAX));
        moved |= begin(&mut groups[place], number);
    }
    moved
}

// goes on with the round of each group, by so many sweeps at most; says whether one moved
fn go_on_each<N: Node>(groups: &mut [Group<N>], sweeps: u32, number: u32) -> bool
    requires whole { All (IsWholeGroup N.whole) groups.old }
    ensures whole { All (IsWholeGroup N.whole) groups.new }
    ensures goes_on { EachGoesOn N.reaches N.rests N.turns number groups.old groups.new }
{
    let mut moved = false;
    for place in 0..groups.len() {
        moved |= go_on(&mut groups[place], sweeps, number);
    }
    moved
}

/// Passes over all groups, one after another, until in one nothing moved, or so many were made; one is made in any case.
/// Says whether something moved in the last one.
pub(crate) fn turn_alone<N: Node, G: Gate>(
    groups: &mut [Group<N>],
    passes: u32,
    sweeps: u32,
    number: u32,
    gate: &G,
) -> bool
    requires whole { All (IsWholeGroup N.whole) groups.old }
    ensures whole { All (IsWholeGroup N.whole) groups.new }
    ensures rounds { EachGroupRound N.reaches N.rests N.turns number groups.old groups.new }
{
    let mut moves = begin_each(groups, number, gate);
    for _ in 1..passes {
        if !moves {
            break;
        }
        moves = go_on_each(groups, sweeps, number);
    }
    moves
}
