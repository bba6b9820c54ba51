//! Rounds by a number, which says how often each node is turned.

ghost use Rattle.std.specs.Prelude.{◌≡◌, ◌<◌, true, false, All, vec_len};
ghost use Rattle.sb_drive.specs.Orders.{turn_places};
ghost use Rattle.sb_drive.specs.Rounds.{EachTurns, IsRound, TurnsAlong};
ghost use Rattle.sb_drive.specs.SomeTurns.{HasTakenTurns, HaveTakenTurns};

use crate::draw::turns_drawn;
use crate::group::Group;
use crate::node::Node;
use crate::serial::round_serial;
use crate::turn_place::turn_place;
use sb_link::Turn;

// turns a node so many times, and says whether it moved
fn turn_times<N: Node>(node: &mut N, times: u32, number: u32) -> bool
    requires whole { N.whole node.old }
    ensures whole { N.whole node.new }
    ensures turns { HasTakenTurns N.reaches N.rests N.turns number node.old node.new result }
{
    let mut moved = false;
    for _ in 0..times {
        if let Turn::Moved = node.turn(number) {
            moved = true;
        }
    }
    moved
}

// turns each node as often as is drawn for it, maybe never, in the order of a round, and says whether one of them moved
fn turn_some<N: Node>(group: &mut Group<N>, order: u32, number: u32) -> bool
    requires whole { All N.whole group.old.nodes.items }
    ensures whole { All N.whole group.new.nodes.items }
    ensures turns { HaveTakenTurns N.reaches N.rests N.turns number group.old.nodes.items group.new.nodes.items result }
{
    let mut moved = false;
    let nodes = &mut group.nodes;
    let count = nodes.len();
    for turned in 0..count {
        let place = turn_place(count, order, number, turned);
        let times = turns_drawn(order, number, place);
        moved |= turn_times(&mut nodes[place], times, number);
    }
    moved
}

/// A round by the order of that number, and whether a node moved in it. It takes no memory.
///
/// The order 0 is `round_serial`: each node is turned once. By any other, each node is first turned zero to three times,
/// as often as is drawn from the order, the round's number and the node's place. Where one of these turns moved, that was
/// the round. Where none did, `round_serial` follows: so a round in which nothing moved has turned each node.
pub fn round_in_order<N: Node>(group: &mut Group<N>, order: u32, number: u32) -> bool
    requires some { 0 < vec_len group.old.nodes }
    requires whole { All N.whole group.old.nodes.items }
    ensures whole { All N.whole group.new.nodes.items }
    ensures count { vec_len group.new.nodes ≡ vec_len group.old.nodes }
    ensures turns { HaveTakenTurns N.reaches N.rests N.turns number group.old.nodes.items group.new.nodes.items result }
    ensures none_moved { result ≡ false
        → IsRound N.reaches N.rests N.turns number group.old.nodes.items group.new.nodes.items group.new.last.items false }
    ensures once { order ≡ 0 → EachTurns N.turns number group.old.nodes.items group.new.last.items group.new.nodes.items }
    ensures order { order ≡ 0 → TurnsAlong N.turns number (turn_places (vec_len group.old.nodes) order number)
        group.old.nodes.items group.old.last.items group.new.nodes.items group.new.last.items }
    ensures moved { group.new.moved ≡ result }
{
    if order > 0 && turn_some(group, order, number) {
        group.moved = true;
        return true;
    }
    round_serial(group, order, number)
}
