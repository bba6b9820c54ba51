//! Threads that visit the values.

ghost use Rattle.std.specs.Prelude.{◌≡◌, ◌<◌, ◌+◌, ◌-◌, ◌≤◌};
ghost use Rattle.std.specs.Thread.{IsSend, IsSync};
ghost use Rattle.sb_places.specs.Rule.{IsIdle};

use crate::passes::passes;
use crate::plays::{OneMore, Together};
use crate::rule::{PlaceSeat, Places};
use crate::visitor::Visitor;
use crate::work::Work;
use std::thread::{Threads, join};

// a seat for one more thread
fn another<V: Visitor>(
    places: &Places<V::Value, V>,
    seat: &mut PlaceSeat<V::Value, V>,
) -> PlaceSeat<V::Value, V>
    requires places { (seat.old.table_id ≡ places.now.table_id) × (0 < places.now.table_id.words) }
    requires idle { IsIdle places.now.key seat.old.me.0.parts seat.old.me × (1 < seat.old.me.0.parts) }
    ensures places { (seat.new.table_id ≡ seat.old.table_id) × (result.table_id ≡ seat.old.table_id) }
    ensures idle { IsIdle places.now.key (seat.old.me.0.parts - 1) seat.new.me }
    ensures other { IsIdle places.now.key 1 result.me }
{
    places.split_seat::<OneMore>(seat)
}

// takes in the seat of a thread that has ended
fn absorb<V: Visitor>(
    places: &Places<V::Value, V>,
    seat: &mut PlaceSeat<V::Value, V>,
    other: PlaceSeat<V::Value, V>,
)
    requires places { (seat.old.table_id ≡ places.now.table_id) × (other.table_id ≡ places.now.table_id) × (0 < places.now.table_id.words) }
    requires idle { IsIdle places.now.key seat.old.me.0.parts seat.old.me × (0 < seat.old.me.0.parts) }
    requires other { IsIdle places.now.key other.me.0.parts other.me }
    ensures places { seat.new.table_id ≡ seat.old.table_id }
    ensures idle { IsIdle places.now.key (seat.old.me.0.parts + other.me.0.parts) seat.new.me }
{
    places.join_seat::<Together>(seat, other);
}

// passes over all places with a seat of one's own
fn go<V: Visitor>(
    work: &Work<'_, V>,
    mut seat: PlaceSeat<V::Value, V>,
    first: usize,
) -> PlaceSeat<V::Value, V>
    requires places { seat.table_id ≡ work.now.places.now.table_id }
    requires first { first < work.now.count }
    requires idle { IsIdle work.now.places.now.key seat.me.0.parts seat.me × (0 < seat.me.0.parts) }
    ensures places { result.table_id ≡ seat.table_id }
    ensures idle { IsIdle work.now.places.now.key seat.me.0.parts result.me }
{
    passes(work, &mut seat, first);
    seat
}

/// Passes over all places on so many threads, of which the calling one is the last. Each begins at a place of its own,
/// so many behind that of the one before.
pub(crate) fn spread<R: Threads + Sync, V: Visitor>(
    rt: &R,
    work: &Work<'_, V>,
    mut seat: PlaceSeat<V::Value, V>,
    threads: usize,
    first: usize,
    step: usize,
) -> PlaceSeat<V::Value, V>
    requires places { seat.table_id ≡ work.now.places.now.table_id }
    requires first { first < work.now.count }
    requires idle { IsIdle work.now.places.now.key seat.me.0.parts seat.me × (threads < seat.me.0.parts) × (0 < seat.me.0.parts) }
    ensures places { result.table_id ≡ seat.table_id }
    ensures idle { IsIdle work.now.places.now.key seat.me.0.parts result.me }
{
    if threads < 2 {
        return go(work, seat, first);
    }
    let other = another(work.places, &mut seat);
    let rest = threads - 1;
    let next = first.wrapping_add(step) % work.count;
    let (other, mut seat) = join(
        rt,
        move || -> PlaceSeat<V::Value, V>
            requires { (other.table_id ≡ work.now.places.now.table_id) × (first < work.now.count) × IsIdle work.now.places.now.key 1 other.me }
            ensures { (result.table_id ≡ other.table_id) × IsIdle work.entry.now.places.now.key 1 result.me }
        { go(work, other, first) },
        move || -> PlaceSeat<V::Value, V>
            requires { IsSync R.row × IsSync V.row × IsSend V.Value.row × (seat.table_id ≡ work.now.places.now.table_id) × (next < work.now.count)
                × IsIdle work.now.places.now.key seat.me.0.parts seat.me × (rest < seat.me.0.parts) × (0 < seat.me.0.parts) }
            ensures { (result.table_id ≡ seat.table_id) × IsIdle work.entry.now.places.now.key seat.me.0.parts result.me }
        { spread(rt, work, seat, rest, next, step) },
    );
    absorb(work.places, &mut seat, other);
    seat
}
