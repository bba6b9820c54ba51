//! Passes over all places.

ghost use Rattle.std.specs.Prelude.{◌≡◌, ◌<◌, ◌≤◌};
ghost use Rattle.sb_places.specs.Rule.{IsIdle};

use crate::place::visit;
use crate::rule::PlaceSeat;
use crate::visitor::{Visited, Visitor};
use crate::work::Work;
use std::sync::atomic::Ordering;
use std::thread;

// after so many passes in a row that moved nothing a thread yields the processor before each further one: who has a value
// may need it
const PASSES_BEFORE_YIELDS: u32 = 2;

// visits the places of a range, in order
fn visit_range<V: Visitor>(
    work: &Work<'_, V>,
    seat: &mut PlaceSeat<V::Value, V>,
    from: usize,
    to: usize,
) -> Visited
    requires places { seat.old.table_id ≡ work.now.places.now.table_id }
    requires to { to ≤ work.now.count }
    requires idle { IsIdle work.now.places.now.key seat.old.me.0.parts seat.old.me × (0 < seat.old.me.0.parts) }
    ensures places { (seat.new.table_id ≡ seat.old.table_id) × (seat.new.id ≡ seat.old.id) }
    ensures idle { IsIdle work.now.places.now.key seat.old.me.0.parts seat.new.me }
{
    let mut visited = Visited::Done;
    for place in from..to {
        visited = visited.with(visit(work, seat, place));
    }
    visited
}

// visits all places, from the first one of this thread on and round
fn pass<V: Visitor>(work: &Work<'_, V>, seat: &mut PlaceSeat<V::Value, V>, first: usize) -> Visited
    requires places { seat.old.table_id ≡ work.now.places.now.table_id }
    requires first { first < work.now.count }
    requires idle { IsIdle work.now.places.now.key seat.old.me.0.parts seat.old.me × (0 < seat.old.me.0.parts) }
    ensures places { (seat.new.table_id ≡ seat.old.table_id) × (seat.new.id ≡ seat.old.id) }
    ensures idle { IsIdle work.now.places.now.key seat.old.me.0.parts seat.new.me }
{
    let behind = visit_range(work, seat, first, work.count);
    behind.with(visit_range(work, seat, 0, first))
}

/// Visits all places again and again: until in one pass nothing moved and nothing will, until some passes in a row moved
/// nothing, or until another thread found that nothing will move. Between passes that moved nothing it yields the
/// processor, and has no value then.
pub(crate) fn passes<V: Visitor>(
    work: &Work<'_, V>,
    seat: &mut PlaceSeat<V::Value, V>,
    first: usize,
)
    requires places { seat.old.table_id ≡ work.now.places.now.table_id }
    requires first { first < work.now.count }
    requires idle { IsIdle work.now.places.now.key seat.old.me.0.parts seat.old.me × (0 < seat.old.me.0.parts) }
    ensures places { (seat.new.table_id ≡ seat.old.table_id) × (seat.new.id ≡ seat.old.id) }
    ensures idle { IsIdle work.now.places.now.key seat.old.me.0.parts seat.new.me }
{
    let mut idle: u32 = 0;
    for _ in 0..work.pace.passes {
        match pass(work, seat, first) {
            Visited::Moved => idle = 0,
            Visited::Idle => idle = idle.saturating_add(1),
            Visited::Done => {
                work.over.store(true, Ordering::SeqCst);
                break;
            }
        }
        if idle >= work.pace.patience || (idle > 0 && work.over.load(Ordering::SeqCst)) {
            break;
        }
        if idle > PASSES_BEFORE_YIELDS {
            thread::yield_now();
        }
    }
}
