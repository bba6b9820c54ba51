//! Places that are taken and given back.

ghost use Rattle.std.specs.Prelude.{◌≡◌, ◌≢◌, ◌<◌, ◌∷◌, false, true, []};
ghost use Rattle.sb_places.specs.Rule.{IsGivenBack, IsIdle, IsTried};

use crate::plays::{Given, Tried};
use crate::rule::{PlaceSeat, Places};
use crate::visitor::{Visited, Visitor};
use crate::work::Work;

// a place whose value is there has this word
const FREE: u64 = 0;

// and one whose value a thread has this one
const TAKEN: u64 = 1;

// tries to take a place, and says whether the seat has its value then
fn try_take<V: Visitor>(
    places: &Places<V::Value, V>,
    seat: &mut PlaceSeat<V::Value, V>,
    place: usize,
) -> bool
    requires places { seat.old.table_id ≡ places.now.table_id }
    requires place { (place < places.now.table_id.words) × (places.now.table_id.slots ≡ places.now.table_id.words) }
    requires idle { (seat.old.me.0.holds ≡ false) × (seat.old.me.1 ≡ []) × (0 < seat.old.me.0.parts) }
    ensures places { (seat.new.table_id ≡ seat.old.table_id) × (seat.new.id ≡ seat.old.id) }
    ensures taken { result ≡ true → IsTried V.keeps place seat.old.me 0 seat.new.me }
    ensures missed { result ≡ false → seat.new.me ≡ seat.old.me }
{
    places.compare_exchange::<Tried>(seat, place, FREE, TAKEN) == FREE
}

// gives back what the seat has
fn give<V: Visitor>(places: &Places<V::Value, V>, seat: &mut PlaceSeat<V::Value, V>, place: usize)
    requires places { seat.old.table_id ≡ places.now.table_id }
    requires place { (place < places.now.table_id.words) × (places.now.table_id.slots ≡ places.now.table_id.words) }
    requires has { (seat.old.me.0.holds ≡ true) × (seat.old.me.0.place ≡ place)
        × ((x : V.Value) × (seat.old.me.1 ≡ (place, x) ∷ []) × V.keeps places.now.key place x) }
    ensures places { (seat.new.table_id ≡ seat.old.table_id) × (seat.new.id ≡ seat.old.id) }
    ensures given { IsGivenBack seat.old.me seat.new.me }
{
    places.store::<Given>(seat, place, FREE);
}

/// Visits the value of a place, if no other thread has it: then that is idle.
pub(crate) fn visit<V: Visitor>(
    work: &Work<'_, V>,
    seat: &mut PlaceSeat<V::Value, V>,
    place: usize,
) -> Visited
    requires places { seat.old.table_id ≡ work.now.places.now.table_id }
    requires place { place < work.now.count }
    requires idle { IsIdle work.now.places.now.key seat.old.me.0.parts seat.old.me × (0 < seat.old.me.0.parts) }
    ensures places { (seat.new.table_id ≡ seat.old.table_id) × (seat.new.id ≡ seat.old.id) }
    ensures idle { IsIdle work.now.places.now.key seat.old.me.0.parts seat.new.me }
{
    if !try_take(work.places, seat, place) {
        return Visited::Idle;
    }
    let visited = work.visitor.visit(place, seat.slot_mut(work.places, place));
    give(work.places, seat, place);
    visited
}
