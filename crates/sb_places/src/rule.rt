//! The rule of places, and the types that stand on it.

use crate::hand::Hand;
use crate::visitor::Visitor;
use atomic_table::{Seat, Shared, Table, TableRule};
use std::alloc::Global;

/// What holds of places between any two steps: a value is at its place, and keeps what it is to keep, or one seat has it.
pub struct PlacesRule;

impl<V: Visitor> TableRule<V::Value, Hand<V>, V> for PlacesRule {
    ghost use Rattle.sb_places.specs.Hands.{first_hand};
    ghost use Rattle.sb_places.specs.Rule.{IsPlaces};

    ghost holds = { λ visitor table. IsPlaces V.keeps visitor table };

    ghost first = { λ visitor. first_hand visitor };
}

// the places, as threads step on them
pub(crate) type Places<S, V> = Shared<S, Hand<V>, V, PlacesRule>;

// what a thread steps with
pub(crate) type PlaceSeat<S, V> = Seat<S, Hand<V>>;

// the places with their memory
pub(crate) type PlaceTable<S, V> = Table<S, Hand<V>, V, PlacesRule, Global>;
