//! The rule of a ring's table, and the types that stand on it.

use crate::view::View;
use atomic_table::{Seat, Shared, Table, TableRule};
use sb_link::LinkPlan;
use sb_packet::Item;
use std::alloc::Global;

/// What holds of a ring's table between any two steps, by the ring's plan.
pub struct RingRule;

impl TableRule<u8, View<Option<LinkPlan>, Item>, LinkPlan> for RingRule {
    ghost use Rattle.std.specs.Prelude.{Some};
    ghost use Rattle.sb_ring.specs.Rule.{new_producer};
    ghost use Rattle.sb_ring.specs.Sending.{IsRingTable};

    ghost holds = { IsRingTable };

    ghost first = { λ plan. new_producer (Some plan) };
}

// what a seat of a ring's table knows
pub(crate) type RingView = View<Option<LinkPlan>, Item>;

// the words of a ring, as both ends step on them
pub(crate) type RingWords = Shared<u8, RingView, LinkPlan, RingRule>;

// a seat of a ring's table
pub(crate) type RingSeat = Seat<u8, RingView>;

// a ring's words with their memory
pub(crate) type RingTable = Table<u8, RingView, LinkPlan, RingRule, Global>;
