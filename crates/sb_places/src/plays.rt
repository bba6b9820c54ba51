//! What the steps tell.

use crate::hand::Hand;
use crate::visitor::Visitor;
use atomic_table::{Join, Play, Split};

// a place was tried
pub(crate) struct Tried;

impl<V: Visitor> Play<V::Value, Hand<V>> for Tried {
    ghost use Rattle.sb_places.specs.Rule.{IsTried};

    ghost then = { λ s before n after. IsTried V.keeps s.word before n after };
}

// a value was given back
pub(crate) struct Given;

impl<V: Visitor> Play<V::Value, Hand<V>> for Given {
    ghost use Rattle.sb_places.specs.Rule.{IsGivenBack};

    ghost then = { λ s before n after. IsGivenBack before after };
}

// a seat for one more thread
pub(crate) struct OneMore;

impl<V> Split<Hand<V>> for OneMore {
    ghost use Rattle.sb_places.specs.Hands.{with_parts};
    ghost use Rattle.std.specs.Prelude.{◌-◌};

    ghost left = { λ v. with_parts v (v.parts - 1) };

    ghost right = { λ v. with_parts v 1 };
}

// what the seats of two threads know, put together
pub(crate) struct Together;

impl<V> Join<Hand<V>> for Together {
    ghost use Rattle.sb_places.specs.Hands.{spent_hand, with_parts};
    ghost use Rattle.std.specs.Prelude.{◌+◌};

    ghost both = { λ v w. with_parts v (v.parts + w.parts) };

    ghost spent = { spent_hand };
}
