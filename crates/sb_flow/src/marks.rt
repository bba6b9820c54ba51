//! Which links a way has.

ghost use Rattle.std.specs.Prelude.{◌≡◌, ◌==◌, map, slice_set, true, IfOk};
ghost use Rattle.std.specs.List.{list_any, range_with_len};

use crate::leg::Leg;
use std::alloc::{AllocError, Global};

/// Marks one place, where there is such a place.
fn mark(on: &mut Vec<bool>, place: usize)
    ensures { on.new.items ≡ slice_set on.old.items place true }
{
    if place < on.len() {
        on[place] = true;
    }
}

/// For each link, whether it is among those of a way.
pub fn marks(alloc: Global, links: usize, legs: &[Leg]) -> Result<Vec<bool>, AllocError>
    ensures { IfOk result (λ on. on.items ≡ map (λ k. list_any (λ leg. leg.link == k) legs.now) (range_with_len 0 links)) }
{
    let mut on = vec![in alloc; false; links]?;
    for leg in legs {
        mark(&mut on, usize::from(leg.link));
    }
    Ok(on)
}
