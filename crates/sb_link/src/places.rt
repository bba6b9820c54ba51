//! Where a ring stands among those that were made.

ghost use Rattle.std.specs.Prelude.{◌≡◌, ℕ, ◌<◌, length, slice_get, Some};
ghost use Rattle.sb_link.specs.Registries.{IsPlaceOfRing};

use crate::ends::RxEnd;
use crate::registered_ring::RegisteredRing;

// the first place of a ring, which stands among the rows
pub(crate) fn place_of<E: RxEnd>(rows: &[RegisteredRing<E>], ring: u16) -> usize
    requires made { (k : ℕ) × (r : RegisteredRing _) × (slice_get rows.now k ≡ Some r) × (r.plan.ring ≡ ring) }
    ensures within { result < length rows.now }
    ensures place { IsPlaceOfRing rows.now ring result }
{
    let mut at = 0;
    while rows[at].plan.ring != ring {
        at += 1;
    }
    at
}
