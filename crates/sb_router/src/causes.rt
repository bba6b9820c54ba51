//! What was found in two turns.

ghost use Rattle.std.specs.Prelude.{◌≡◌};
ghost use Rattle.sb_router.specs.Popping.{found_in_both, lower, ring_of_cause};

use sb_link::Cause;
use sb_node::Findings;

// the number of the ring that is empty or full
fn ring_of(cause: Cause) -> u16
    ensures ring { result ≡ ring_of_cause cause }
{
    match cause {
        Cause::Empty { ring, .. } | Cause::Full { ring, .. } => ring,
        Cause::Window { .. } | Cause::Later | Cause::Broken => 0,
    }
}

/// Of two causes the one at the ring of the lower number.
pub fn lower(first: Option<Cause>, second: Option<Cause>) -> Option<Cause>
    ensures lower { result ≡ lower first second }
{
    match (first, second) {
        (None, _) => second,
        (_, None) => first,
        (Some(a), Some(b)) => {
            if ring_of(a) <= ring_of(b) {
                first
            } else {
                second
            }
        }
    }
}

/// What was found in two turns: of two causes of one kind, the one at the ring of the lower number.
pub fn both(first: &Findings, second: &Findings) -> Findings
    ensures both { result ≡ found_in_both first.now second.now }
{
    Findings {
        moved: first.moved || second.moved,
        full: lower(first.full, second.full),
        waits: lower(first.waits, second.waits),
        empty: lower(first.empty, second.empty),
    }
}
