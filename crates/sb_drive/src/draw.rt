//! How often a node is turned, drawn from a number.

ghost use Rattle.std.specs.Prelude.{◌≤◌};

// what SplitMix64 adds to its state for each number that it draws
const STEP: u64 = 0x9e37_79b9_7f4a_7c15;

/// How often the node at a place is turned in a round of drawn turns: up to three times, by the upper two bits of what is
/// drawn for the place. The order and the round's number say where the draws begin.
pub(crate) fn turns_drawn(order: u32, number: u32, place: usize) -> u32
    ensures most { result ≤ 3 }
{
    let start = (u64::from(order) << 32) | u64::from(number);
    (drawn(start, place as u64) >> 62) as u32
}

/// The number that SplitMix64 draws behind so many others, from a state: the generator of Guy Steele, Doug Lea and
/// Christine Flood ("Fast splittable pseudorandom number generators", 2014).
pub(crate) fn drawn(start: u64, others: u64) -> u64 {
    let state = start.wrapping_add(STEP.wrapping_mul(others.wrapping_add(1)));
    let once = (state ^ (state >> 30)).wrapping_mul(0xbf58_476d_1ce4_e5b9);
    let twice = (once ^ (once >> 27)).wrapping_mul(0x94d0_49bb_1331_11eb);
    twice ^ (twice >> 31)
}
