//! Two elements of a slice at once.

ghost use Rattle.std.specs.Prelude.{◌≡◌, ◌<◌, length, set, slice_index_or};
ghost use Rattle.std.specs.Borrow.{sem, Array, LendsBoth};

/// Lends the elements at two places, the one at the lower place first.
pub fn two<T>(list: &mut [T], low: usize, high: usize) -> (&mut T, &mut T)
    requires order { low < high }
    requires within { high < length list.old }
    ensures first { result.0.now ≡ slice_index_or list.old low result.0.now }
    ensures second { result.1.now ≡ slice_index_or list.old high result.1.now }
    ensures* writes_back { sem 𝓛 (LendsBoth (Array T.row 0) T.row T.row list.entry result (λ x y. set (set list.old low x) high y)) }
{
    let (front, back) = list.split_at_mut(high);
    (&mut front[low], &mut back[0])
}
