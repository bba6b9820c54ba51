//! Which flows go over a ring.

ghost use Rattle.std.specs.Prelude.{◌≡◌, ◌≤◌, length, take};
ghost use Rattle.sb_link.specs.RingPlans.{AreApart};
ghost use Rattle.sb_link.specs.Plans.{AreInRange, AreWholePages, ranges_of};

/// The ranges of a network's devices, and which flows go over a ring.
///
/// The ranges are disjoint, each is a number of whole pages of 4,096 bytes, and each ends at most at `2^56`.
#[derive(Clone, Copy, Debug, PartialEq, Eq)]
pub struct Flows {
    /// The number of devices, at most 32.
    pub count: u8,
    /// The first address of each device, by its place. Places from `count` on mean nothing.
    pub base: [u64; 32],
    /// The number of bytes of each device, by its place.
    pub bytes: [u64; 32],
    /// For each host's id: bit `d` says that its flow to device `d` goes over the ring.
    pub through: [u32; 32],
    pub ghost counted: { count ≤ 32 },
    pub ghost bases: { length base ≡ 32 },
    pub ghost lengths: { length bytes ≡ 32 },
    pub ghost hosts: { length through ≡ 32 },
    pub ghost apart: { AreApart (take count (ranges_of base bytes)) },
    pub ghost paged: { AreWholePages (take count (ranges_of base bytes)) },
    pub ghost in_range: { AreInRange (take count (ranges_of base bytes)) },
}
