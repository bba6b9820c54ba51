//! Who visits values at their places.

ghost use Rattle.std.specs.Prelude.{ℕ};

/// What a visit came to, or a pass over places.
#[derive(Clone, Copy, Debug, PartialEq, Eq)]
pub enum Visited {
    /// Something moved.
    Moved,
    /// Nothing moved, but something may move later.
    Idle,
    /// Nothing moved, and nothing will.
    Done,
}

impl Visited {
    /// What two visits came to together.
    pub fn with(self, other: Visited) -> Visited {
        match (self, other) {
            (Visited::Moved, _) | (_, Visited::Moved) => Visited::Moved,
            (Visited::Idle, _) | (_, Visited::Idle) => Visited::Idle,
            (Visited::Done, Visited::Done) => Visited::Done,
        }
    }
}

/// What is done with the values, by any thread that took one.
pub trait Visitor: Sync {
    type Value: Send;

    // A value keeps this at its place, from visit to visit.
    ghost keeps: { Self → ℕ → Self.Value → Type 0 };

    /// Visits the value of a place, which no other thread has meanwhile.
    fn visit(&self, place: usize, value: &mut Self::Value) -> Visited
        requires kept { keeps self.now place value.old }
        ensures kept { keeps self.now place value.new };
}
