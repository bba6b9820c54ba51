//! What the seats of places know.

/// What a seat knows, which proofs alone read: no value of it is made.
pub struct Hand<V> {
    /// The visitor for whom the values were put at their places; None where the seat has no part.
    pub visitor: Option<V>,
    /// Of the right to know that nothing is taken.
    pub parts: u64,
    /// The seat has taken a value.
    pub holds: bool,
    /// From this place.
    pub place: u64,
}
