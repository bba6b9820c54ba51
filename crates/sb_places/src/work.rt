//! What threads share while they visit values.

ghost use Rattle.std.specs.Prelude.{◌≡◌, ◌<◌};

use crate::rule::Places;
use crate::visitor::Visitor;
use std::sync::atomic::AtomicBool;

/// How long a thread goes over the places.
#[derive(Clone, Copy, Debug, PartialEq, Eq)]
pub struct Pace {
    /// So many passes over all places it makes at most.
    pub passes: u32,
    /// So many of them in a row may move nothing.
    pub patience: u32,
}

// what all threads share while they visit values
#[derive(Drop)]
pub(crate) struct Work<'a, V: Visitor> {
    pub places: &'a Places<V::Value, V>,
    pub count: usize,
    pub visitor: &'a V,
    pub pace: Pace,
    // a thread found that nothing will move any more
    pub over: &'a AtomicBool,
    pub ghost counted: { (count ≡ places.now.table_id.words) × (places.now.table_id.slots ≡ places.now.table_id.words) × (0 < count) },
    pub ghost own: { visitor.now ≡ places.now.key },
}
