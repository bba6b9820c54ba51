//! What the seats of a ring's table know.

use std::collections::LinkedList;

/// What a seat is for.
pub enum Role {
    /// The end that sends.
    Producer,
    /// The end that receives.
    Consumer,
    /// A note of what the consumer received, on its way to the producer.
    ReceivedNote,
    /// A note of what the producer published, on its way to the consumer.
    SentNote,
    /// A note that was read.
    Spent,
}

/// What a seat knows, for a plan of type `P` and items of type `I`. It stands in proofs alone: no value of it is made.
pub struct View<P, I> {
    pub role: Role,
    /// The producer's consumer was made.
    pub paired: bool,
    /// What the ring is made for.
    pub plan: P,
    /// The items that the producer published, or that the consumer received; in a note, what its writer had there.
    pub items: LinkedList<I>,
    /// The items that the producer sent behind those and has not published: they stand in their slots.
    pub ahead: LinkedList<I>,
    /// At the producer the count of items taken that it loaded last; at the consumer the count of items published.
    pub learnt: u64,
    /// How often it loaded the other end's count.
    pub loads: u64,
    /// The words of the next item that the producer stored, or that the consumer loaded, so far.
    pub part: LinkedList<u64>,
    /// The items of the other end's note that was read last.
    pub told: LinkedList<I>,
}
