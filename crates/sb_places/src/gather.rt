//! Values go to their places, and come back.

ghost use Rattle.std.specs.Prelude.{◌≡◌, ◌<◌, ◌≤◌, ℕ, [], length, replicate, slice_index_or, vec_capacity, vec_len, IfOk};
ghost use Rattle.sb_places.specs.Rule.{AreKept};
ghost use Rattle.sb_places.specs.Taken.{HasFrom, place_count, values_of};

use crate::rule::{PlaceSeat, PlaceTable};
use crate::spread::spread;
use crate::visitor::Visitor;
use crate::work::{Pace, Work};
use atomic_table::{Closed, Refused, Table};
use std::alloc::{AllocError, Global};
use std::sync::atomic::AtomicBool;
use std::thread::Threads;

// takes all values out, in their order; there is room for them
fn take_all<S>(closed: Closed<S, Global>, back: Vec<S>) -> Vec<S>
    requires full { HasFrom closed 0 }
    requires room { (back.items ≡ []) × (place_count closed ≤ vec_capacity back) }
    ensures count { length result.items ≡ length (values_of closed) }
    ensures same { (g : ℕ) (d : S) → g < length result.items → slice_index_or result.items g d ≡ slice_index_or (values_of closed) g d }
{
    let mut closed = closed;
    let mut back = back;
    let count = closed.slot_count();
    for place in 0..count {
        back.push_reserved(closed.take(place));
    }
    closed.free();
    back
}

// so many words of places whose values are there
fn free_words(alloc: Global, count: usize) -> Result<Vec<u64>, AllocError>
    ensures { IfOk result (λ words. words.items ≡ replicate count 0) }
{
    let mut words = Vec::new(alloc);
    for _ in 0..count {
        words.push(0)?;
    }
    Ok(words)
}

/// Puts each value at a place, lets a visitor visit them on so many threads, the calling one among them, and takes them
/// back, in their order. Each thread goes over the places by itself, and visits the values that no other thread has at that
/// moment; so a value may be visited any number of times, also none. All threads have ended then. Where memory is short
/// nobody visits.
pub fn visit_all<R: Threads + Sync, V: Visitor>(
    rt: &R,
    alloc: Global,
    values: Vec<V::Value>,
    visitor: &V,
    threads: usize,
    pace: Pace,
) -> Vec<V::Value>
    requires some { 0 < vec_len values }
    requires kept { AreKept V.keeps visitor.now values.items }
    ensures count { vec_len result ≡ vec_len values }
    ensures kept { AreKept V.keeps visitor.now result.items }
{
    let count = values.len();
    let Ok(words) = free_words(alloc, count) else {
        return values;
    };
    let Ok(back) = Vec::with_capacity(alloc, count) else {
        return values;
    };
    let made: Result<(PlaceTable<V::Value, V>, PlaceSeat<V::Value, V>), Refused<V::Value, Global>> =
        Table::new(alloc, &words, values, visitor);
    match made {
        Ok((table, seat)) => {
            let over = AtomicBool::new(false);
            let work = Work {
                places: &table.shared,
                count,
                visitor,
                pace,
                over: &over,
            };
            let seat = spread(rt, &work, seat, threads, 0, count / threads.max(1));
            take_all(table.close_with(seat), back)
        }
        Err(Refused { slots }) => {
            back.destroy_empty();
            slots
        }
    }
}
