//! Tests of visits: how often values are visited, that they come back in their order, and that threads visit at once.

ghost use Rattle.std.specs.Prelude.{◌≡◌, ◌<◌, IfOk, length, vec_len};

use crate::{Pace, Visited, Visitor, visit_all};
use std::alloc::{AllocError, Global};
use std::hint;
use std::sync::atomic::{AtomicBool, AtomicU32, Ordering};
use std::test::Fail;

// more passes than a test makes
const LONG: Pace = Pace {
    passes: 1_000_000,
    patience: 1_000_000,
};

/// A value that moves so many times, and counts its visits.
#[derive(Drop)]
struct Counter {
    name: usize,
    moves: u32,
    visits: u32,
}

/// Visits counters. One that has moved often enough is done, or idle for ever.
#[derive(Drop)]
struct Counting {
    then: Visited,
}

impl Visitor for Counting {
    type Value = Counter;

    ghost keeps = { λ _ _ _. Unit {0} };

    fn visit(&self, _place: usize, counter: &mut Counter) -> Visited {
        let moves = counter.visits < counter.moves;
        counter.visits = counter.visits.saturating_add(1);
        if moves { Visited::Moved } else { self.then }
    }
}

/// Counters that move so many times each, named by their places.
fn counters_of(alloc: Global, all_moves: &[u32]) -> Result<Vec<Counter>, AllocError>
    requires some { 0 < length all_moves.now }
    ensures some { IfOk result (λ counters. 0 < vec_len counters) }
{
    let mut counters = Vec::new(alloc);
    for moves in all_moves {
        counters.push(Counter {
            name: counters.len(),
            moves: *moves,
            visits: 0,
        })?;
    }
    Ok(counters)
}

/// One thread visits each value in each pass. It leaves with the pass in which all are done, with the last of so many that
/// moved nothing, or when no more may be made.
#[test]
fn passes_of_one_thread(rt: HostRuntime) -> Result<(), Fail> {
    for (then, moves, passes, patience, want) in [
        (Visited::Done, 0, 100, 10, 1),
        (Visited::Done, 7, 100, 10, 8),
        (Visited::Idle, 0, 100, 10, 10),
        (Visited::Idle, 7, 100, 10, 17),
        (Visited::Idle, 7, 100, 1, 8),
        (Visited::Done, 7, 5, 10, 5),
        (Visited::Idle, 7, 9, 10, 9),
        (Visited::Done, 7, 0, 10, 0),
    ] {
        for threads in [0, 1] {
            let counters = counters_of(rt.alloc(), &[0, moves])?;
            let pace = Pace { passes, patience };
            let counting = Counting { then };
            let back = visit_all(&rt, rt.alloc(), counters, &counting, threads, pace);
            assert!(rt;
                back.iter().all(|counter| counter.visits == want),
                "{moves} moves, {passes} passes, patience {patience}"
            );
        }
    }
    Ok(())
}

/// However many threads there are, all values come to their end, and back in their order.
#[test]
fn threads(rt: HostRuntime) -> Result<(), Fail> {
    for threads in [1, 2, 3, 16] {
        let counters = counters_of(rt.alloc(), &[1_000; 7])?;
        let counting = Counting {
            then: Visited::Done,
        };
        let back = visit_all(&rt, rt.alloc(), counters, &counting, threads, LONG);
        assert_eq!(rt; back.len(), 7);
        assert!(rt;
            back.iter()
                .enumerate()
                .all(|(place, counter)| counter.name == place),
            "{threads} threads"
        );
        assert!(rt;
            back.iter().all(|counter| counter.visits > 1_000),
            "{threads} threads"
        );
    }
    Ok(())
}

/// Each of two values waits in its first visit until it sees that the other one is visited, or has looked for it for long.
#[derive(Drop)]
struct Meeting<'a> {
    first: &'a AtomicBool,
    second: &'a AtomicBool,
    seen: &'a AtomicU32,
}

impl<'a> Visitor for Meeting<'a> {
    type Value = Counter;

    ghost keeps = { λ _ _ _. Unit {0} };

    fn visit(&self, place: usize, counter: &mut Counter) -> Visited {
        if counter.visits > 0 {
            return Visited::Done;
        }
        counter.visits = 1;
        let (own, other) = if place == 0 {
            (self.first, self.second)
        } else {
            (self.second, self.first)
        };
        own.store(true, Ordering::SeqCst);
        for _ in 0..100_000_000 {
            if other.load(Ordering::SeqCst) {
                self.seen.fetch_add(1, Ordering::SeqCst);
                break;
            }
            hint::spin_loop();
        }
        Visited::Moved
    }
}

/// Two values are visited at once, which only threads can do.
#[test]
fn two_at_once(rt: HostRuntime) -> Result<(), Fail> {
    let first = AtomicBool::new(false);
    let second = AtomicBool::new(false);
    let seen = AtomicU32::new(0);
    let meeting = Meeting {
        first: &first,
        second: &second,
        seen: &seen,
    };
    let counters = counters_of(rt.alloc(), &[0, 0])?;
    let back = visit_all(&rt, rt.alloc(), counters, &meeting, 2, LONG);
    assert_eq!(rt; seen.load(Ordering::SeqCst), 2);
    assert!(rt; back.iter().all(|counter| counter.visits == 1));
    Ok(())
}

/// What two visits came to together.
#[test]
fn together(rt: HostRuntime) -> Result<(), Fail> {
    for (one, other, both) in [
        (Visited::Moved, Visited::Done, Visited::Moved),
        (Visited::Idle, Visited::Moved, Visited::Moved),
        (Visited::Idle, Visited::Done, Visited::Idle),
        (Visited::Idle, Visited::Idle, Visited::Idle),
        (Visited::Done, Visited::Done, Visited::Done),
    ] {
        assert_eq!(rt; one.with(other), both);
        assert_eq!(rt; other.with(one), both);
    }
    Ok(())
}
