//! Tests of long rounds: how many sweeps a group makes, the gate, and that groups turn side by side.

ghost use Rattle.std.specs.Prelude.{◌≡◌, All, vec_len};
ghost use Rattle.sb_drive.specs.SideBySide.{IsWholeGroup};

use crate::{FreeGate, Gate, Group, Node, Pace, round};
use sb_link::{Cause, Turn};
use std::alloc::{AllocError, Global};
use std::hint;
use std::sync::atomic::{AtomicBool, AtomicU32, AtomicU64, Ordering};
use std::test::Fail;
use std::thread::Threads;

const IDLE: Turn = Turn::Idle(Cause::Later);

// more passes than a test makes
const ANY_PASSES: u32 = 1_000_000;

// 16 passes alone, then any number of them, with one sweep a group in each
const SWEEP_BY_SWEEP: Pace = Pace {
    alone: 16,
    passes: ANY_PASSES,
    patience: 1_000,
    sweeps: 1,
};

/// A node that moves in its first turns, and then answers the same for ever. It looks in each turn whether its group
/// entered the gate just once in each round.
#[derive(Drop)]
struct Mover<'a> {
    entered: &'a AtomicU32,
    moves: u32,
    then: Turn,
    turns: u32,
    entered_once: bool,
}

impl<'a> Node for Mover<'a> {
    ghost whole = { λ _. Unit {0} };

    ghost reaches = { λ _ _ _. Unit {0} };

    ghost rests = { λ _ _. Unit {0} };

    ghost turns = { λ _ _ _ _. Unit {0} };

    ghost reflexive = { λ _ _. tt };

    ghost transitive = { λ _ _ _ _ _ _. tt };

    ghost rests_reflexive = { λ _. tt };

    ghost rests_transitive = { λ _ _ _ _ _. tt };

    fn turn(&mut self, round: u32) -> Turn {
        if self.entered.load(Ordering::SeqCst) != round.saturating_add(1) {
            self.entered_once = false;
        }
        let moves = self.turns < self.moves;
        self.turns = self.turns.saturating_add(1);
        if moves { Turn::Moved } else { self.then }
    }
}

/// A group of these nodes, before its first round.
fn group_of<N: Drop>(alloc: Global, nodes: Vec<N>) -> Result<Group<N>, AllocError> {
    let last = vec![in alloc; IDLE; nodes.len()]?;
    Ok(Group {
        nodes,
        last,
        moved: false,
    })
}

/// A node that is done, and one that moves in its first turns.
fn two_movers<'a>(
    alloc: Global,
    entered: &'a AtomicU32,
    moves: u32,
    then: Turn,
) -> Result<Group<Mover<'a>>, AllocError> {
    let mut nodes = Vec::new(alloc);
    for (moves, then) in [(0, Turn::Done), (moves, then)] {
        nodes.push(Mover {
            entered,
            moves,
            then,
            turns: 0,
            entered_once: true,
        })?;
    }
    group_of(alloc, nodes)
}

/// Counts how often each group entered.
#[derive(Drop)]
struct Counted<'a> {
    entered: &'a [AtomicU32],
}

impl<'a> Counted<'a> {
    fn count(&self, group: u32) -> u32 {
        match self.entered.get(group as usize) {
            Some(entered) => entered.load(Ordering::SeqCst),
            None => 0,
        }
    }
}

impl<'a> Gate for Counted<'a> {
    fn enter(&self, group: u32) {
        if let Some(entered) = self.entered.get(group as usize) {
            entered.fetch_add(1, Ordering::SeqCst);
        }
    }
}

/// On one thread a round is over with the first pass in which nothing moves, or with its last one. After the first pass a
/// group makes some sweeps in each, while it moves.
#[test]
fn sweeps_of_a_round(rt: HostRuntime) -> Result<(), Fail> {
    for (moves, passes, sweeps, want, turns) in [
        // Nothing moves in the first pass, or in the second.
        (0, 10, 4, 1, 1),
        (2, 10, 4, 2, 4),
        // The mover has its moves behind it in the third sweep: that is the third pass, or the second one.
        (20, 10, 1, 4, 22),
        (20, 10, 4, 5, 23),
        // No more passes may be made, nor sweeps in a pass.
        (100, 3, 2, 5, 40),
        (7, 1, 4, 1, 8),
        (8, 1, 4, 1, 8),
        // One pass is made in any case.
        (0, 0, 4, 1, 1),
        (8, 0, 4, 1, 8),
    ] {
        for (workers, then) in [(1, Turn::Done), (1, IDLE), (2, IDLE)] {
            let entered = [AtomicU32::new(0)];
            let mut groups = [two_movers(rt.alloc(), &entered[0], moves, then)?];
            let gate = Counted { entered: &entered };
            let pace = Pace {
                alone: 0,
                passes,
                patience: 1,
                sweeps,
            };
            let moved = round(&rt, rt.alloc(), &mut groups, workers, pace, 0, &gate);
            assert_eq!(rt; moved, moves > 0, "{moves} moves, {passes} passes");
            for (node, want) in groups[0].nodes.iter().zip([want, turns]) {
                assert_eq!(rt; node.turns, want, "{moves} moves, {passes} passes");
                assert!(rt; node.entered_once);
            }
            assert_eq!(rt;
                groups[0].last.as_slice(),
                [Turn::Done, if turns > moves { then } else { Turn::Moved }].as_slice()
            );
        }
    }
    Ok(())
}

/// Where a round ends on the calling thread alone, each group enters the gate with its place, once and before its first
/// turn.
#[test]
fn entries(rt: HostRuntime) -> Result<(), Fail> {
    let entered = [AtomicU32::new(0), AtomicU32::new(0), AtomicU32::new(0)];
    let mut groups = [
        two_movers(rt.alloc(), &entered[0], 35, IDLE)?,
        two_movers(rt.alloc(), &entered[1], 0, IDLE)?,
        two_movers(rt.alloc(), &entered[2], 3, Turn::Done)?,
    ];
    let gate = Counted { entered: &entered };
    for (number, answer) in [(0, true), (1, false), (2, false)] {
        let moved = round(
            &rt,
            rt.alloc(),
            &mut groups,
            4,
            SWEEP_BY_SWEEP,
            number,
            &gate,
        );
        assert_eq!(rt; moved, answer, "round {number}");
    }
    for count in &entered {
        assert_eq!(rt; count.load(Ordering::SeqCst), 3);
    }
    for group in &groups {
        assert!(rt; group.nodes.iter().all(|node| node.entered_once));
    }
    Ok(())
}

/// Of a round that goes on after the passes on the calling thread alone each group enters the gate anew.
#[test]
fn entries_beside_others(rt: HostRuntime) -> Result<(), Fail> {
    let entered = [AtomicU32::new(0), AtomicU32::new(0)];
    let mut groups = [
        two_movers(rt.alloc(), &entered[0], 1_000, IDLE)?,
        two_movers(rt.alloc(), &entered[1], 1_000, Turn::Done)?,
    ];
    let gate = Counted { entered: &entered };
    assert!(rt; round(&rt, rt.alloc(), &mut groups, 2, SWEEP_BY_SWEEP, 0, &gate));
    for count in &entered {
        assert!(rt; count.load(Ordering::SeqCst) > 1);
    }
    for group in &groups {
        assert!(rt; group.nodes.iter().all(|node| node.turns > node.moves));
    }
    Ok(())
}

/// Lets a group pass that is on the calling thread alone. When it comes for the second time it waits until it has seen
/// another one at the gate, or has looked for it for long.
#[derive(Drop)]
struct Rendezvous<'a> {
    entered: Counted<'a>,
    first: &'a AtomicBool,
    second: &'a AtomicBool,
    seen: &'a AtomicU32,
}

impl<'a> Gate for Rendezvous<'a> {
    fn enter(&self, group: u32) {
        self.entered.enter(group);
        if self.entered.count(group) != 2 {
            return;
        }
        let (own, other) = if group == 0 {
            (self.first, self.second)
        } else {
            (self.second, self.first)
        };
        own.store(true, Ordering::SeqCst);
        for _ in 0..100_000_000 {
            if other.load(Ordering::SeqCst) {
                self.seen.fetch_add(1, Ordering::SeqCst);
                return;
            }
            hint::spin_loop();
        }
    }
}

/// Two groups stand in the gate at once, which only threads can do.
#[test]
fn two_at_once(rt: HostRuntime) -> Result<(), Fail> {
    let entered = [AtomicU32::new(0), AtomicU32::new(0)];
    let mut groups = [
        two_movers(rt.alloc(), &entered[0], 1_000, Turn::Done)?,
        two_movers(rt.alloc(), &entered[1], 1_000, Turn::Done)?,
    ];
    let first = AtomicBool::new(false);
    let second = AtomicBool::new(false);
    let seen = AtomicU32::new(0);
    let gate = Rendezvous {
        entered: Counted { entered: &entered },
        first: &first,
        second: &second,
        seen: &seen,
    };
    round(&rt, rt.alloc(), &mut groups, 2, SWEEP_BY_SWEEP, 0, &gate);
    assert_eq!(rt; seen.load(Ordering::SeqCst), 2);
    Ok(())
}

/// A node that waits for a token and passes it on, until the token has been passed on often enough.
#[derive(Drop)]
struct Passer<'a> {
    // how often the token was passed on
    passed: &'a AtomicU64,
    place: u64,
    count: u64,
    goal: u64,
}

impl<'a> Node for Passer<'a> {
    ghost whole = { λ _. Unit {0} };

    ghost reaches = { λ _ _ _. Unit {0} };

    ghost rests = { λ _ _. Unit {0} };

    ghost turns = { λ _ _ _ _. Unit {0} };

    ghost reflexive = { λ _ _. tt };

    ghost transitive = { λ _ _ _ _ _ _. tt };

    ghost rests_reflexive = { λ _. tt };

    ghost rests_transitive = { λ _ _ _ _ _. tt };

    fn turn(&mut self, _round: u32) -> Turn {
        let passed = self.passed.load(Ordering::SeqCst);
        if passed >= self.goal {
            return Turn::Done;
        }
        if passed.checked_rem(self.count) != Some(self.place) {
            return IDLE;
        }
        self.passed
            .store(passed.saturating_add(1), Ordering::SeqCst);
        Turn::Moved
    }
}

/// Nodes at the places `first`, `first + step` and so on, `each` of them.
fn passers<'a>(
    alloc: Global,
    passed: &'a AtomicU64,
    first: u64,
    step: u64,
    each: u64,
    goal: u64,
) -> Result<Group<Passer<'a>>, AllocError> {
    let mut nodes = Vec::new(alloc);
    for j in 0..each {
        nodes.push(Passer {
            passed,
            place: first.saturating_add(j.saturating_mul(step)),
            count: step.saturating_mul(each),
            goal,
        })?;
    }
    group_of(alloc, nodes)
}

/// Rounds until nobody moves, and how many they were.
fn rounds_to_rest<R: Threads + Sync, N: Node + Send + Drop>(
    rt: &R,
    alloc: Global,
    groups: &mut [Group<N>],
    passes: u32,
    patience: u32,
) -> u32
    requires { All (IsWholeGroup N.whole) groups.old }
{
    let pace = Pace {
        alone: 1,
        passes,
        patience,
        sweeps: 1,
    };
    for number in 0..100_000 {
        if !round(rt, alloc, groups, 4, pace, number, &FreeGate) {
            return number + 1;
        }
    }
    100_000
}

/// A token goes from group to group until its goal, however long a round is. In each round before one can move: the node
/// that has the token when the round begins.
#[test]
fn tokens(rt: HostRuntime) -> Result<(), Fail> {
    for (count, each, goal, passes, patience, most_rounds) in [
        // One group passes the token on three times in each sweep.
        (1, 3, 30, ANY_PASSES, 1, 2),
        (1, 3, 30, 1, 1, 11),
        (1, 3, 30, 4, 1, 4),
        // Of several groups each may leave when it has just passed the token on.
        (2, 1, 1_000, ANY_PASSES, 1_000, 1_001),
        (4, 2, 1_000, ANY_PASSES, 1_000, 1_001),
        (2, 3, 60, ANY_PASSES, 1, 61),
        (4, 1, 40, 1, 1, 41),
    ] {
        let passed = AtomicU64::new(0);
        let mut groups = Vec::new(rt.alloc());
        for first in 0..count {
            groups.push(passers(rt.alloc(), &passed, first, count, each, goal)?)?;
        }
        let rounds = rounds_to_rest(&rt, rt.alloc(), &mut groups, passes, patience);
        assert!(rt;
            rounds <= most_rounds,
            "{count} groups of {each}: {rounds} rounds"
        );
        assert_eq!(rt;
            passed.load(Ordering::SeqCst),
            goal,
            "{count} groups of {each}"
        );
        assert!(rt;
            groups.iter().all(|group| group.last.iter().all(|answer| *answer == Turn::Done))
        );
    }
    Ok(())
}

/// A stage of a pipe: it counts up where the stage before it has counted further, and the one behind it isn't too far
/// behind. The first counter of the pipe is how far all are to count.
#[derive(Drop)]
struct Stage<'a> {
    counters: &'a [AtomicU64],
    place: usize,
}

impl<'a> Stage<'a> {
    fn count(&self, place: usize) -> Option<u64> {
        let counter = self.counters.get(place)?;
        Some(counter.load(Ordering::SeqCst))
    }
}

impl<'a> Node for Stage<'a> {
    ghost whole = { λ _. Unit {0} };

    ghost reaches = { λ _ _ _. Unit {0} };

    ghost rests = { λ _ _. Unit {0} };

    ghost turns = { λ _ _ _ _. Unit {0} };

    ghost reflexive = { λ _ _. tt };

    ghost transitive = { λ _ _ _ _ _ _. tt };

    ghost rests_reflexive = { λ _. tt };

    ghost rests_transitive = { λ _ _ _ _ _. tt };

    fn turn(&mut self, _round: u32) -> Turn {
        let goal = self.count(0).unwrap_or(0);
        let own = self.count(self.place).unwrap_or(goal);
        if own >= goal {
            return Turn::Done;
        }
        let before = self.count(self.place.saturating_sub(1)).unwrap_or(0);
        let behind = self.count(self.place.saturating_add(1)).unwrap_or(own);
        if before <= own || own.saturating_sub(behind) >= 8 {
            return IDLE;
        }
        if let Some(counter) = self.counters.get(self.place) {
            counter.store(own.saturating_add(1), Ordering::SeqCst);
        }
        Turn::Moved
    }
}

/// Two stages of a pipe, the first of them at that place.
fn two_stages<'a>(
    alloc: Global,
    counters: &'a [AtomicU64],
    place: usize,
) -> Result<Group<Stage<'a>>, AllocError> {
    let mut nodes = Vec::new(alloc);
    for place in [place, place.saturating_add(1)] {
        nodes.push(Stage { counters, place })?;
    }
    group_of(alloc, nodes)
}

/// Eight stages in four groups pass all items through.
#[test]
fn pipes(rt: HostRuntime) -> Result<(), Fail> {
    for (goal, passes, patience) in [
        (10_000, ANY_PASSES, 1_000),
        (100, ANY_PASSES, 1),
        (100, 1, 1),
    ] {
        let mut counters = Vec::new(rt.alloc());
        counters.push(AtomicU64::new(goal))?;
        for _ in 0..8 {
            counters.push(AtomicU64::new(0))?;
        }
        let mut groups = [
            two_stages(rt.alloc(), &counters, 1)?,
            two_stages(rt.alloc(), &counters, 3)?,
            two_stages(rt.alloc(), &counters, 5)?,
            two_stages(rt.alloc(), &counters, 7)?,
        ];
        rounds_to_rest(&rt, rt.alloc(), &mut groups, passes, patience);
        for count in &counters {
            assert_eq!(rt;
                count.load(Ordering::SeqCst),
                goal,
                "{passes} passes, patience {patience}"
            );
        }
    }
    Ok(())
}
