//! What a node finds in its turn.

ghost use Rattle.std.specs.Prelude.{◌≡◌, ◌≢◌, false, true, None, Some, [], ◌∷◌};
ghost use Rattle.sb_link.specs.declared.answers.Cause.TheVariants as causes;
ghost use Rattle.sb_node.specs.Turns.{first_cause};
ghost use Rattle.sb_node.specs.Found.{IsTurnOf, or_else};

use sb_link::{Cause, Turn};

/// What a node finds in its turn, by which its answer is told: that it moved, and else why it didn't.
#[derive(Clone, Copy, Debug, PartialEq, Eq)]
pub struct Findings {
    /// Something was popped, offered, dropped, sent or let go.
    pub moved: bool,
    /// The first port that was full.
    pub full: Option<Cause>,
    /// What the node waits for itself, as a host for an answer, or a bridge for its wire: the first that was found.
    pub waits: Option<Cause>,
    /// The first ring that was empty.
    pub empty: Option<Cause>,
}

impl Findings {
    /// Nothing was found yet.
    pub fn new() -> Findings
        ensures { result ≡ record { moved = false; full = None; waits = None; empty = None } }
    {
        Findings {
            moved: false,
            full: None,
            waits: None,
            empty: None,
        }
    }

    /// The node moved.
    pub fn add_move(&mut self)
        ensures { self.new ≡ record self.old { moved = true } }
    {
        self.moved = true;
    }

    /// A port found its ring full.
    pub fn add_full(&mut self, ring: u16, sent: u32, taken: u32)
        ensures { self.new ≡ record self.old { full = or_else self.old.full (causes.Full ring sent taken) } }
    {
        self.full = self.full.or(Some(Cause::Full { ring, sent, taken }));
    }

    /// The node waits for something itself.
    pub fn add_wait(&mut self, cause: Cause)
        ensures { self.new ≡ record self.old { waits = or_else self.old.waits cause } }
    {
        self.waits = self.waits.or(Some(cause));
    }

    /// A ring was found empty.
    pub fn add_empty(&mut self, ring: u16, received: u32, sent: u32)
        ensures { self.new ≡ record self.old { empty = or_else self.old.empty (causes.Empty ring received sent) } }
    {
        self.empty = self.empty.or(Some(Cause::Empty {
            ring,
            received,
            sent,
        }));
    }

    /// What the turn answers: that the node moved, or else that it is done, or else the first cause.
    #[inline(always)]
    pub fn turn(&self, done: bool) -> Turn
        requires cause { self.now.moved ≡ false → done ≡ false
            → first_cause (self.now.full ∷ self.now.waits ∷ self.now.empty ∷ []) ≢ None }
        ensures { IsTurnOf self.now done result }
    {
        if self.moved {
            return Turn::Moved;
        }
        if done {
            return Turn::Done;
        }
        match self.full.or(self.waits).or(self.empty) {
            Some(cause) => Turn::Idle(cause),
            None => unreachable!(),
        }
    }
}
