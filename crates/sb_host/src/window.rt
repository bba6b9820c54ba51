//! The slots that the transactions of a host take while they are under way.

ghost use Rattle.std.specs.Prelude.{◌≡◌, ◌≤◌, ◌<◌, ◌+◌, ℕ, List, true, length};
ghost use Rattle.sb_host.specs.declared.transaction_plan.TransactionPlan.{TransactionPlan};
ghost use Rattle.sb_host.specs.Windows.{IsWindow, slot_before, slots_taken, takes_slot, takes_slot_at};

use crate::script_plan::ScriptPlan;
use crate::transaction_plan::TransactionPlan;
use sb_packet::Kind;

/// So many transactions of a host that are answered from the network may be under way.
pub(crate) const WINDOW_SLOTS: usize = 64;

/// The last transactions that took a slot: at most 64 of those that the host has gone beyond.
#[derive(Clone, Copy, Debug, PartialEq, Eq)]
pub struct Window {
    /// The first of them, where there is one.
    pub oldest: usize,
    /// How many they are.
    pub taken: usize,
}

/// A transaction takes a slot: it is aimed at a device, and answered.
pub(crate) fn takes_slot(line: &TransactionPlan) -> bool
    ensures takes { result ≡ takes_slot line.now }
{
    line.aimed
        && match line.txn.kind {
            Kind::Read | Kind::Write | Kind::Atomic(_) => true,
            Kind::Posted => false,
        }
}

// the first transaction from a place on that takes a slot, where the one at `next` takes one
fn first_with_slot(script_plan: &ScriptPlan, from: usize, next: usize) -> usize
    requires next { next < length script_plan.now.lines.items }
    requires takes { takes_slot_at script_plan.now.lines.items next ≡ true }
    requires from { from ≤ next }
    ensures within { result ≤ next }
    ensures takes { takes_slot_at script_plan.now.lines.items result ≡ true }
    ensures same { slots_taken script_plan.now.lines.items result ≡ slots_taken script_plan.now.lines.items from }
{
    let mut place = from;
    while place < next && !takes_slot(&script_plan.lines[place]) {
        place += 1;
    }
    place
}

impl Window {
    /// No transaction took a slot.
    pub(crate) fn new() -> Window
        ensures window { (lines : List TransactionPlan) → IsWindow lines 0 result.oldest result.taken }
    {
        Window {
            oldest: 0,
            taken: 0,
        }
    }

    /// The transaction that took the slot which the next one takes, where one did.
    pub(crate) fn slot_before(&self) -> Option<usize>
        ensures before { (lines : List TransactionPlan) (n : ℕ) → IsWindow lines n self.now.oldest self.now.taken
            → slot_before lines n ≡ result }
    {
        if self.taken < WINDOW_SLOTS {
            None
        } else {
            Some(self.oldest)
        }
    }

    /// The host has gone beyond transaction `next`, which takes its slot where it takes one.
    pub(crate) fn go_beyond(&mut self, script_plan: &ScriptPlan, next: usize)
        requires next { next < length script_plan.now.lines.items }
        requires window { IsWindow script_plan.now.lines.items next self.old.oldest self.old.taken }
        ensures window { IsWindow script_plan.now.lines.items (next + 1) self.new.oldest self.new.taken }
    {
        if !takes_slot(&script_plan.lines[next]) {
            return;
        }
        if self.taken == WINDOW_SLOTS {
            self.oldest += 1;
        } else {
            self.taken += 1;
        }
        self.oldest = first_with_slot(script_plan, self.oldest, next);
    }
}
