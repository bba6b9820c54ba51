//! A host's transactions.

ghost use Rattle.std.specs.Prelude.{◌≡◌, ◌≤◌, ◌<◌, ◌+◌, ◌++◌, List, [], ◌∷◌, IfOk, true, false, length, slice_index_or};
ghost use Rattle.sb_packet.specs.Accesses.{Access, accesses_of};
ghost use Rattle.sb_packet.specs.Messages.{message_of};
ghost use Rattle.sb_packet.specs.Answers.{Outcome};
ghost use Rattle.sb_host.specs.Progress.{HasComeTo, IsNextAimed, left_of};
ghost use Rattle.sb_host.specs.Outcomes.{outcomes_so_far};
ghost use Rattle.sb_host.specs.Places.{asked_of};
ghost use Rattle.sb_host.specs.Rows.{IsTable};
ghost use Rattle.sb_host.specs.Windows.{begun_count, begun_slots, window_wait};

use crate::cursor::Cursor;
use crate::script_plan::ScriptPlan;
use crate::transaction_table::TransactionTable;
use crate::window::{Window, takes_slot};
use sb_packet::{Packet, TxnState};
use std::alloc::{AllocError, Global};
use std::marker::Model;

/// A host's transactions: what it asks for, how far it has come with that, and what was answered.
#[derive(Drop)]
pub struct Transactions {
    script_plan: ScriptPlan,
    cursor: Cursor,
    table: TransactionTable,
    window: Window,
    // the ring of answers gave Close
    ended: bool,
}

impl Model for Transactions {
    ghost use Rattle.std.specs.Prelude.{◌≡◌, length};
    ghost use Rattle.sb_host.specs.Progress.{TransactionsSide};

    ghost Value = { TransactionsSide };

    ghost use Rattle.sb_host.specs.Places.{asked_of};
    ghost use Rattle.sb_host.specs.Windows.{IsWindow};

    ghost view = { λ t.
        record { asked = asked_of t.script_plan; rows = t.table.rows.items; next = t.cursor.next; part = t.cursor.part; ended = t.ended } };

    // the table has a row for each transaction, and the window is that of all before the next one
    ghost invariant = { λ t. (length t.table.rows.items ≡ length t.script_plan.lines.items)
        × IsWindow t.script_plan.lines.items t.cursor.next t.window.oldest t.window.taken };
}

impl Transactions {
    /// Transactions of which nothing was issued or answered. All memory that they will ever need is taken here.
    ///
    /// # Errors
    ///
    /// `AllocError` where there isn't enough memory.
    pub(crate) fn new(alloc: Global, script_plan: ScriptPlan) -> Result<Transactions, AllocError>
        ensures fresh { IfOk result (λ t. t ≡ record { asked = asked_of script_plan; rows = t.rows; next = 0; part = 0; ended = false }) }
        ensures table { IfOk result (λ t. IsTable t.asked [] t.rows) }
    {
        let table = TransactionTable::new(alloc, &script_plan)?;
        Ok(Transactions {
            script_plan,
            cursor: Cursor { next: 0, part: 0 },
            table,
            window: Window::new(),
            ended: false,
        })
    }

    /// How many transactions there are.
    pub fn count(&self) -> usize
        ensures count { result ≡ length self.now.asked.lines }
    {
        self.script_plan.lines.len()
    }

    /// How far the transaction at that place of the script has come.
    pub fn state(&self, index: u32) -> TxnState
        requires index { index < length self.now.asked.lines }
        ensures state { (received : List Access) (none : Outcome) → IsTable self.now.asked received self.now.rows
            → (slice_index_or (outcomes_so_far self.now.asked received self.now.next) index none).state ≡ result }
    {
        self.table
            .state(&self.script_plan, self.cursor.next, index as usize)
    }

    /// The bytes that were answered to it; none where it isn't answered.
    pub fn body(&self, index: u32) -> &[u8]
        requires index { index < length self.now.asked.lines }
        ensures body { (received : List Access) (none : Outcome) → IsTable self.now.asked received self.now.rows
            → (slice_index_or (outcomes_so_far self.now.asked received self.now.next) index none).body ≡ result.now }
    {
        self.table
            .body(&self.script_plan, self.cursor.next, index as usize)
    }

    /// The ring of answers gave Close.
    pub(crate) fn ended(&self) -> bool
        ensures ended { result ≡ self.now.ended }
    {
        self.ended
    }

    /// Notes that the ring of answers gave Close.
    pub(crate) fn end(&mut self)
        ensures ended { self.new ≡ record self.old { ended = true } }
    {
        self.ended = true;
    }

    /// Takes each word of an answer that answers a word of a script which misses its answer, and drops the others.
    pub(crate) fn take(&mut self, answer: &Packet)
        requires table { (received : List Access) × IsTable self.old.asked received self.old.rows }
        ensures taken { (received : List Access) → IsTable self.old.asked received self.old.rows
            → IsTable self.old.asked (received ++ accesses_of answer.now) self.new.rows }
        ensures rest { self.new ≡ record self.old { rows = self.new.rows } }
    {
        self.table.take(&self.script_plan, answer);
    }

    /// A transaction is left whose packets aren't all issued.
    pub(crate) fn any_left(&self) -> bool
        ensures some { result ≡ true → self.now.next < length self.now.asked.lines }
        ensures none { result ≡ false → length self.now.asked.lines ≤ self.now.next }
    {
        self.cursor.next < self.script_plan.lines.len()
    }

    /// Passes over the transactions that are next and aimed at no device.
    pub(crate) fn pass_over(&mut self)
        requires come { HasComeTo self.old.asked self.old.next self.old.part }
        ensures come { HasComeTo self.new.asked self.new.next self.new.part }
        ensures onward { self.old.next ≤ self.new.next }
        ensures left { left_of self.new ≡ left_of self.old }
        ensures begun { begun_slots self.new ≡ begun_slots self.old }
        ensures aimed { IsNextAimed self.new }
        ensures rest { self.new ≡ record self.old { next = self.new.next } }
    {
        self.cursor.pass_over(&self.script_plan);
    }

    /// The transaction for which the next one waits, before its first packet: it took the same slot, and misses a word.
    pub(crate) fn waits_for(&self) -> Option<u32>
        ensures waits { result ≡ window_wait self.now }
    {
        let line = self.script_plan.lines.get(self.cursor.next)?;
        if self.cursor.part > 0 || !takes_slot(line) {
            return None;
        }
        let before = self.window.slot_before()?;
        if self.table.rows[before].missing == 0 {
            None
        } else {
            Some(before as u32)
        }
    }

    /// The next packet, of a transaction that is aimed at a device, and goes on behind it.
    pub(crate) fn issue(&mut self) -> Packet
        requires come { HasComeTo self.old.asked self.old.next self.old.part }
        requires some { self.old.next < length self.old.asked.lines }
        requires aimed { IsNextAimed self.old }
        ensures packet { left_of self.old ≡ message_of result ∷ left_of self.new }
        ensures come { HasComeTo self.new.asked self.new.next self.new.part }
        ensures onward { self.old.next ≤ self.new.next }
        ensures begun { begun_count self.new ≡ self.old.next + 1 }
        ensures rest { self.new ≡ record self.old { next = self.new.next; part = self.new.part } }
    {
        let next = self.cursor.next;
        let packet = self.cursor.issue(&self.script_plan);
        if self.cursor.next > next {
            self.window.go_beyond(&self.script_plan, next);
        }
        packet
    }
}
