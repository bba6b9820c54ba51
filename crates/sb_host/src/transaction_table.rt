//! The answers to all transactions of a host.

ghost use Rattle.std.specs.Prelude.{◌≡◌, ◌≤◌, ◌<◌, ◌+◌, ◌*◌, ◌^◌, ◌++◌, [], ◌∷◌, List, IfOk, None, length, replicate, slice_index_or};
ghost use Rattle.sb_packet.specs.Accesses.{Access, access_at, accesses_of};
ghost use Rattle.sb_packet.specs.Messages.{message_of};
ghost use Rattle.sb_packet.specs.Spans.{word_count_of};
ghost use Rattle.sb_host.specs.Places.{asked_of};
ghost use Rattle.sb_packet.specs.Answers.{Outcome};
ghost use Rattle.sb_packet.specs.Scripts.{IsTransaction};
ghost use Rattle.sb_host.specs.Outcomes.{outcomes_so_far};
ghost use Rattle.sb_host.specs.Rows.{IsRow, IsTable, answer_width};

use crate::answer_row::AnswerRow;
use crate::outcome::{body_of, state_of};
use crate::place::place_of;
use crate::script_plan::ScriptPlan;
use crate::transaction_plan::TransactionPlan;
use sb_packet::{Kind, Packet, TxnState, carried, word_count, words_span};
use std::alloc::{AllocError, Global};

/// The answers to the transactions of a host, one row for each.
#[derive(Drop)]
pub struct TransactionTable {
    pub rows: Vec<AnswerRow>,
}

// the bytes of a word of a packet, none where it carries none
fn share(packet: &Packet, word: u32) -> &[u8]
    requires word { word < word_count_of packet.now.cmd }
    ensures share { result.now ≡ (access_at (message_of packet.now) word).bytes }
{
    let bytes = carried(packet);
    let start = words_span(packet.cmd.size, word) as usize;
    let end = words_span(packet.cmd.size, word + 1) as usize;
    &bytes[start.min(bytes.len())..end.min(bytes.len())]
}

// how many bytes the answer to a word carries
fn answer_width(line: &TransactionPlan) -> usize
    requires size { line.now.txn.size ≤ 3 }
    ensures width { result ≡ answer_width line.now }
    ensures few { result ≤ 8 }
{
    match line.txn.kind {
        Kind::Read | Kind::Atomic(_) => words_span(line.txn.size, 1) as usize,
        Kind::Write | Kind::Posted => 0,
    }
}

// no answer to the words of a transaction
fn empty_row(alloc: Global, line: &TransactionPlan) -> Result<AnswerRow, AllocError>
    requires transaction { IsTransaction line.now.txn }
    ensures row { IfOk result (λ row. IsRow (answer_width line.now) (replicate line.now.txn.count None) row) }
{
    AnswerRow::new(alloc, usize::from(line.txn.count), answer_width(line))
}

impl TransactionTable {
    /// No answer to any transaction. All memory that the table will ever need is taken here.
    ///
    /// # Errors
    ///
    /// `AllocError` where there isn't enough memory.
    pub fn new(alloc: Global, script_plan: &ScriptPlan) -> Result<TransactionTable, AllocError>
        ensures empty { IfOk result (λ table. IsTable (asked_of script_plan.now) [] table.rows.items) }
    {
        let mut rows = Vec::with_capacity(alloc, script_plan.lines.len())?;
        for line in &script_plan.lines {
            rows.push(empty_row(alloc, line)?)?;
        }
        Ok(TransactionTable { rows })
    }

    /// How far a transaction has come, where the host has come to transaction `next`.
    pub fn state(&self, script_plan: &ScriptPlan, next: usize, index: usize) -> TxnState
        requires index { index < length script_plan.now.lines.items }
        requires rows { length self.now.rows.items ≡ length script_plan.now.lines.items }
        ensures state { (received : List Access) (none : Outcome) → IsTable (asked_of script_plan.now) received self.now.rows.items
            → (slice_index_or (outcomes_so_far (asked_of script_plan.now) received next) index none).state ≡ result }
    {
        state_of(&script_plan.lines[index], &self.rows[index], index < next)
    }

    /// The bytes that were answered to it; none where it isn't answered.
    pub fn body(&self, script_plan: &ScriptPlan, next: usize, index: usize) -> &[u8]
        requires index { index < length script_plan.now.lines.items }
        requires rows { length self.now.rows.items ≡ length script_plan.now.lines.items }
        ensures body { (received : List Access) (none : Outcome) → IsTable (asked_of script_plan.now) received self.now.rows.items
            → (slice_index_or (outcomes_so_far (asked_of script_plan.now) received next) index none).body ≡ result.now }
    {
        body_of(&script_plan.lines[index], &self.rows[index], index < next)
    }

    // one word of an answer is taken where it answers a word that misses its answer, and dropped elsewhere
    fn take_word(&mut self, script_plan: &ScriptPlan, packet: &Packet, word: u32)
        requires word { word < word_count_of packet.now.cmd }
        requires table { (received : List Access) × IsTable (asked_of script_plan.now) received self.old.rows.items }
        ensures taken { (received : List Access) → IsTable (asked_of script_plan.now) received self.old.rows.items
            → IsTable (asked_of script_plan.now) (received ++ access_at (message_of packet.now) word ∷ []) self.new.rows.items }
        ensures rows { length self.new.rows.items ≡ length self.old.rows.items }
    {
        let size = packet.cmd.size;
        let address = packet.dst + u64::from(words_span(size, word));
        let Some(place) = place_of(script_plan, packet.cmd.op, size, address) else {
            return;
        };
        let row = &mut self.rows[place.line];
        row.take(place.word, packet.cmd.tail, share(packet, word));
    }

    /// Takes each word of an answer that answers a word of a script which misses its answer, and drops the others.
    pub fn take(&mut self, script_plan: &ScriptPlan, packet: &Packet)
        requires table { (received : List Access) × IsTable (asked_of script_plan.now) received self.old.rows.items }
        ensures taken { (received : List Access) → IsTable (asked_of script_plan.now) received self.old.rows.items
            → IsTable (asked_of script_plan.now) (received ++ accesses_of packet.now) self.new.rows.items }
        ensures rows { length self.new.rows.items ≡ length self.old.rows.items }
    {
        for word in 0..word_count(&packet.cmd) {
            self.take_word(script_plan, packet, word);
        }
    }
}
