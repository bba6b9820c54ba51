//! The run of a script against one memory.

ghost use Rattle.std.specs.Prelude.{◌≡◌, ◌≤◌, ◌<◌, ◌+◌, ◌-◌, ◌*◌, ◌^◌, ◌++◌, [], ◌∷◌, All, IfOk, IsTrue, OnErr, OnOk, length, map, true};
ghost use Rattle.sb_packet.specs.Accesses.{accesses_of};
ghost use Rattle.sb_packet.specs.Answers.{answer_body, answer_code, outcome_of};
ghost use Rattle.sb_packet.specs.Cuts.{transaction_packets};
ghost use Rattle.sb_packet.specs.Journals.{is_request, with_entry};
ghost use Rattle.sb_packet.specs.Memories.{answers_to, memory_after};
ghost use Rattle.sb_packet.specs.Networks.{has_address};
ghost use Rattle.sb_packet.specs.Scripts.{transaction_accesses, IsTransaction};
ghost use Rattle.sb_solo.specs.Solo.{IsSoloJournal, aimed_packets, entry_messages, solo_device, solo_host};
ghost use Rattle.sb_solo.specs.SoloRuns.{solo_answers, solo_memory_from, solo_opening, solo_outcomes_from, solo_step};
ghost use Rattle.sb_mem.specs.AnswerPackets.{IsInRange};
ghost use Rattle.sb_solo.specs.Steps.{answer_room_in, answer_room_of, entries_in, entries_of, lost_outcome, packet_answers, state_by, IsFirstRound};

use crate::bundle::PAGES;
use crate::outcomes::Outcomes;
use sb_mem::{Memory, serve};
use sb_packet::{
    BODY_BYTES, Code, Entry, Journal, Kind, PAGE_BYTES, Packet, Txn, TxnState, carried, packet_of,
    packets, words_span,
};
use sb_text::Results;
use std::alloc::{AllocError, Global};

const MEMORY_BYTES: u64 = PAGES as u64 * PAGE_BYTES;

/// Whether a transaction is aimed at the memory.
fn is_aimed(txn: &Txn) -> bool
    ensures { result ≡ has_address txn.now.addr solo_device }
{
    txn.addr < MEMORY_BYTES
}

/// Serves a packet, and keeps the bytes of its answer. It gives the answer's code, and 0 where there is none.
fn step(memory: &mut Memory, journal: &mut Journal, outcomes: &mut Outcomes, packet: &Packet) -> u8
    requires request { IsTrue (is_request packet.now.cmd.op) }
    requires within { IsInRange memory.old packet.now }
    requires spare { 0 < journal.old.spare }
    requires room { 32 ≤ outcomes.old.spare_bytes }
    ensures code { result ≡ answer_code (packet_answers memory.old packet.now) }
    ensures body { outcomes.new ≡ record outcomes.old {
      next = outcomes.old.next ++ answer_body (packet_answers memory.old packet.now);
      spare_bytes = outcomes.old.spare_bytes - length (answer_body (packet_answers memory.old packet.now));
    } }
    ensures short { length (answer_body (packet_answers memory.old packet.now)) ≤ 32 }
    ensures journal { journal.new ≡ with_entry journal.old (record { round = 0; device = 0; packet = packet.now }) }
    ensures memory { memory.new ≡ memory_after memory.old (accesses_of packet.now) }
    ensures base { memory.new.base ≡ memory.old.base }
    ensures size { length memory.new.bytes ≡ length memory.old.bytes }
{
    let entry = Entry {
        round: 0,
        device: 0,
        packet: *packet,
    };
    match serve(memory, journal, &entry) {
        None => 0,
        Some(answer) => {
            outcomes.add(carried(&answer));
            answer.cmd.tail
        }
    }
}

/// How many bytes a transaction speaks of.
fn transaction_span(txn: &Txn) -> usize
    requires { IsTransaction txn.now }
    ensures span { result ≡ txn.now.count * 2 ^ txn.now.size }
    ensures short { result ≤ 2048 }
{
    words_span(txn.size, u32::from(txn.count)) as usize
}

/// A transaction that is aimed at no device is answered with zeros, or dropped where it is posted.
fn lose(outcomes: &mut Outcomes, txn: &Txn)
    requires rows { 0 < outcomes.old.spare_rows }
    requires room { txn.now.count * 2 ^ txn.now.size ≤ outcomes.old.spare_bytes }
    requires txn { IsTransaction txn.now }
    requires next { outcomes.old.next ≡ [] }
    ensures outcomes { outcomes.new.outcomes ≡ outcomes.old.outcomes ++ lost_outcome txn.now.kind (txn.now.count * 2 ^ txn.now.size) ∷ [] }
    ensures next { outcomes.new.next ≡ [] }
    ensures rows { outcomes.new.spare_rows ≡ outcomes.old.spare_rows - 1 }
    ensures room { outcomes.old.spare_bytes ≤ outcomes.new.spare_bytes + txn.now.count * 2 ^ txn.now.size }
{
    let lost = TxnState::Answered { code: Code::NetErr };
    match txn.kind {
        Kind::Posted => outcomes.finish(TxnState::Posted),
        Kind::Write => outcomes.finish(lost),
        Kind::Read | Kind::Atomic(_) => {
            outcomes.add_zeros(transaction_span(txn));
            outcomes.finish(lost);
        }
    }
}

fn state_of(kind: Kind, code: u8) -> TxnState
    ensures { result ≡ state_by kind code }
{
    match kind {
        Kind::Posted => TxnState::Posted,
        Kind::Read | Kind::Write | Kind::Atomic(_) => TxnState::Answered {
            code: Code::numbered(code),
        },
    }
}

/// Steps the memory by each packet of a transaction that is aimed at it.
fn issue(memory: &mut Memory, journal: &mut Journal, outcomes: &mut Outcomes, index: u32, txn: &Txn)
    requires txn { IsTransaction txn.now }
    requires inside { txn.now.addr + txn.now.count * 2 ^ txn.now.size ≤ 65536 }
    requires index { index < 65536 }
    requires base { memory.old.base ≡ 0 }
    requires size { length memory.old.bytes ≡ 65536 }
    requires first { All IsFirstRound journal.old.entries }
    requires spare { length (transaction_packets (solo_host []) 0 txn.now) ≤ journal.old.spare }
    requires rows { 0 < outcomes.old.spare_rows }
    requires room { 32 * length (transaction_packets (solo_host []) 0 txn.now) ≤ outcomes.old.spare_bytes }
    requires next { outcomes.old.next ≡ [] }
    ensures memory { memory.new ≡ memory_after memory.old (transaction_accesses (solo_host []) index txn.now) }
    ensures base { memory.new.base ≡ 0 }
    ensures size { length memory.new.bytes ≡ 65536 }
    ensures packets { entry_messages journal.new.entries
        ≡ entry_messages journal.old.entries ++ transaction_packets (solo_host []) index txn.now }
    ensures first { All IsFirstRound journal.new.entries }
    ensures spare { journal.old.spare ≡ journal.new.spare + length (transaction_packets (solo_host []) 0 txn.now) }
    ensures outcomes { outcomes.new.outcomes ≡ outcomes.old.outcomes
        ++ outcome_of txn.now.kind (answers_to memory.old (transaction_accesses (solo_host []) index txn.now)) ∷ [] }
    ensures next { outcomes.new.next ≡ [] }
    ensures rows { outcomes.new.spare_rows ≡ outcomes.old.spare_rows - 1 }
    ensures room { outcomes.old.spare_bytes ≤ outcomes.new.spare_bytes + 32 * length (transaction_packets (solo_host []) 0 txn.now) }
{
    let count = packets(txn, BODY_BYTES as u8);
    let mut code = 0;
    for k in 0..count {
        let packet = packet_of(0, 0, 0, index, txn, BODY_BYTES as u8, k);
        code = step(memory, journal, outcomes, &packet).max(code);
    }
    outcomes.finish(state_of(txn.kind, code));
}

/// Does one transaction of a script.
fn perform(
    memory: &mut Memory,
    journal: &mut Journal,
    outcomes: &mut Outcomes,
    index: u32,
    txn: &Txn,
)
    requires txn { IsTransaction txn.now }
    requires index { index < 65536 }
    requires base { memory.old.base ≡ 0 }
    requires size { length memory.old.bytes ≡ 65536 }
    requires first { All IsFirstRound journal.old.entries }
    requires spare { entries_of txn.now ≤ journal.old.spare }
    requires rows { 0 < outcomes.old.spare_rows }
    requires room { answer_room_of txn.now ≤ outcomes.old.spare_bytes }
    requires next { outcomes.old.next ≡ [] }
    ensures memory { memory.new ≡ solo_step [] index memory.old txn.now }
    ensures base { memory.new.base ≡ 0 }
    ensures size { length memory.new.bytes ≡ 65536 }
    ensures packets { entry_messages journal.new.entries ≡ entry_messages journal.old.entries ++ aimed_packets [] index txn.now }
    ensures first { All IsFirstRound journal.new.entries }
    ensures spare { journal.old.spare ≡ journal.new.spare + entries_of txn.now }
    ensures outcomes { outcomes.new.outcomes
        ≡ outcomes.old.outcomes ++ outcome_of txn.now.kind (solo_answers [] index memory.old txn.now) ∷ [] }
    ensures next { outcomes.new.next ≡ [] }
    ensures rows { outcomes.new.spare_rows ≡ outcomes.old.spare_rows - 1 }
    ensures room { outcomes.old.spare_bytes ≤ outcomes.new.spare_bytes + answer_room_of txn.now }
{
    if is_aimed(txn) {
        issue(memory, journal, outcomes, index, txn);
    } else {
        lose(outcomes, txn);
    }
}

/// The room that a script needs.
#[derive(Clone, Copy, Debug, PartialEq, Eq)]
struct Room {
    /// Entries of the journal.
    entries: u32,
    /// Bytes of answers.
    bytes: usize,
}

/// The room that one transaction needs.
fn room_of(txn: &Txn) -> Room
    requires { IsTransaction txn.now }
    ensures entries { result.entries ≡ entries_of txn.now }
    ensures bytes { result.bytes ≡ answer_room_of txn.now }
    ensures few { result.entries ≤ 64 }
    ensures short { result.bytes ≤ 2048 }
{
    if is_aimed(txn) {
        let entries = packets(txn, BODY_BYTES as u8);
        Room {
            entries,
            bytes: BODY_BYTES * entries as usize,
        }
    } else {
        Room {
            entries: 0,
            bytes: transaction_span(txn),
        }
    }
}

/// The room that all transactions need.
fn room_in(script: &[Txn]) -> Room
    requires transactions { All IsTransaction script.now }
    requires few { length script.now ≤ 65536 }
    ensures entries { result.entries ≡ entries_in script.now }
    ensures bytes { result.bytes ≡ answer_room_in script.now }
{
    let mut room = Room {
        entries: 0,
        bytes: 0,
    };
    for txn in script {
        let more = room_of(txn);
        room.entries += more.entries;
        room.bytes += more.bytes;
    }
    room
}

/// What the run of a script comes to.
#[derive(Drop)]
pub struct ScriptRun {
    pub outcomes: Outcomes,
    pub memory: Memory,
}

#[tactic(auto, unfolding(crate::specs::SoloRuns::solo_opening))]
fn new_memory(alloc: Global) -> Result<Memory, AllocError>
    ensures opening { IfOk result (λ m. m ≡ solo_opening) }
    ensures base { IfOk result (λ m. m.base ≡ 0) }
    ensures size { IfOk result (λ m. length m.bytes ≡ 65536) }
{
    Memory::new(alloc, 0, PAGES, false, &[])
}

/// Runs a script against a new memory. It takes all its memory before the first step; where some is missing, the journal
/// has no entry.
pub fn run_script(
    alloc: Global,
    script: &[Txn],
    journal: &mut Journal,
) -> Result<ScriptRun, AllocError>
    requires transactions { All IsTransaction script.now }
    requires few { length script.now ≤ 65536 }
    requires empty { journal.old.entries ≡ [] }
    ensures journal { OnOk result (IsSoloJournal script.now journal.new.entries) }
    ensures outcomes { IfOk result (λ run. run.outcomes.outcomes ≡ solo_outcomes_from script.now 0 solo_opening script.now) }
    ensures memory { IfOk result (λ run. run.memory ≡ solo_memory_from script.now 0 solo_opening script.now) }
    ensures size { IfOk result (λ run. length run.memory.bytes ≡ 65536) }
    ensures err { OnErr result (journal.new.entries ≡ []) }
{
    let room = room_in(script);
    let mut memory = new_memory(alloc)?;
    let mut outcomes = Outcomes::new(alloc, script.len(), room.bytes)?;
    journal.reserve(room.entries)?;
    for (index, txn) in script.iter().enumerate() {
        perform(&mut memory, journal, &mut outcomes, index as u32, txn);
    }
    Ok(ScriptRun { outcomes, memory })
}

impl Results for ScriptRun {
    ghost use Rattle.sb_solo.specs.SoloRuns.{TellsAlone};

    ghost tells = { λ run told. TellsAlone run told };

    fn state(&self, _host: u8, index: u32) -> TxnState {
        self.outcomes.state(index as usize)
    }

    fn body(&self, _host: u8, index: u32) -> &[u8] {
        self.outcomes.body(index as usize)
    }

    fn image(&self, _device: u8) -> &[u8] {
        self.memory.image()
    }
}
