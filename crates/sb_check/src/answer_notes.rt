//! What is noted of the answers to a host's transactions.

ghost use Rattle.std.specs.Prelude.{◌≡◌, ◌≤◌, ◌<◌, ◌+◌, All, IfOk, length, map, set, slice_index_or, vec_len};
ghost use Rattle.sb_packet.specs.Memories.{overwritten};
ghost use Rattle.sb_packet.specs.Scripts.{IsTransaction};
ghost use Rattle.sb_flow.specs.NetworkOf.{network_of};
ghost use Rattle.sb_check.specs.AnswerNotes.{NotedAnswers, first_noted, noted_outcome, with_reply};

use crate::answer_note::{AnswerNote, first_note, noted_state};
use sb_flow::Bundle;
use sb_packet::{Txn, TxnState};
use std::alloc::{AllocError, Global};
use std::marker::Model;

/// What is noted of the answers to the transactions of a host, in the order of its script.
#[derive(Drop)]
pub struct AnswerNotes {
    notes: Vec<AnswerNote>,
    bytes: Vec<u8>,
}

impl Model for AnswerNotes {
    ghost use Rattle.std.specs.Prelude.{List, map};
    ghost use Rattle.sb_check.specs.AnswerNotes.{AreLaidOut, NotedAnswers, noted_in};

    ghost Value = { List NotedAnswers };

    ghost view = { λ a. map (noted_in a.bytes.items) a.notes.items };

    ghost invariant = { λ a. AreLaidOut a.bytes.items a.notes.items };
}

/// Puts a piece in place of what stands there.
fn put(bytes: &mut Vec<u8>, place: usize, piece: &[u8])
    requires fits { place + length piece.now ≤ vec_len bytes.old }
    ensures items { bytes.new.items ≡ overwritten bytes.old.items place piece.now }
    ensures len { vec_len bytes.new ≡ vec_len bytes.old }
{
    bytes[place..place + piece.len()].copy_from_slice(piece);
}

impl AnswerNotes {
    /// What is noted before any entry: nothing but the answers to transactions at no device. All memory is taken here.
    ///
    /// # Errors
    ///
    /// `AllocError` where there isn't enough memory.
    pub fn new(alloc: Global, bundle: &Bundle, script: &[Txn]) -> Result<AnswerNotes, AllocError>
        requires transactions { All IsTransaction script.now }
        requires few { length script.now ≤ 65536 }
        ensures first { IfOk result (λ a. a ≡ map (first_noted (network_of bundle.now)) script.now) }
    {
        let mut notes = Vec::with_capacity(alloc, script.len())?;
        let mut end = 0;
        for txn in script {
            let note = first_note(bundle, txn, end);
            end = note.limit;
            notes.push_reserved(note);
        }
        let bytes = vec![in alloc; 0; end as usize]?;
        Ok(AnswerNotes { notes, bytes })
    }

    /// Notes one answer more to a transaction, with its code's number and its bytes. Takes no memory.
    pub fn note(&mut self, index: usize, code: u8, bytes: &[u8])
        requires there { index < length self.old }
        requires room { (none : NotedAnswers) × length bytes.now ≤ (slice_index_or self.old index none).room }
        ensures noted { (none : NotedAnswers)
            → self.new ≡ set self.old index (with_reply (slice_index_or self.old index none) code bytes.now) }
    {
        let note = &mut self.notes[index];
        let place = note.end as usize;
        note.code = note.code.max(code);
        note.end += bytes.len() as u32;
        put(&mut self.bytes, place, bytes);
    }

    /// How far a transaction came.
    pub fn state(&self, index: usize) -> TxnState
        requires there { index < length self.now }
        ensures state { (none : NotedAnswers) → (noted_outcome (slice_index_or self.now index none)).state ≡ result }
    {
        noted_state(&self.notes[index])
    }

    /// The bytes that were answered to it; none where it is posted.
    pub fn body(&self, index: usize) -> &[u8]
        requires there { index < length self.now }
        ensures body { (none : NotedAnswers) → (noted_outcome (slice_index_or self.now index none)).body ≡ result.now }
    {
        let note = &self.notes[index];
        let end = if note.posted { note.start } else { note.end };
        &self.bytes[note.start as usize..end as usize]
    }
}
