//! What became of each transaction of a script.

ghost use Rattle.std.specs.Prelude.{◌≡◌, ◌≤◌, ◌<◌, ◌+◌, ◌-◌, ◌++◌, [], ◌∷◌, length, replicate, slice_index_or, IfOk};
ghost use Rattle.sb_packet.specs.Answers.{Outcome};

use sb_packet::TxnState;
use std::alloc::{AllocError, Global};
use std::marker::Model;

/// Where the body of an outcome stands.
#[derive(Clone, Copy, Debug, PartialEq, Eq)]
struct Row {
    state: TxnState,
    start: usize,
    end: usize,
}

/// The outcomes of a script's transactions so far, and the bytes that were answered to the next one. It has room for
/// so many more outcomes and bytes, which take no memory.
#[derive(Drop)]
pub struct Outcomes {
    rows: Vec<Row>,
    bytes: Vec<u8>,
    start: usize,
    spare_rows: usize,
    spare_bytes: usize,
}

impl Model for Outcomes {
    ghost use Rattle.std.specs.Prelude.{◌≤◌, ◌+◌, drop, map, vec_len, vec_capacity};
    ghost use Rattle.std.specs.List.{AllByRecursion};
    ghost use Rattle.sb_solo.specs.Rows.{Collected, EndsBy, outcome_in};

    ghost Value = { Collected };

    ghost view = { λ o. record {
      outcomes = map (outcome_in o.bytes.items) o.rows.items;
      next = drop o.start o.bytes.items;
      spare_rows = o.spare_rows;
      spare_bytes = o.spare_bytes;
    } };

    ghost invariant = { λ o. (vec_len o.rows + o.spare_rows ≤ vec_capacity o.rows)
        × (vec_len o.bytes + o.spare_bytes ≤ vec_capacity o.bytes)
        × (o.start ≤ vec_len o.bytes)
        × AllByRecursion (EndsBy o.start) o.rows.items };
}

impl Outcomes {
    /// No outcome yet, and room for so many outcomes and bytes.
    pub fn new(alloc: Global, rows: usize, bytes: usize) -> Result<Outcomes, AllocError>
        ensures { IfOk result (λ o. o ≡ record { outcomes = []; next = []; spare_rows = rows; spare_bytes = bytes }) }
    {
        Ok(Outcomes {
            rows: Vec::with_capacity(alloc, rows)?,
            bytes: Vec::with_capacity(alloc, bytes)?,
            start: 0,
            spare_rows: rows,
            spare_bytes: bytes,
        })
    }

    /// Puts bytes behind those that were answered to the next transaction.
    pub fn add(&mut self, bytes: &[u8])
        requires { length bytes.now ≤ self.old.spare_bytes }
        ensures { self.new ≡ record self.old { next = self.old.next ++ bytes.now; spare_bytes = self.old.spare_bytes - length bytes.now } }
    {
        self.bytes.extend_from_slice(bytes).unwrap();
        self.spare_bytes -= bytes.len();
    }

    /// Puts so many zeros there.
    pub fn add_zeros(&mut self, count: usize)
        requires { count ≤ self.old.spare_bytes }
        ensures { self.new ≡ record self.old { next = self.old.next ++ replicate count 0; spare_bytes = self.old.spare_bytes - count } }
    {
        let end = self.bytes.len() + count;
        self.bytes.resize(end, 0).unwrap();
        self.spare_bytes -= count;
    }

    /// The next transaction came to this, with the bytes that were answered to it.
    pub fn finish(&mut self, state: TxnState)
        requires { 0 < self.old.spare_rows }
        ensures { self.new ≡ record self.old {
          outcomes = self.old.outcomes ++ record { state = state; body = self.old.next } ∷ [];
          next = [];
          spare_rows = self.old.spare_rows - 1;
        } }
    {
        let end = self.bytes.len();
        self.rows.push_reserved(Row {
            state,
            start: self.start,
            end,
        });
        self.start = end;
        self.spare_rows -= 1;
    }

    /// How many transactions came to something.
    pub fn len(&self) -> usize
        ensures { result ≡ length self.now.outcomes }
    {
        self.rows.len()
    }

    /// What a transaction came to.
    pub fn state(&self, index: usize) -> TxnState
        requires { index < length self.now.outcomes }
        ensures { (none : Outcome) → (slice_index_or self.now.outcomes index none).state ≡ result }
    {
        self.rows[index].state
    }

    /// The bytes that were answered to it.
    pub fn body(&self, index: usize) -> &[u8]
        requires { index < length self.now.outcomes }
        ensures { (none : Outcome) → (slice_index_or self.now.outcomes index none).body ≡ result.now }
    {
        let row = &self.rows[index];
        &self.bytes[row.start..row.end]
    }
}
