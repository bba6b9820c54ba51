//! What is noted of the answers to one transaction.

ghost use Rattle.std.specs.Prelude.{◌≡◌, ◌≤◌, ◌+◌, ◌*◌, ◌^◌, ℕ, List, replicate};
ghost use Rattle.sb_packet.specs.Scripts.{IsTransaction};
ghost use Rattle.sb_flow.specs.NetworkOf.{network_of};
ghost use Rattle.sb_check.specs.AnswerNotes.{IsInRoom, first_noted, is_posted as posted_kind, noted_in, noted_outcome, unreached_noted};

use sb_flow::{Bundle, target};
use sb_packet::{Code, Kind, Txn, TxnState, words_span};

/// What is noted of the answers to one transaction. Their bytes lie among those of all transactions of the host.
#[derive(Clone, Copy, Debug)]
pub struct AnswerNote {
    /// Nothing answers it.
    pub posted: bool,
    /// The greatest code of its answers so far, by its number.
    pub code: u8,
    /// The place of the first byte.
    pub start: u32,
    /// The place behind the last byte that was answered.
    pub end: u32,
    /// The place behind the last byte that can be answered.
    pub limit: u32,
}

/// Whether a transaction is a write that nobody answers.
fn is_posted(kind: Kind) -> bool
    ensures posted { result ≡ posted_kind kind }
{
    match kind {
        Kind::Posted => true,
        Kind::Read | Kind::Write | Kind::Atomic(_) => false,
    }
}

/// The answers to a transaction at no device, whose bytes have room from one place to another.
fn unreached(kind: Kind, start: u32, limit: u32) -> AnswerNote
    requires order { start ≤ limit }
    ensures start { result.start ≡ start }
    ensures limit { result.limit ≡ limit }
    ensures room { IsInRoom result }
    ensures noted { (n span : ℕ) → limit ≤ n → start + span ≡ limit
        → noted_in (replicate n 0) result ≡ unreached_noted kind span }
{
    let code = Code::NetErr.number();
    let (posted, code, end) = match kind {
        Kind::Read | Kind::Atomic(_) => (false, code, limit),
        Kind::Write => (false, code, start),
        Kind::Posted => (true, 0, start),
    };
    AnswerNote {
        posted,
        code,
        start,
        end,
        limit,
    }
}

/// What is noted of a transaction before any entry, where the room for its bytes begins at `start`. All bytes are zeros.
pub fn first_note(bundle: &Bundle, txn: &Txn, start: u32) -> AnswerNote
    requires txn { IsTransaction txn.now }
    requires low { start ≤ 2 ^ 31 }
    ensures start { result.start ≡ start }
    ensures limit { result.limit ≡ start + txn.now.count * 2 ^ txn.now.size }
    ensures short { result.limit ≤ start + 2048 }
    ensures room { IsInRoom result }
    ensures noted { (n : ℕ) → result.limit ≤ n → noted_in (replicate n 0) result ≡ first_noted (network_of bundle.now) txn.now }
{
    let limit = start + words_span(txn.size, u32::from(txn.count));
    match target(bundle, txn.addr) {
        None => unreached(txn.kind, start, limit),
        Some(_) => AnswerNote {
            posted: is_posted(txn.kind),
            code: 0,
            start,
            end: start,
            limit,
        },
    }
}

/// What the transaction came to, by its answers so far.
pub fn noted_state(note: &AnswerNote) -> TxnState
    ensures state { (bytes : List ℕ) → (noted_outcome (noted_in bytes note.now)).state ≡ result }
{
    if note.posted {
        TxnState::Posted
    } else {
        TxnState::Answered {
            code: Code::numbered(note.code),
        }
    }
}
