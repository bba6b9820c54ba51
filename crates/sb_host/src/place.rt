//! Which word of a host's script a received word answers.

ghost use Rattle.std.specs.Prelude.{◌≡◌, ◌≤◌, ◌%◌, ◌*◌, ◌^◌, ℕ, IfSome, IfNone};
ghost use Rattle.sb_packet.specs.Scripts.{request_of};
ghost use Rattle.sb_host.specs.declared.transaction_plan.TransactionPlan.{TransactionPlan};
ghost use Rattle.sb_host.specs.Outcomes.{is_answered_by};
ghost use Rattle.sb_host.specs.Places.{IsPlace, asked_of};

use crate::script_plan::ScriptPlan;
use sb_packet::{Kind, Op};

/// Each transaction has so many addresses for its answers.
const REPLY_BYTES: u64 = 2048;

/// A word of a transaction, each by its place.
#[derive(Clone, Copy, Debug, PartialEq, Eq)]
pub(crate) struct Place {
    pub line: usize,
    pub word: usize,
}

// an opcode answers that kind of transaction
fn is_answer(kind: Kind, op: Op) -> bool
    ensures answer { result ≡ is_answered_by (request_of kind) op }
{
    match op {
        Op::RespRd => match kind {
            Kind::Read | Kind::Atomic(_) => true,
            Kind::Write | Kind::Posted => false,
        },
        Op::RespWr => match kind {
            Kind::Write => true,
            Kind::Read | Kind::Posted | Kind::Atomic(_) => false,
        },
        Op::ReqRd | Op::ReqWr | Op::ReqWrPosted | Op::ReqAtomic => false,
    }
}

// the first address at which a host is answered
fn first_address(id: u8) -> u64
    requires id { id ≤ 31 }
    ensures first { result ≡ id * 2 ^ 40 }
{
    u64::from(id) << 40
}

/// The word of a script that is answered by a word with that opcode and size, which came to that address.
pub(crate) fn place_of(script_plan: &ScriptPlan, op: Op, size: u8, address: u64) -> Option<Place>
    requires size { size ≤ 3 }
    requires range { address ≤ 2 ^ 56 }
    requires aligned { address % 2 ^ size ≡ 0 }
    ensures found { IfSome result (λ p. (l : TransactionPlan) × IsPlace (asked_of script_plan.now) op size address p.line p.word l) }
    ensures none { IfNone result ((i k : ℕ) (l : TransactionPlan) → IsPlace (asked_of script_plan.now) op size address i k l → ⊥) }
{
    let from = address.checked_sub(first_address(script_plan.id))?;
    let line = (from / REPLY_BYTES) as usize;
    if line >= script_plan.lines.len() {
        return None;
    }
    let wanted = &script_plan.lines[line];
    if !wanted.aimed || wanted.txn.size != size || !is_answer(wanted.txn.kind, op) {
        return None;
    }
    let word = ((from % REPLY_BYTES) >> size) as usize;
    if word >= usize::from(wanted.txn.count) {
        return None;
    }
    Some(Place { line, word })
}
