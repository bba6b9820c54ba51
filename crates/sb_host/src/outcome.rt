//! What has become of a transaction, by what is kept of its answers.

ghost use Rattle.std.specs.Prelude.{◌≡◌};
ghost use Rattle.sb_packet.specs.Answers.{code_numbered};
ghost use Rattle.sb_packet.specs.declared.transaction.TxnState.TheVariants as states;
ghost use Rattle.sb_host.specs.Rows.{is_settled, kept_outcome, settled_code};

use crate::answer_row::AnswerRow;
use crate::transaction_plan::TransactionPlan;
use sb_packet::{Code, Kind, TxnState};

// a transaction is answered: all its words are, or no device has its address, and the host has passed over it
fn settled(aimed: bool, row: &AnswerRow, passed: bool) -> bool
    ensures { result ≡ is_settled aimed passed row.now }
{
    if aimed { row.missing == 0 } else { passed }
}

// the code of a transaction that is answered
fn code(aimed: bool, row: &AnswerRow) -> Code
    ensures { result ≡ code_numbered (settled_code aimed row.now) }
{
    if aimed {
        Code::numbered(row.code)
    } else {
        Code::NetErr
    }
}

/// How far a transaction has come; `passed` says that the host has come beyond it.
pub(crate) fn state_of(line: &TransactionPlan, row: &AnswerRow, passed: bool) -> TxnState
    ensures { result ≡ (kept_outcome line.now.txn.kind line.now.aimed passed row.now).state }
{
    match line.txn.kind {
        Kind::Posted => TxnState::Posted,
        Kind::Read | Kind::Write | Kind::Atomic(_) => {
            if settled(line.aimed, row, passed) {
                TxnState::Answered {
                    code: code(line.aimed, row),
                }
            } else {
                TxnState::Waiting
            }
        }
    }
}

/// The bytes that were answered to it, none where it isn't answered.
pub(crate) fn body_of<'a>(line: &TransactionPlan, row: &'a AnswerRow, passed: bool) -> &'a [u8]
    ensures { result.now ≡ (kept_outcome line.now.txn.kind line.now.aimed passed row.now).body }
{
    match line.txn.kind {
        Kind::Posted => &row.body[..0],
        Kind::Read | Kind::Write | Kind::Atomic(_) => {
            if settled(line.aimed, row, passed) {
                row.body.as_slice()
            } else {
                &row.body[..0]
            }
        }
    }
}
