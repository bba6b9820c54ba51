//! One line of a script.

ghost use Rattle.std.specs.Prelude.{◌≡◌, ◌⊎◌, IfOk, IfErr, IfSome};
ghost use Rattle.std.specs.Str.Lines.{strip_carriage_return};
ghost use Rattle.sb_packet.specs.Scripts.{IsTransaction};
ghost use Rattle.sb_text.specs.Lines.{words_in_line};
ghost use Rattle.sb_text.specs.Sentences.{arguments_of, line_of, sentence_of};
ghost use Rattle.sb_text.specs.declared.line_fault.LineFault.TheVariants as faults;

use crate::line_fault::LineFault;
use crate::transaction::transaction;
use crate::verb::kind_of;
use crate::words::Words;
use sb_packet::{Kind, Txn};
use std::alloc::Global;

/// A transaction from the words behind its verb, which are to be three.
fn arguments(alloc: Global, kind: Kind, mut words: Words) -> Result<Txn, LineFault>
    ensures transaction { IfOk result IsTransaction }
    ensures value { IfOk result (λ txn. arguments_of kind (words_in_line words.entry.rest.now) ≡ Ok txn) }
    ensures first_fault { IfErr result (λ fault. (fault ≡ faults.Memory)
        ⊎ (arguments_of kind (words_in_line words.entry.rest.now) ≡ Err fault)) }
{
    let Some(addr) = words.next_word() else {
        return Err(LineFault::Number);
    };
    let Some(size) = words.next_word() else {
        return Err(LineFault::Number);
    };
    let Some(last) = words.next_long_word() else {
        return Err(LineFault::Number);
    };
    match words.next_word() {
        None => transaction(alloc, kind, addr, size, last),
        Some(_) => Err(LineFault::Number),
    }
}

/// What words say that aren't a comment's; nothing, where there are none.
fn sentence(alloc: Global, mut words: Words) -> Result<Option<Txn>, LineFault>
    ensures transaction { IfOk result (λ txn. IfSome txn IsTransaction) }
    ensures value { IfOk result (λ txn. sentence_of (words_in_line words.entry.rest.now) ≡ Ok txn) }
    ensures first_fault { IfErr result (λ fault. (fault ≡ faults.Memory) ⊎ (sentence_of (words_in_line words.entry.rest.now) ≡ Err fault)) }
{
    match words.next_word() {
        None => Ok(None),
        Some(verb) => {
            let kind = kind_of(verb).ok_or(LineFault::Verb)?;
            Ok(Some(arguments(alloc, kind, words)?))
        }
    }
}

/// A line without the carriage return at its end, if it has one.
fn without_carriage_return(line: &[u8]) -> &[u8]
    ensures { result.now ≡ strip_carriage_return line.now }
{
    match line {
        [rest @ .., b'\r'] => rest,
        _ => line,
    }
}

/// Reads one line of a script, with or without a carriage return at its end: this project's own form.
///
/// None says that the line is blank or a comment. An error is the first fault of the line, or `LineFault::Memory`
/// where memory was missing. Memory is taken only for the body of a transaction.
pub fn read_line(alloc: Global, line: &[u8]) -> Result<Option<Txn>, LineFault>
    ensures transaction { IfOk result (λ txn. IfSome txn IsTransaction) }
    ensures value { IfOk result (λ txn. line_of line.now ≡ Ok txn) }
    ensures first_fault { IfErr result (λ fault. (fault ≡ faults.Memory) ⊎ (line_of line.now ≡ Err fault)) }
{
    let words = Words::new(without_carriage_return(line));
    if words.is_comment() {
        return Ok(None);
    }
    sentence(alloc, words)
}
