//! A script, read from its text.

ghost use Rattle.std.specs.Prelude.{◌≡◌, ◌⊎◌, ◌≤◌, ◌+◌, ◌^◌, ◌++◌, [], All, length, vec_len, IfOk, IfErr, IfSome, OnOk, Ok, Err};
ghost use Rattle.sb_packet.specs.Scripts.{IsTransaction};
ghost use Rattle.sb_text.specs.Lines.{lines_of};
ghost use Rattle.sb_text.specs.Scripts.{before, SaysNoMemory, script_of_text, transactions_from, words_together};
ghost use Rattle.sb_text.specs.declared.line_fault.LineFault.TheVariants as line_faults;
ghost use Rattle.sb_text.specs.declared.script_fault.ScriptFault.TheVariants as faults;

use crate::line::read_line;
use crate::line_fault::LineFault;
use crate::lines::{Lines, line_count};
use crate::script_fault::ScriptFault;
use sb_packet::{Script, Txn};
use std::alloc::{AllocError, Global};

const MOST_LINES: u32 = 65536;

const MOST_WORDS: u32 = 262144;

/// The fault of a script of which that line is the first with a fault, unless it has too many lines.
fn fault_of(text: &[u8], line: u32, fault: LineFault) -> ScriptFault
    requires limit { length text.now ≤ 2 ^ 26 }
    requires line { (fault ≡ line_faults.Memory) ⊎ (transactions_from 1 (lines_of text.now) ≡ Err (faults.Line line fault)) }
    ensures first_fault { (result ≡ faults.Memory) ⊎ (script_of_text text.now ≡ Err result) }
    ensures no_memory { SaysNoMemory result }
{
    if fault == LineFault::Memory {
        return ScriptFault::Memory;
    }
    let count = line_count(text);
    if count > MOST_LINES {
        ScriptFault::Lines { count }
    } else {
        ScriptFault::Line { line, fault }
    }
}

/// Puts a transaction, if there is one, behind others.
fn keep(txns: &mut Vec<Txn>, txn: Option<Txn>) -> Result<(), AllocError>
    requires one { IfSome txn IsTransaction }
    requires all { All IsTransaction txns.old.items }
    ensures items { OnOk result (txns.new.items ≡ txns.old.items ++ before txn []) }
    ensures transactions { OnOk result (All IsTransaction txns.new.items) }
    ensures limit { OnOk result (vec_len txns.new ≤ vec_len txns.old + 1) }
{
    if let Some(txn) = txn {
        txns.push(txn)?;
    }
    Ok(())
}

/// The transactions of a text's lines, if there aren't too many.
fn transactions(alloc: Global, text: &[u8]) -> Result<Vec<Txn>, ScriptFault>
    requires { length text.now ≤ 2 ^ 26 }
    ensures value { IfOk result (λ txns. transactions_from 1 (lines_of text.now) ≡ Ok txns.items) }
    ensures lines { IfOk result (λ txns. length (lines_of text.now) ≤ 65536) }
    ensures transactions { IfOk result (λ txns. All IsTransaction txns.items) }
    ensures limit { IfOk result (λ txns. vec_len txns ≤ 65536) }
    ensures first_fault { IfErr result (λ fault. (fault ≡ faults.Memory) ⊎ (script_of_text text.now ≡ Err fault)) }
    ensures no_memory { IfErr result SaysNoMemory }
{
    let mut lines = Lines::new(text);
    let mut txns = Vec::new(alloc);
    for index in 0..MOST_LINES {
        let Some(line) = lines.next_line() else {
            return Ok(txns);
        };
        match read_line(alloc, line) {
            Ok(txn) => keep(&mut txns, txn)?,
            Err(fault) => return Err(fault_of(text, index + 1, fault)),
        }
    }
    match lines.next_line() {
        None => Ok(txns),
        Some(_) => Err(ScriptFault::Lines {
            count: line_count(text),
        }),
    }
}

/// How many words transactions speak of together.
fn word_count(txns: &[Txn]) -> u32
    requires limit { length txns.now ≤ 65536 }
    requires transactions { All IsTransaction txns.now }
    ensures { result ≡ words_together txns.now }
{
    let mut words = 0;
    for txn in txns {
        words += u32::from(txn.count);
    }
    words
}

/// Reads a script: this project's own form.
///
/// The text has at most 2^26 bytes. An error is the first fault of the script, or `ScriptFault::Memory` where
/// memory was missing.
pub fn read_script(alloc: Global, text: &[u8]) -> Result<Script, ScriptFault>
    requires { length text.now ≤ 2 ^ 26 }
    ensures value { IfOk result (λ script. script_of_text text.now ≡ Ok script) }
    ensures transactions { IfOk result (λ script. All IsTransaction script) }
    ensures lines { IfOk result (λ script. length script ≤ 65536) }
    ensures words { IfOk result (λ script. words_together script ≤ 262144) }
    ensures first_fault { IfErr result (λ fault. (fault ≡ faults.Memory) ⊎ (script_of_text text.now ≡ Err fault)) }
    ensures no_memory { IfErr result SaysNoMemory }
{
    let txns = transactions(alloc, text)?;
    let words = word_count(txns.as_slice());
    if words > MOST_WORDS {
        return Err(ScriptFault::Words { words });
    }
    Ok(Script::new(txns))
}
