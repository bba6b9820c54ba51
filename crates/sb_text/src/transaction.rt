//! One transaction, from its words.

ghost use Rattle.std.specs.Prelude.{◌≡◌, ◌⊎◌, ◌≤◌, ◌*◌, ◌^◌, IfOk, IfErr};
ghost use Rattle.sb_packet.specs.Scripts.{HasBody, IsTransaction};
ghost use Rattle.sb_text.specs.Sentences.{body_of, count_of, most_words as most_words_of, placed as placed_by, told_count as told_by, transaction_of, whole_words as words_filled};
ghost use Rattle.sb_text.specs.declared.line_fault.LineFault.TheVariants as faults;

use crate::body::decoded;
use crate::line_fault::LineFault;
use crate::numerals::numeral;
use sb_packet::{ADDRESS_END, Bytes, Kind, PAGE_BYTES, Txn};
use std::alloc::Global;

/// The number of words that a read tells; None where that is no number.
fn told_count(kind: Kind, last: &[u8]) -> Option<u64>
    ensures { result ≡ told_by kind last.now }
{
    match kind {
        Kind::Read => numeral(last),
        Kind::Write | Kind::Posted | Kind::Atomic(_) => Some(0),
    }
}

/// The bytes that a line brings; a read brings none.
fn body(alloc: Global, kind: Kind, last: &[u8]) -> Result<Bytes, LineFault>
    ensures ok { IfOk result (λ body. body_of kind last.now ≡ Ok body) }
    ensures err { IfErr result (λ fault. (fault ≡ faults.Memory) ⊎ (body_of kind last.now ≡ Err fault)) }
{
    match kind {
        Kind::Read => Ok(Bytes::new(Vec::new(alloc))),
        Kind::Write | Kind::Posted | Kind::Atomic(_) => Ok(Bytes::new(decoded(alloc, last)?)),
    }
}

/// How many words a transaction speaks of; None where its bytes are no whole words.
fn count(kind: Kind, size: u8, told: u64, body: &[u8]) -> Option<u64>
    requires { size ≤ 3 }
    ensures { result ≡ count_of kind size told body.now }
{
    match kind {
        Kind::Read => Some(told),
        Kind::Write | Kind::Posted | Kind::Atomic(_) => whole_words(size, body),
    }
}

/// How many words bytes fill; None where they don't fill them.
fn whole_words(size: u8, body: &[u8]) -> Option<u64>
    requires { size ≤ 3 }
    ensures { result ≡ words_filled size body.now }
{
    let word = 1usize << size;
    if body.len() % word == 0 {
        Some((body.len() / word) as u64)
    } else {
        None
    }
}

fn most_words(kind: Kind) -> u64
    ensures { result ≡ most_words_of kind }
{
    match kind {
        Kind::Atomic(_) => 1,
        Kind::Read | Kind::Write | Kind::Posted => 256,
    }
}

/// The last tests of a transaction.
#[inline(always)]
fn placed(kind: Kind, addr: u64, size: u8, count: u64, body: Bytes) -> Result<Txn, LineFault>
    requires size { size ≤ 3 }
    requires body { HasBody kind (count * 2 ^ size) body }
    ensures value { result ≡ placed_by kind addr size count body }
    ensures transaction { IfOk result IsTransaction }
{
    let word = 1u64 << size;
    if count < 1 || count > most_words(kind) {
        return Err(LineFault::Length);
    }
    if addr % word != 0 {
        return Err(LineFault::Aligned);
    }
    if addr % PAGE_BYTES + count * word > PAGE_BYTES {
        return Err(LineFault::Page);
    }
    if addr >= ADDRESS_END {
        return Err(LineFault::Range);
    }
    Ok(Txn {
        kind,
        size,
        addr,
        count: count as u16,
        body,
    })
}

/// A transaction from the three words behind its verb, or its first fault.
pub fn transaction(
    alloc: Global,
    kind: Kind,
    addr: &[u8],
    size: &[u8],
    last: &[u8],
) -> Result<Txn, LineFault>
    ensures transaction { IfOk result IsTransaction }
    ensures value { IfOk result (λ txn. transaction_of kind addr.now size.now last.now ≡ Ok txn) }
    ensures first_fault { IfErr result (λ fault. (fault ≡ faults.Memory) ⊎ (transaction_of kind addr.now size.now last.now ≡ Err fault)) }
{
    let addr = numeral(addr).ok_or(LineFault::Number)?;
    let size = numeral(size).ok_or(LineFault::Number)?;
    let told = told_count(kind, last).ok_or(LineFault::Number)?;
    if size > 3 {
        return Err(LineFault::Size);
    }
    let size = size as u8;
    let body = body(alloc, kind, last)?;
    let count = count(kind, size, told, body.as_slice()).ok_or(LineFault::Length)?;
    placed(kind, addr, size, count, body)
}
