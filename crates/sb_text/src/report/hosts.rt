//! The hosts of a report, and their transactions.
#![tactic(auto, using(sb_io::proofs::GainLemmas::part_first, crate::proofs::PrintLemmas::prints_push, crate::proofs::PrintLemmas::prints_then, crate::proofs::PrintLemmas::prints_part, crate::proofs::PrintLemmas::part_before))]

ghost use Rattle.std.specs.Prelude.{◌≡◌, ◌≤◌, ◌<◌, ◌++◌, [], ◌∷◌, Option, length, slice_index_or};
ghost use Rattle.sb_packet.specs.Answers.{RunResults};
ghost use Rattle.sb_flow.specs.NetworkOf.{network_of};
ghost use Rattle.sb_flow.specs.Rows.{host_of};
ghost use Rattle.sb_text.specs.TextLines.{body_text};
ghost use Rattle.sb_text.specs.Reports.{host_lines, host_part, hosts_text, outcome_lines, state_front};
ghost use Rattle.sb_text.specs.Printing.{IsPrinted};
ghost use Rattle.sb_text.specs.Told.{told_outcomes};
ghost use Rattle.sb_text.specs.Telling.{Tells};

use crate::line_word::LineWord;
use crate::report::line_buffer::{LineBuffer, make_room};
use crate::report::pieces::push_state;
use crate::report::printing::{print_body, print_short};
use crate::report::sides::shows_host;
use crate::report::words::print_words;
use crate::results::Results;
use sb_flow::{Bundle, HostPlan};
use sb_io::{Sink, WriteFailed};
use sb_packet::TxnState;

/// More than any transaction's line has up to its body.
const FRONT_ROOM: usize = 64;

/// Prints the front of a transaction's line.
#[inline(always)]
fn print_state<K: Sink>(
    sink: &mut K,
    buffer: &mut LineBuffer,
    index: u32,
    state: TxnState,
) -> Result<(), WriteFailed>
    ensures printed { IsPrinted K.Sink result sink.old sink.new buffer.old buffer.new (state_front index state) }
{
    make_room(sink, buffer, FRONT_ROOM)?;
    push_state(buffer, index, state);
    Ok(())
}

/// Prints the rest of it.
#[inline(always)]
fn print_rest<K: Sink>(
    sink: &mut K,
    buffer: &mut LineBuffer,
    body: &[u8],
) -> Result<(), WriteFailed>
    ensures printed { IsPrinted K.Sink result sink.old sink.new buffer.old buffer.new (body_text body.now ++ 10 ∷ []) }
{
    print_body(sink, buffer, body)?;
    print_short(sink, buffer, b"\n")
}

/// Prints the line of a transaction.
#[inline(always)]
fn print_outcome<K: Sink>(
    sink: &mut K,
    buffer: &mut LineBuffer,
    index: u32,
    state: TxnState,
    body: &[u8],
) -> Result<(), WriteFailed>
    ensures printed { IsPrinted K.Sink result sink.old sink.new buffer.old buffer.new
        (state_front index state ++ (body_text body.now ++ 10 ∷ [])) }
{
    print_state(sink, buffer, index, state)?;
    print_rest(sink, buffer, body)
}

/// Prints the lines of a host's transactions, in order.
fn print_outcomes<K: Sink, R: Results>(
    sink: &mut K,
    buffer: &mut LineBuffer,
    results: &R,
    host: u8,
    count: u32,
) -> Result<(), WriteFailed>
    requires told { (told : RunResults) × R.tells results.now told × count ≡ length (told_outcomes told host) }
    ensures printed { (told : RunResults) → R.tells results.now told → count ≡ length (told_outcomes told host)
        → IsPrinted K.Sink result sink.old sink.new buffer.old buffer.new (outcome_lines (told_outcomes told host)) }
{
    for index in 0..count {
        print_outcome(
            sink,
            buffer,
            index,
            results.state(host, index),
            results.body(host, index),
        )?;
    }
    Ok(())
}

/// Prints a host and its transactions.
fn print_host<K: Sink, R: Results>(
    sink: &mut K,
    buffer: &mut LineBuffer,
    results: &R,
    host: u8,
    plan: &HostPlan,
) -> Result<(), WriteFailed>
    requires few { length plan.now.script ≤ 65536 }
    requires told { (told : RunResults) × R.tells results.now told × length plan.now.script ≡ length (told_outcomes told host) }
    ensures printed { (told : RunResults) → R.tells results.now told → length plan.now.script ≡ length (told_outcomes told host)
        → IsPrinted K.Sink result sink.old sink.new buffer.old buffer.new
        (host_lines (host_of plan.now) (told_outcomes told host)) }
{
    let count = plan.script.as_slice().len() as u32;
    print_words(
        sink,
        buffer,
        &[
            LineWord::Text(b"host"),
            LineWord::Text(plan.name.as_slice()),
            LineWord::Number(u64::from(count)),
        ],
    )?;
    print_outcomes(sink, buffer, results, host, count)
}

/// Prints a host, where it is printed.
fn print_host_part<K: Sink, R: Results>(
    sink: &mut K,
    buffer: &mut LineBuffer,
    bundle: &Bundle,
    results: &R,
    side: Option<u8>,
    host: u8,
) -> Result<(), WriteFailed>
    requires there { host < length bundle.now.hosts.items }
    requires told { (told : RunResults) × Tells R.Results results.now (network_of bundle.now) told }
    ensures printed { (told : RunResults) (none : HostPlan) → Tells R.Results results.now (network_of bundle.now) told
        → IsPrinted K.Sink result sink.old sink.new buffer.old buffer.new
        (host_part (network_of bundle.now) told side host (host_of (slice_index_or bundle.now.hosts.items host none))) }
{
    if shows_host(bundle, side, host) {
        print_host(
            sink,
            buffer,
            results,
            host,
            &bundle.hosts[usize::from(host)],
        )
    } else {
        Ok(())
    }
}

/// Prints the hosts, in order.
pub fn print_hosts<K: Sink, R: Results>(
    sink: &mut K,
    buffer: &mut LineBuffer,
    bundle: &Bundle,
    results: &R,
    side: Option<u8>,
) -> Result<(), WriteFailed>
    requires told { (told : RunResults) × Tells R.Results results.now (network_of bundle.now) told }
    ensures printed { (told : RunResults) → Tells R.Results results.now (network_of bundle.now) told
        → IsPrinted K.Sink result sink.old sink.new buffer.old buffer.new (hosts_text (network_of bundle.now) told side) }
{
    for host in 0..bundle.hosts.len() {
        print_host_part(sink, buffer, bundle, results, side, host as u8)?;
    }
    Ok(())
}
