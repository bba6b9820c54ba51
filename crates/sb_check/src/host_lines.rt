//! The lines of hosts and of their transactions, compared with those of a report.

ghost use Rattle.std.specs.Prelude.{◌≡◌, ◌≤◌, ◌<◌, [], ◌∷◌, None, codes, decimal, length, slice_index_or};
ghost use Rattle.sb_packet.specs.Answers.{RunResults};
ghost use Rattle.sb_flow.specs.NetworkOf.{network_of};
ghost use Rattle.sb_flow.specs.Rows.{host_of};
ghost use Rattle.sb_text.specs.Reports.{code_text, host_lines, host_part, hosts_text, outcome_lines, state_text};
ghost use Rattle.sb_text.specs.Telling.{Tells};
ghost use Rattle.sb_text.specs.TextLines.{body_text, text_line};
ghost use Rattle.sb_text.specs.Told.{told_outcomes};
ghost use Rattle.sb_check.specs.Comparing.{IsCompared};

use crate::line_piece::LinePiece;
use crate::unread::{Differs, Unread};
use crate::whole_lines::take_line;
use sb_flow::{Bundle, HostPlan};
use sb_packet::{Code, TxnState};
use sb_text::Results;

fn code_word(code: Code) -> &'static [u8]
    ensures { result.now ≡ code_text code }
{
    match code {
        Code::Ok => b"ok",
        Code::ExOk => b"exok",
        Code::DevErr => b"deverr",
        Code::NetErr => b"neterr",
    }
}

fn state_word(state: TxnState) -> &'static [u8]
    ensures { result.now ≡ state_text state }
{
    match state {
        TxnState::Waiting => b"waiting",
        TxnState::Posted => b"posted",
        TxnState::Answered { code } => code_word(code),
    }
}

/// Takes off the line of a transaction.
fn take_outcome(
    text: &mut Unread<'_>,
    index: u32,
    state: TxnState,
    body: &[u8],
) -> Result<(), Differs>
    ensures compared { IsCompared result text.old.rest.now text.new.rest.now
        (text_line (codes "t" ∷ decimal index ∷ state_text state ∷ body_text body.now ∷ [])) }
{
    let pieces = [
        LinePiece::Text(b"t"),
        LinePiece::Number(u64::from(index)),
        LinePiece::Text(state_word(state)),
        LinePiece::Body(body),
    ];
    take_line(text, &pieces)
}

/// Takes off the lines of a host's transactions.
fn take_outcomes<R: Results>(
    text: &mut Unread<'_>,
    results: &R,
    host: u8,
    count: u32,
) -> Result<(), Differs>
    requires told { (told : RunResults) × R.tells results.now told × count ≡ length (told_outcomes told host) }
    ensures compared { (told : RunResults) → R.tells results.now told → count ≡ length (told_outcomes told host)
        → IsCompared result text.old.rest.now text.new.rest.now (outcome_lines (told_outcomes told host)) }
{
    for index in 0..count {
        take_outcome(
            text,
            index,
            results.state(host, index),
            results.body(host, index),
        )?;
    }
    Ok(())
}

/// Takes off the first line of a host.
fn take_host_name(text: &mut Unread<'_>, plan: &HostPlan, count: u32) -> Result<(), Differs>
    ensures compared { IsCompared result text.old.rest.now text.new.rest.now
        (text_line (codes "host" ∷ plan.now.name ∷ decimal count ∷ [])) }
{
    let pieces = [
        LinePiece::Text(b"host"),
        LinePiece::Text(plan.name.as_slice()),
        LinePiece::Number(u64::from(count)),
    ];
    take_line(text, &pieces)
}

/// Takes off the lines of a host and of its transactions.
fn take_host<R: Results>(
    text: &mut Unread<'_>,
    results: &R,
    host: u8,
    plan: &HostPlan,
) -> Result<(), Differs>
    requires few { length plan.now.script ≤ 65536 }
    requires told { (told : RunResults) × R.tells results.now told × length plan.now.script ≡ length (told_outcomes told host) }
    ensures compared { (told : RunResults) → R.tells results.now told → length plan.now.script ≡ length (told_outcomes told host)
        → IsCompared result text.old.rest.now text.new.rest.now (host_lines (host_of plan.now) (told_outcomes told host)) }
{
    let count = plan.script.as_slice().len() as u32;
    take_host_name(text, plan, count)?;
    take_outcomes(text, results, host, count)
}

/// Takes off the lines of the host at a place.
fn take_host_at<R: Results>(
    text: &mut Unread<'_>,
    bundle: &Bundle,
    results: &R,
    host: u8,
) -> Result<(), Differs>
    requires there { host < length bundle.now.hosts.items }
    requires told { (told : RunResults) × Tells R.Results results.now (network_of bundle.now) told }
    ensures compared { (told : RunResults) (none : HostPlan) → Tells R.Results results.now (network_of bundle.now) told
        → IsCompared result text.old.rest.now text.new.rest.now
        (host_part (network_of bundle.now) told None host (host_of (slice_index_or bundle.now.hosts.items host none))) }
{
    take_host(text, results, host, &bundle.hosts[usize::from(host)])
}

/// Takes off the lines of all hosts.
pub fn take_hosts<R: Results>(
    text: &mut Unread<'_>,
    bundle: &Bundle,
    results: &R,
) -> Result<(), Differs>
    requires told { (told : RunResults) × Tells R.Results results.now (network_of bundle.now) told }
    ensures compared { (told : RunResults) → Tells R.Results results.now (network_of bundle.now) told
        → IsCompared result text.old.rest.now text.new.rest.now (hosts_text (network_of bundle.now) told None) }
{
    for host in 0..bundle.hosts.len() {
        take_host_at(text, bundle, results, host as u8)?;
    }
    Ok(())
}
