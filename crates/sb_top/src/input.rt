//! Reading the whole input.

ghost use Rattle.std.specs.Prelude.{◌≡◌, ◌≤◌, ◌<◌, ◌^◌, ◌+◌, ◌⊎◌, true, IfOk, IsErrOf, IfSome, OnErr, length, drop, option_map, vec_len};
ghost use Rattle.sb_io.specs.Counts.{FaultsIncreased};
ghost use Rattle.sb_top.specs.Inputs.{HasRead, IsWholeInput, reads_input};
ghost use Rattle.sb_top.specs.declared.input.ReadFault.TheVariants as faults;

use sb_io::{Got, Source};
use sb_words::Command;
use std::alloc::Global;

/// The most bytes that an input may have.
pub const LIMIT: usize = 1 << 26;

const CHUNK: usize = 1 << 16;

/// Why an input was not read to its end.
#[derive(Clone, Copy, Debug, PartialEq, Eq)]
pub enum ReadFault {
    /// The source failed.
    Failed,
    /// There are more than `LIMIT` bytes.
    TooLong,
    /// Memory is missing.
    Memory,
}

/// Reads a source to its end, or to one byte past the limit.
fn read_all<S: Source>(alloc: Global, source: &mut S) -> Result<Vec<u8>, ReadFault>
    ensures limit { IfOk result (λ v. vec_len v ≤ 2 ^ 26) }
    ensures whole { IfOk result (λ v. IsWholeInput (S.left source.old) (S.left source.new) v.items) }
    ensures cause { IsErrOf result faults.Failed → FaultsIncreased (S.faults source.old) (S.faults source.new) }
    ensures long { IsErrOf result faults.TooLong → IfSome (S.left source.old) (λ left. 2 ^ 26 < length left) }
    ensures taken { IsErrOf result faults.TooLong → S.left source.new ≡ option_map (drop (2 ^ 26 + 1)) (S.left source.old) }
    ensures clean { (IsErrOf result faults.Failed) ⊎ (S.faults source.new ≡ S.faults source.old) }
{
    let mut bytes = Vec::new(alloc);
    let mut buf = [0u8; CHUNK];
    while bytes.len() <= LIMIT {
        let want = (LIMIT + 1 - bytes.len()).min(CHUNK);
        match source.read(&mut buf[..want]) {
            Got::Bytes(count) => {
                if bytes.extend_from_slice(&buf[..count]).is_err() {
                    return Err(ReadFault::Memory);
                }
            }
            Got::End => return Ok(bytes),
            Got::Failed => return Err(ReadFault::Failed),
        }
    }
    Err(ReadFault::TooLong)
}

/// Whether a command reads its input.
fn reads_input(command: Command) -> bool
    ensures { result ≡ reads_input command }
{
    match command {
        Command::Solo | Command::Replay { .. } | Command::Run { .. } | Command::Check => true,
        Command::Gen { .. } => false,
    }
}

/// Reads what a command reads: the whole source, or nothing.
#[tactic(auto, using(crate::proofs::ReadLemmas::read_whole, crate::proofs::ReadLemmas::read_nothing))]
pub fn read_for<S: Source>(
    alloc: Global,
    command: Command,
    source: &mut S,
) -> Result<Vec<u8>, ReadFault>
    ensures limit { IfOk result (λ v. vec_len v ≤ 2 ^ 26) }
    ensures read { IfOk result (λ v. HasRead command (S.left source.old) (S.left source.new) v.items) }
    ensures cause { IsErrOf result faults.Failed → FaultsIncreased (S.faults source.old) (S.faults source.new) }
    ensures reads { OnErr result (reads_input command ≡ true) }
    ensures long { IsErrOf result faults.TooLong → IfSome (S.left source.old) (λ left. 2 ^ 26 < length left) }
    ensures taken { IsErrOf result faults.TooLong → S.left source.new ≡ option_map (drop (2 ^ 26 + 1)) (S.left source.old) }
    ensures clean { (IsErrOf result faults.Failed) ⊎ (S.faults source.new ≡ S.faults source.old) }
{
    if reads_input(command) {
        read_all(alloc, source)
    } else {
        Ok(Vec::new(alloc))
    }
}
