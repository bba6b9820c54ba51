//! The top call of `sb`.

ghost use Rattle.std.specs.Prelude.{◌≡◌, ◌≢◌, ◌≤◌, ◌⊎◌, ◌^◌, [], List, ℕ, None, Some, length, map, string_bytes, true};
ghost use Rattle.sb_io.specs.Counts.{FaultsIncreased};
ghost use Rattle.sb_words.specs.Commands.{IsCommandInRange, command_in};
ghost use Rattle.sb_words.specs.declared.command.Command.{Command as AnyCommand};
ghost use Rattle.sb_words.specs.declared.command.Command.TheVariants as commands;
ghost use Rattle.sb_top.specs.BundleRuns.{IsUntouched, effects_in};
ghost use Rattle.sb_top.specs.Inputs.{reads_input};
ghost use Rattle.sb_top.specs.TopCall.{IsAnyText, IsFaultless, IsRefusal, IsRejection, IsRun, IsTooLong, IsUsage, Ran, Refused, Rejected, Wrote, WrotePart};

use crate::bundle_command::run_input;
use crate::check_command::judge;
use crate::gen_command::generate;
use crate::input::{ReadFault, read_for};
use crate::schedule::Schedule;
use crate::solo_command::solo;
use crate::status::{
    DONE, OUT_OF_MEMORY, READ_FAILED, REFUSED, REJECTED, TOO_LONG, USAGE, WRITE_FAILED, status_of,
};
use sb_drive::Gate;
use sb_io::{Sink, Source};
use sb_link::MeetFabric;
use sb_packet::Journal;
use sb_text::{LineWord, print_line};
use sb_words::{Command, WordsFault, command_of};
use std::alloc::Global;
use std::thread::Threads;

/// Does a command with the input that was read. It gives the status.
fn perform<R: Threads + Sync, K: Sink, F: MeetFabric, G: Gate + Sync>(
    rt: &R,
    alloc: Global,
    command: Command,
    input: &[u8],
    sink: &mut K,
    fabric: &mut F,
    gate: &G,
    journal: &mut Journal,
) -> u8
    requires range { IsCommandInRange command }
    requires short { length input.now ≤ 2 ^ 26 }
    requires empty { journal.old.entries ≡ [] }
    requires unused { F.made fabric.old ≡ [] }
    ensures done { result ≡ DONE → Wrote (Ran command input.now (effects_in F.Fabric fabric.new journal.new.entries))
        (K.held sink.old) (K.held sink.new) }
    ensures refused { result ≡ REFUSED → Wrote (Refused command input.now) (K.held sink.old) (K.held sink.new) }
    ensures rejected { result ≡ REJECTED → Wrote (Rejected command input.now) (K.held sink.old) (K.held sink.new) }
    ensures untouched { (result ≡ REFUSED) ⊎ (result ≡ REJECTED) → IsUntouched (effects_in F.Fabric fabric.new journal.new.entries) }
    ensures part { result ≡ WRITE_FAILED
        → WrotePart (λ text. Ran command input.now (effects_in F.Fabric fabric.new journal.new.entries) text
        ⊎ ((Refused command input.now text ⊎ Rejected command input.now text)
        × IsUntouched (effects_in F.Fabric fabric.new journal.new.entries)))
        (K.held sink.old) (K.held sink.new) }
    ensures silent { result ≡ OUT_OF_MEMORY → K.held sink.new ≡ K.held sink.old }
    ensures no_run { result ≡ OUT_OF_MEMORY → journal.new.entries ≡ [] }
    ensures not_begun { result ≡ OUT_OF_MEMORY → (ring : ℕ) → F.carried fabric.new ring ≡ F.carried fabric.old ring }
    ensures cause { result ≡ WRITE_FAILED → FaultsIncreased (K.faults sink.old) (K.faults sink.new) }
    ensures clean { result ≢ WRITE_FAILED → K.faults sink.new ≡ K.faults sink.old }
    ensures others { (result ≡ DONE) ⊎ (result ≡ REFUSED) ⊎ (result ≡ WRITE_FAILED) ⊎ (result ≡ OUT_OF_MEMORY) ⊎ (result ≡ REJECTED) }
{
    match command {
        Command::Solo => solo(alloc, input, sink, journal),
        Command::Replay { order, history } => {
            let schedule = Schedule::InTurn { order };
            run_input(
                rt, alloc, input, schedule, history, sink, fabric, gate, journal,
            )
        }
        Command::Run { workers, history } => {
            let schedule = Schedule::SideBySide { workers };
            run_input(
                rt, alloc, input, schedule, history, sink, fabric, gate, journal,
            )
        }
        Command::Check => judge(alloc, input, sink),
        Command::Gen { number } => generate(rt, alloc, number, sink, fabric, gate, journal),
    }
}

/// Reads what a command reads, and does it with that. It gives the status.
fn carry_out<R: Threads + Sync, S: Source, K: Sink, F: MeetFabric, G: Gate + Sync>(
    rt: &R,
    alloc: Global,
    command: Command,
    source: &mut S,
    sink: &mut K,
    fabric: &mut F,
    gate: &G,
    journal: &mut Journal,
) -> u8
    requires range { IsCommandInRange command }
    requires empty { journal.old.entries ≡ [] }
    requires unused { F.made fabric.old ≡ [] }
    ensures done { result ≡ DONE → (words : List (List ℕ)) → command_in words ≡ Some command
        → Wrote (IsRun words (S.left source.old) (S.left source.new) (effects_in F.Fabric fabric.new journal.new.entries))
        (K.held sink.old) (K.held sink.new) }
    ensures refused { result ≡ REFUSED → (words : List (List ℕ)) → command_in words ≡ Some command
        → Wrote (IsRefusal words (S.left source.old) (S.left source.new) (effects_in F.Fabric fabric.new journal.new.entries))
        (K.held sink.old) (K.held sink.new) }
    ensures rejected { result ≡ REJECTED → (words : List (List ℕ)) → command_in words ≡ Some command
        → Wrote (IsRejection words (S.left source.old) (S.left source.new) (effects_in F.Fabric fabric.new journal.new.entries))
        (K.held sink.old) (K.held sink.new) }
    ensures long { result ≡ TOO_LONG → (words : List (List ℕ)) → command_in words ≡ Some command
        → Wrote (IsTooLong words (S.left source.old) (S.left source.new) (effects_in F.Fabric fabric.new journal.new.entries))
        (K.held sink.old) (K.held sink.new) }
    ensures part { result ≡ WRITE_FAILED → (words : List (List ℕ)) → command_in words ≡ Some command
        → WrotePart (IsAnyText words (S.left source.old) (S.left source.new) (effects_in F.Fabric fabric.new journal.new.entries))
        (K.held sink.old) (K.held sink.new) }
    ensures silent { (result ≡ READ_FAILED) ⊎ (result ≡ OUT_OF_MEMORY) → K.held sink.new ≡ K.held sink.old }
    ensures no_run { (result ≡ READ_FAILED) ⊎ (result ≡ OUT_OF_MEMORY) → journal.new.entries ≡ [] }
    ensures untouched { result ≡ READ_FAILED → IsUntouched (effects_in F.Fabric fabric.new journal.new.entries) }
    ensures not_begun { result ≡ OUT_OF_MEMORY → (ring : ℕ) → F.carried fabric.new ring ≡ F.carried fabric.old ring }
    ensures reads { result ≡ READ_FAILED → reads_input command ≡ true }
    ensures read_cause { result ≡ READ_FAILED → FaultsIncreased (S.faults source.old) (S.faults source.new) }
    ensures write_cause { result ≡ WRITE_FAILED → FaultsIncreased (K.faults sink.old) (K.faults sink.new) }
    ensures read_clean { result ≢ READ_FAILED → S.faults source.new ≡ S.faults source.old }
    ensures write_clean { result ≢ WRITE_FAILED → K.faults sink.new ≡ K.faults sink.old }
    ensures others { (result ≡ DONE) ⊎ (result ≡ REFUSED) ⊎ (result ≡ READ_FAILED) ⊎ (result ≡ WRITE_FAILED)
        ⊎ (result ≡ OUT_OF_MEMORY) ⊎ (result ≡ TOO_LONG) ⊎ (result ≡ REJECTED) }
{
    match read_for(alloc, command, source) {
        Ok(input) => perform(
            rt,
            alloc,
            command,
            input.as_slice(),
            sink,
            fabric,
            gate,
            journal,
        ),
        Err(ReadFault::Failed) => READ_FAILED,
        Err(ReadFault::TooLong) => {
            let words = [LineWord::Text(b"too"), LineWord::Text(b"long")];
            status_of(print_line(sink, &words), TOO_LONG)
        }
        Err(ReadFault::Memory) => OUT_OF_MEMORY,
    }
}

/// Does what the words of the command line ask for, but for the promise that what has no fault is done.
fn answer<R: Threads + Sync, S: Source, K: Sink, F: MeetFabric, G: Gate + Sync>(
    rt: &R,
    alloc: Global,
    words: &[String],
    source: &mut S,
    sink: &mut K,
    fabric: &mut F,
    gate: &G,
    journal: &mut Journal,
) -> u8
    requires empty { journal.old.entries ≡ [] }
    requires unused { F.made fabric.old ≡ [] }

    // What was written, by the status; and what the journal and the fabric are.
    ensures done { result ≡ DONE → Wrote (IsRun (map string_bytes words.now) (S.left source.old) (S.left source.new)
        (effects_in F.Fabric fabric.new journal.new.entries)) (K.held sink.old) (K.held sink.new) }
    ensures usage { result ≡ USAGE → Wrote (IsUsage (map string_bytes words.now) (S.left source.old) (S.left source.new)
        (effects_in F.Fabric fabric.new journal.new.entries)) (K.held sink.old) (K.held sink.new) }
    ensures refused { result ≡ REFUSED → Wrote (IsRefusal (map string_bytes words.now) (S.left source.old) (S.left source.new)
        (effects_in F.Fabric fabric.new journal.new.entries)) (K.held sink.old) (K.held sink.new) }
    ensures rejected { result ≡ REJECTED → Wrote (IsRejection (map string_bytes words.now) (S.left source.old) (S.left source.new)
        (effects_in F.Fabric fabric.new journal.new.entries)) (K.held sink.old) (K.held sink.new) }
    ensures long { result ≡ TOO_LONG → Wrote (IsTooLong (map string_bytes words.now) (S.left source.old) (S.left source.new)
        (effects_in F.Fabric fabric.new journal.new.entries)) (K.held sink.old) (K.held sink.new) }
    ensures part { result ≡ WRITE_FAILED → WrotePart (IsAnyText (map string_bytes words.now) (S.left source.old) (S.left source.new)
        (effects_in F.Fabric fabric.new journal.new.entries)) (K.held sink.old) (K.held sink.new) }
    ensures silent { (result ≡ READ_FAILED) ⊎ (result ≡ OUT_OF_MEMORY) → K.held sink.new ≡ K.held sink.old }
    ensures no_run { (result ≡ READ_FAILED) ⊎ (result ≡ OUT_OF_MEMORY) → journal.new.entries ≡ [] }
    ensures untouched { result ≡ READ_FAILED → IsUntouched (effects_in F.Fabric fabric.new journal.new.entries) }
    ensures not_begun { result ≡ OUT_OF_MEMORY → (ring : ℕ) → F.carried fabric.new ring ≡ F.carried fabric.old ring }

    // When each status comes.
    ensures words { command_in (map string_bytes words.now) ≡ None
        → (result ≡ USAGE) ⊎ (result ≡ WRITE_FAILED) ⊎ (result ≡ OUT_OF_MEMORY) }
    ensures asked { result ≡ READ_FAILED → (command : AnyCommand)
        × (command_in (map string_bytes words.now) ≡ Some command) × (reads_input command ≡ true) }
    ensures read_cause { result ≡ READ_FAILED → FaultsIncreased (S.faults source.old) (S.faults source.new) }
    ensures write_cause { result ≡ WRITE_FAILED → FaultsIncreased (K.faults sink.old) (K.faults sink.new) }
    ensures read_clean { result ≢ READ_FAILED → S.faults source.new ≡ S.faults source.old }
    ensures write_clean { result ≢ WRITE_FAILED → K.faults sink.new ≡ K.faults sink.old }
    ensures others { (result ≡ DONE) ⊎ (result ≡ USAGE) ⊎ (result ≡ REFUSED) ⊎ (result ≡ READ_FAILED)
        ⊎ (result ≡ WRITE_FAILED) ⊎ (result ≡ OUT_OF_MEMORY) ⊎ (result ≡ TOO_LONG) ⊎ (result ≡ REJECTED) }
{
    match command_of(alloc, words) {
        Ok(command) => carry_out(rt, alloc, command, source, sink, fabric, gate, journal),
        Err(WordsFault::Usage) => status_of(print_line(sink, &[LineWord::Text(b"usage")]), USAGE),
        Err(WordsFault::Memory) => OUT_OF_MEMORY,
    }
}

/// Does what the words of the command line ask for: reads the source where the command reads, runs the script or the
/// bundle that it has or that a number generates, and writes the report or the summary, or judges the report that it has;
/// or else a line that says why there is none. The words don't hold the program's name. It gives the status with which the
/// program ends.
///
/// The rings of a bundle are made by the fabric, which has made none before; the journal is empty. Where its nodes run
/// side by side, each group goes through the gate once in each round.
pub fn top<R: Threads + Sync, S: Source, K: Sink, F: MeetFabric, G: Gate + Sync>(
    rt: &R,
    alloc: Global,
    words: &[String],
    source: &mut S,
    sink: &mut K,
    fabric: &mut F,
    gate: &G,
    journal: &mut Journal,
) -> u8
    requires empty { journal.old.entries ≡ [] }
    requires unused { F.made fabric.old ≡ [] }

    // What was written, by the status; and what the journal and the fabric are.
    ensures done { result ≡ DONE → Wrote (IsRun (map string_bytes words.now) (S.left source.old) (S.left source.new)
        (effects_in F.Fabric fabric.new journal.new.entries)) (K.held sink.old) (K.held sink.new) }
    ensures usage { result ≡ USAGE → Wrote (IsUsage (map string_bytes words.now) (S.left source.old) (S.left source.new)
        (effects_in F.Fabric fabric.new journal.new.entries)) (K.held sink.old) (K.held sink.new) }
    ensures refused { result ≡ REFUSED → Wrote (IsRefusal (map string_bytes words.now) (S.left source.old) (S.left source.new)
        (effects_in F.Fabric fabric.new journal.new.entries)) (K.held sink.old) (K.held sink.new) }
    ensures rejected { result ≡ REJECTED → Wrote (IsRejection (map string_bytes words.now) (S.left source.old) (S.left source.new)
        (effects_in F.Fabric fabric.new journal.new.entries)) (K.held sink.old) (K.held sink.new) }
    ensures long { result ≡ TOO_LONG → Wrote (IsTooLong (map string_bytes words.now) (S.left source.old) (S.left source.new)
        (effects_in F.Fabric fabric.new journal.new.entries)) (K.held sink.old) (K.held sink.new) }
    ensures part { result ≡ WRITE_FAILED → WrotePart (IsAnyText (map string_bytes words.now) (S.left source.old) (S.left source.new)
        (effects_in F.Fabric fabric.new journal.new.entries)) (K.held sink.old) (K.held sink.new) }
    ensures silent { (result ≡ READ_FAILED) ⊎ (result ≡ OUT_OF_MEMORY) → K.held sink.new ≡ K.held sink.old }
    ensures no_run { (result ≡ READ_FAILED) ⊎ (result ≡ OUT_OF_MEMORY) → journal.new.entries ≡ [] }
    ensures untouched { result ≡ READ_FAILED → IsUntouched (effects_in F.Fabric fabric.new journal.new.entries) }
    ensures not_begun { result ≡ OUT_OF_MEMORY → (ring : ℕ) → F.carried fabric.new ring ≡ F.carried fabric.old ring }

    // When each status comes.
    ensures words { command_in (map string_bytes words.now) ≡ None
        → (result ≡ USAGE) ⊎ (result ≡ WRITE_FAILED) ⊎ (result ≡ OUT_OF_MEMORY) }
    ensures asked { result ≡ READ_FAILED → (command : AnyCommand)
        × (command_in (map string_bytes words.now) ≡ Some command) × (reads_input command ≡ true) }
    ensures read_cause { result ≡ READ_FAILED → FaultsIncreased (S.faults source.old) (S.faults source.new) }
    ensures write_cause { result ≡ WRITE_FAILED → FaultsIncreased (K.faults sink.old) (K.faults sink.new) }
    ensures read_clean { result ≢ READ_FAILED → S.faults source.new ≡ S.faults source.old }
    ensures write_clean { result ≢ WRITE_FAILED → K.faults sink.new ≡ K.faults sink.old }
    ensures others { (result ≡ DONE) ⊎ (result ≡ USAGE) ⊎ (result ≡ REFUSED) ⊎ (result ≡ READ_FAILED)
        ⊎ (result ≡ WRITE_FAILED) ⊎ (result ≡ OUT_OF_MEMORY) ⊎ (result ≡ TOO_LONG) ⊎ (result ≡ REJECTED) }

    // What has no fault is done, unless memory is missing; a report may be rejected.
    ensures complete { (command : AnyCommand) (input : List ℕ) → command_in (map string_bytes words.now) ≡ Some command
        → S.left source.old ≡ Some input → length input ≤ 2 ^ 26 → IsFaultless command input
        → (FaultsIncreased (S.faults source.old) (S.faults source.new) → ⊥)
        → (FaultsIncreased (K.faults sink.old) (K.faults sink.new) → ⊥)
        → (result ≡ DONE) ⊎ (result ≡ OUT_OF_MEMORY) ⊎ ((result ≡ REJECTED) × (command ≡ commands.Check)) }
{
    answer(rt, alloc, words, source, sink, fabric, gate, journal)
}
