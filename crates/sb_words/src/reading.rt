//! Words, read.

ghost use Rattle.std.specs.Prelude.{◌≡◌, ◌≢◌, map, string_bytes, true, false, Some, None, IfOk, IfErr, IfSome};
ghost use Rattle.clap.specs.Words.{found_of, rows_of, subcommand_of, subcommand_rows_of};
ghost use Rattle.sb_words.specs.Commands.{IsCommandInRange, command_in, clap_takes, gen_form, named_command, program_app, replay_form, run_form};
ghost use Rattle.sb_words.specs.declared.words_fault.WordsFault.TheVariants as faults;

use crate::arguments::{is_history_given, order_given, seed_given, workers_given};
use crate::command::Command;
use crate::forms::program;
use crate::words_fault::WordsFault;
use clap::ArgMatches;
use clap::error::ErrorKind;
use std::alloc::Global;

/// What is asked for behind the word `replay`.
fn replay(found: &ArgMatches<'_>) -> Option<Command>
    ensures command { result ≡ replay_form.command (rows_of (found_of found.now)) }
    ensures range { IfSome result IsCommandInRange }
{
    let order = order_given(found)?;
    let history = is_history_given(found);
    Some(Command::Replay { order, history })
}

/// What is asked for behind the word `run`.
fn run(found: &ArgMatches<'_>) -> Option<Command>
    ensures command { result ≡ run_form.command (rows_of (found_of found.now)) }
    ensures range { IfSome result IsCommandInRange }
{
    let workers = workers_given(found)?;
    let history = is_history_given(found);
    Some(Command::Run { workers, history })
}

/// What is asked for behind the word `gen`.
fn generated(found: &ArgMatches<'_>) -> Option<Command>
    ensures command { result ≡ gen_form.command (rows_of (found_of found.now)) }
    ensures range { IfSome result IsCommandInRange }
{
    let number = seed_given(found)?;
    Some(Command::Gen { number })
}

/// What the command that was matched asks for; None where a number isn't in its range.
fn named(found: &ArgMatches<'_>) -> Option<Command>
    ensures command { result ≡ named_command (subcommand_rows_of found.now) }
    ensures range { IfSome result IsCommandInRange }
{
    let (name, inner) = found.subcommand()?;
    if name == "solo" {
        Some(Command::Solo)
    } else if name == "replay" {
        replay(inner)
    } else if name == "run" {
        run(inner)
    } else if name == "check" {
        Some(Command::Check)
    } else if name == "gen" {
        generated(inner)
    } else {
        None
    }
}

/// The words, matched.
fn matches<'a>(alloc: Global, words: &'a [String]) -> Result<ArgMatches<'a>, WordsFault>
    ensures taken { IfOk result (λ _. clap_takes (map string_bytes words.now) ≡ true) }
    ensures rows { IfOk result (λ found. subcommand_rows_of found ≡ subcommand_of program_app (map string_bytes words.now)) }
    ensures refused { IfErr result (λ fault. fault ≢ faults.Memory → (clap_takes (map string_bytes words.now) ≡ false)) }
{
    match program(alloc)?.try_get_matches_from(words) {
        Ok(found) => Ok(found),
        Err(error) => {
            if error.kind() == ErrorKind::OutOfMemory {
                Err(WordsFault::Memory)
            } else {
                Err(WordsFault::Usage)
            }
        }
    }
}

/// What the words of the command line ask for: this project's own. The words don't hold the program's name.
///
/// An error is `WordsFault::Usage` only where the words are not taken or a number isn't in its range, and
/// `WordsFault::Memory` where memory was missing.
pub fn command_of(alloc: Global, words: &[String]) -> Result<Command, WordsFault>
    ensures ok { IfOk result (λ command. command_in (map string_bytes words.now) ≡ Some command) }
    ensures range { IfOk result IsCommandInRange }
    ensures usage { IfErr result (λ fault. fault ≢ faults.Memory → (command_in (map string_bytes words.now) ≡ None)) }
{
    let found = matches(alloc, words)?;
    named(&found).ok_or(WordsFault::Usage)
}
