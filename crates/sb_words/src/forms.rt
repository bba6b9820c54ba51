//! The commands as `clap` is told of them.

ghost use Rattle.std.specs.Prelude.{◌≡◌, IfOk, false, codes};
ghost use Rattle.clap.specs.Words.{app_of, new_app, rule_of};
ghost use Rattle.sb_words.specs.Arguments.{flag_rule, option_rule, word_rule};
ghost use Rattle.sb_words.specs.Commands.{check_form, form_app, gen_form, program_app, replay_form, run_form, solo_form, words_alone};

use clap::{Arg, ArgAction, Command};
use std::alloc::{AllocError, Global};

/// An option `--NAME VALUE`.
fn option<'a>(alloc: Global, name: &'a str) -> Arg<'a>
    ensures rule { rule_of result ≡ option_rule name.entry.now }
    ensures local { result.global ≡ false }
{
    Arg::new(alloc, name).long(name)
}

/// A flag `--NAME`.
fn flag<'a>(alloc: Global, name: &'a str) -> Arg<'a>
    ensures rule { rule_of result ≡ flag_rule name.entry.now }
    ensures local { result.global ≡ false }
{
    Arg::new(alloc, name).long(name).action(ArgAction::SetTrue)
}

/// A word that has to stand there.
fn word<'a>(alloc: Global, name: &'a str) -> Arg<'a>
    ensures rule { rule_of result ≡ word_rule name.entry.now }
    ensures local { result.global ≡ false }
{
    Arg::new(alloc, name).required(true)
}

/// `solo`
fn solo<'a>(alloc: Global) -> Command<'a>
    ensures { app_of result ≡ form_app solo_form }
{
    Command::new(alloc, "solo")
}

/// `replay [--order N] [--history]`
fn replay<'a>(alloc: Global) -> Result<Command<'a>, AllocError>
    ensures { IfOk result (λ command. app_of command ≡ form_app replay_form) }
{
    Command::new(alloc, "replay")
        .arg(option(alloc, "order"))?
        .arg(flag(alloc, "history"))
}

/// `run [--workers N] [--history]`
fn run<'a>(alloc: Global) -> Result<Command<'a>, AllocError>
    ensures { IfOk result (λ command. app_of command ≡ form_app run_form) }
{
    Command::new(alloc, "run")
        .arg(option(alloc, "workers"))?
        .arg(flag(alloc, "history"))
}

/// `check`
fn check<'a>(alloc: Global) -> Command<'a>
    ensures { app_of result ≡ form_app check_form }
{
    Command::new(alloc, "check")
}

/// `gen N`
fn gen_of_number<'a>(alloc: Global) -> Result<Command<'a>, AllocError>
    ensures { IfOk result (λ command. app_of command ≡ form_app gen_form) }
{
    Command::new(alloc, "gen").arg(word(alloc, "number"))
}

/// The program before it has commands.
fn bare<'a>(alloc: Global) -> Command<'a>
    ensures { app_of result ≡ words_alone (new_app (codes "sb")) }
{
    Command::new(alloc, "sb")
        .no_binary_name(true)
        .disable_help_flag(true)
        .disable_help_subcommand(true)
        .disable_version_flag(true)
        .subcommand_required(true)
}

/// The program with all its commands.
pub fn program<'a>(alloc: Global) -> Result<Command<'a>, AllocError>
    ensures { IfOk result (λ command. app_of command ≡ program_app) }
{
    bare(alloc)
        .subcommand(solo(alloc))?
        .subcommand(replay(alloc)?)?
        .subcommand(run(alloc)?)?
        .subcommand(check(alloc))?
        .subcommand(gen_of_number(alloc)?)
}
