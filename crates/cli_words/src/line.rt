//! The command line is one simple `clap` command.

ghost use Rattle.std.specs.Prelude.{◌≡◌, IfOk, false, map, string_bytes};
ghost use Rattle.clap.specs.Words.{app_of, found_of, new_rule, rule_of, with_rule};
ghost use Rattle.clap.specs.Faults.{fault_of};
ghost use Rattle.clap.specs.Kinds.{FailsBy};
ghost use Rattle.clap.specs.Simple.{matches_of};
ghost use Rattle.clap.specs.Walk.{rows_of};
ghost use Rattle.cli_words.specs.Line.{alloyc_app, needed_rule, option_rule, option_rule_or, with_words, with_work, with_choices, with_value};

use clap::{Arg, ArgMatches, Command, Error};
use std::alloc::{AllocError, Global};

/// A word that has to be there.
fn needed<'a>(alloc: Global, id: &'a str) -> Arg<'a>
    ensures rule { rule_of result ≡ needed_rule id.entry.now }
    ensures local { result.global ≡ false }
{
    Arg::new(alloc, id).required(true)
}

/// An option with its value.
fn option<'a>(alloc: Global, id: &'a str) -> Arg<'a>
    ensures rule { rule_of result ≡ option_rule id.entry.now }
    ensures local { result.global ≡ false }
{
    Arg::new(alloc, id).long(id)
}

/// An option with its value, and the value where it isn't given.
fn option_or<'a>(alloc: Global, id: &'a str, value: &'a str) -> Arg<'a>
    ensures rule { rule_of result ≡ option_rule_or id.entry.now value.entry.now }
    ensures local { result.global ≡ false }
{
    Arg::new(alloc, id).long(id).default_value(value)
}

/// The command with one more argument.
fn with<'a>(command: Command<'a>, arg: Arg<'a>) -> Result<Command<'a>, AllocError>
    requires { arg.global ≡ false }
    ensures { IfOk result (λ more. app_of more ≡ with_rule (app_of command.entry)
        (rule_of arg.entry)) }
{
    command.arg(arg)
}

/// Two words and perhaps a third.
fn add_words<'a>(alloc: Global, command: Command<'a>) -> Result<Command<'a>, AllocError>
    ensures { IfOk result (λ more. app_of more ≡ with_words (app_of command.entry)) }
{
    let one = with(command, needed(alloc, "mode"))?;
    let two = with(one, needed(alloc, "file"))?;
    with(two, Arg::new(alloc, "second"))
}

/// The options that the work takes.
fn add_work<'a>(alloc: Global, command: Command<'a>) -> Result<Command<'a>, AllocError>
    ensures { IfOk result (λ more. app_of more ≡ with_work (app_of command.entry)) }
{
    let one = with(command, option_or(alloc, "command", "0"))?;
    with(one, option(alloc, "conflicts"))
}

/// The options that choose.
fn add_choices<'a>(alloc: Global, command: Command<'a>) -> Result<Command<'a>, AllocError>
    ensures { IfOk result (λ more. app_of more ≡ with_choices (app_of command.entry)) }
{
    let one = with(command, option_or(alloc, "part", "all"))?;
    with(one, option_or(alloc, "chooser", "0"))
}

/// The options that ask for a value.
fn add_value<'a>(alloc: Global, command: Command<'a>) -> Result<Command<'a>, AllocError>
    ensures { IfOk result (λ more. app_of more ≡ with_value (app_of command.entry)) }
{
    let one = with(command, option(alloc, "expr"))?;
    with(one, option_or(alloc, "at", "0"))
}

/// The command line: two words and perhaps a third, and six options.
pub fn command_line<'a>(alloc: Global) -> Result<Command<'a>, AllocError>
    ensures { IfOk result (λ command. app_of command ≡ alloyc_app) }
{
    let words = add_words(alloc, Command::new(alloc, "alloyc"))?;
    let work = add_work(alloc, words)?;
    let choices = add_choices(alloc, work)?;
    add_value(alloc, choices)
}

/// What the words give.
pub fn matches<'a>(alloc: Global, words: &'a [String]) -> Result<ArgMatches<'a>, Error>
    ensures rows { IfOk result (λ m. rows_of (found_of m)
        ≡ matches_of alloyc_app (map string_bytes words.entry.now)) }
    ensures fails { FailsBy (fault_of alloyc_app (map string_bytes words.entry.now)) result }
{
    let command = command_line(alloc)?;
    command.try_get_matches_from(words)
}
