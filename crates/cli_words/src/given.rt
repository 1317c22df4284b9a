//! The words give texts, under the names of the command line.

ghost use Rattle.std.specs.Prelude.{◌≡◌, ◌≢◌, [], IfOk, MatchOption, map, option_map, string_bytes};
ghost use Rattle.clap.specs.Faults.{fault_of};
ghost use Rattle.clap.specs.Simple.{matches_of};
ghost use Rattle.clap.specs.Walk.{first_of, rows_of};
ghost use Rattle.clap.specs.Words.{found_of};
ghost use Rattle.cli_words.specs.Given.{IsGiven, GivesTexts};

use crate::line::matches;
use clap::ArgMatches;
use clap::error::ErrorKind;
use std::alloc::{AllocError, Global};

/// The texts that the words give.
#[derive(Clone, Copy)]
pub struct Given<'a> {
    pub mode: Option<&'a str>,
    pub file: Option<&'a str>,
    pub second: Option<&'a str>,
    pub command: Option<&'a str>,
    pub conflicts: Option<&'a str>,
    pub part: Option<&'a str>,
    pub chooser: Option<&'a str>,
    pub expression: Option<&'a str>,
    pub position: Option<&'a str>,
}

/// The first text under this name.
fn text<'a>(matches: &ArgMatches<'a>, id: &str) -> Option<&'a str>
    ensures { option_map (λ s. s.now) result ≡ first_of id.now (rows_of (found_of matches.now)) }
{
    matches.get_str(id)
}

/// The texts of all names.
fn texts<'a>(matches: &ArgMatches<'a>) -> Given<'a>
    ensures { IsGiven result (rows_of (found_of matches.now)) }
{
    Given {
        mode: text(matches, "mode"),
        file: text(matches, "file"),
        second: text(matches, "second"),
        command: text(matches, "command"),
        conflicts: text(matches, "conflicts"),
        part: text(matches, "part"),
        chooser: text(matches, "chooser"),
        expression: text(matches, "expr"),
        position: text(matches, "at"),
    }
}

/// The texts that the words give, or none where the command line refuses them or help is asked for.
pub fn texts_given<'a>(alloc: Global, words: &'a [String]) -> Result<Option<Given<'a>>, AllocError>
    ensures { IfOk result (λ given. GivesTexts given (map string_bytes words.entry.now)) }
{
    match matches(alloc, words) {
        Ok(matches) => Ok(Some(texts(&matches))),
        Err(fault) if matches!(fault.kind(), ErrorKind::OutOfMemory) => Err(AllocError),
        Err(_) => Ok(None),
    }
}
