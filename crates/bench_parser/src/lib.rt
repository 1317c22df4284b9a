//! The workbench's mode `parser` says of each text that is named what the lexer and the parsers make of it: `NAME..`.
//!
//! A name is that of a text that alloyc brings along, or else of a file. A text that has a tree gives its name and
//! `spelled`, where the tree spells its tokens again. Another text gives the rule that it breaks, its name and the place.
#![tactic(auto)]

ghost use Rattle.std.specs.Prelude.{◌≤◌, length};
ghost use Rattle.syntax_tree.specs.Spelling.{EndsWell};

mod same;

use anyhow::Result;
use base_library::EmbeddedLibrary;
use base_types::limits::MODULE_BYTES;
use base_types::{Fault, Fetch, Library, Position, Refusal, Rule};
use same::same_words;
use std::alloc::Global;
use std::fs;
use std::rt::Files;
use syntax_lexer::lex;
use syntax_parser::parse_module;
use syntax_printer::spell;
use syntax_tree::Token;

/// What is said of a text.
enum Said {
    Spelled,
    Refused(Refusal),
    /// There was no memory, or the tree doesn't spell the tokens.
    Lost,
}

/// What is said of tokens.
fn said_of_tokens(alloc: Global, tokens: &[Token]) -> Said
    requires { EndsWell tokens.now }
{
    let tree = match parse_module(alloc, tokens) {
        Ok(tree) => tree,
        Err(Fault::Refused(refusal)) => return Said::Refused(refusal),
        Err(Fault::Memory) => return Said::Lost,
    };
    match spell(alloc, &tree) {
        Ok(words) if same_words(tokens, &words) => Said::Spelled,
        _ => Said::Lost,
    }
}

fn said_of_text(alloc: Global, text: &[u8]) -> Said
    requires { length text.now ≤ MODULE_BYTES }
{
    match lex(alloc, 0, text) {
        Ok(tokens) => said_of_tokens(alloc, &tokens),
        Err(Fault::Refused(refusal)) => Said::Refused(refusal),
        Err(Fault::Memory) => Said::Lost,
    }
}

/// What is said of a text of any length.
fn what_is_said(alloc: Global, text: &[u8]) -> Said {
    if text.len() > MODULE_BYTES {
        let place = Position {
            module: 0,
            line: 1,
            column: 1,
        };
        let rule = Rule::LargeFile;
        return Said::Refused(Refusal { rule, place });
    }
    said_of_text(alloc, text)
}

fn report(rt: &impl Print, name: &str, said: Said) -> Result<()> {
    match said {
        Said::Spelled => println!(rt; "{name} spelled")?,
        Said::Refused(refusal) => {
            let rule = refusal.rule.number();
            let place = refusal.place;
            println!(rt; "refused S{rule:02} {name}:{}:{}", place.line, place.column)?;
        }
        Said::Lost => println!(rt; "{name} lost")?,
    }
    Ok(())
}

/// The text of this name.
fn text_of(rt: &(impl Files + AllocGlobal), name: &str) -> Result<Vec<u8>> {
    match EmbeddedLibrary::new().fetch(rt.alloc(), name, MODULE_BYTES + 1)? {
        Fetch::Found(text) => Ok(text),
        Fetch::Absent => Ok(fs::read(rt, name)?),
    }
}

/// Says of each text that the words name what becomes of it.
pub fn run(rt: &(impl Files + Print + AllocGlobal), words: &[String]) -> Result<u8> {
    for name in words {
        let text = text_of(rt, name.as_str())?;
        report(rt, name.as_str(), what_is_said(rt.alloc(), &text))?;
    }
    Ok(0)
}
