//! Whether a text begins as a right one does.

ghost use Rattle.std.specs.Prelude.{◌<◌, length, take, IfOk, IsTrue};
ghost use Rattle.syntax_tree.specs.Spelling.{kinds, EndsWell};
ghost use Rattle.syntax_machine.specs.declared.thread.Root.TheVariants as root;
ghost use Rattle.syntax_parser.specs.Begins.{Begins};

use base_types::Fault;
use std::alloc::{AllocError, Global};
use syntax_completion::completed;
use syntax_expr::{parse_block, parse_bound, parse_expr};
use syntax_machine::{Root, thread_behind};
use syntax_module::parse_module;
use syntax_tree::Token;

/// Whether an expression was read from these tokens, at least from so many of them.
fn reads_expr(alloc: Global, text: &[Token], least: usize, limit: u16) -> Result<bool, AllocError>
    requires ends { EndsWell text.now }
    requires some { 0 < length text.now }
    ensures { IfOk result (λ reads. IsTrue reads →
        Begins root.Expr limit (take least (kinds text.now))) }
{
    match parse_expr(alloc, text, 0, limit) {
        Ok(parsed) => Ok(least <= parsed.next),
        Err(Fault::Refused(_)) => Ok(false),
        Err(Fault::Memory) => Err(AllocError),
    }
}

/// The same of a bound.
fn reads_bound(alloc: Global, text: &[Token], least: usize, limit: u16) -> Result<bool, AllocError>
    requires ends { EndsWell text.now }
    requires some { 0 < length text.now }
    ensures { IfOk result (λ reads. IsTrue reads →
        Begins root.Bound limit (take least (kinds text.now))) }
{
    match parse_bound(alloc, text, 0, limit) {
        Ok(parsed) => Ok(least <= parsed.next),
        Err(Fault::Refused(_)) => Ok(false),
        Err(Fault::Memory) => Err(AllocError),
    }
}

/// The same of a block.
fn reads_block(alloc: Global, text: &[Token], least: usize, limit: u16) -> Result<bool, AllocError>
    requires ends { EndsWell text.now }
    requires some { 0 < length text.now }
    ensures { IfOk result (λ reads. IsTrue reads →
        Begins root.Block limit (take least (kinds text.now))) }
{
    match parse_block(alloc, text, 0, limit) {
        Ok(parsed) => Ok(least <= parsed.next),
        Err(Fault::Refused(_)) => Ok(false),
        Err(Fault::Memory) => Err(AllocError),
    }
}

/// The same of a module, which all of them spell.
fn reads_module(alloc: Global, text: &[Token], least: usize, limit: u16) -> Result<bool, AllocError>
    requires { EndsWell text.now }
    ensures { IfOk result (λ reads. IsTrue reads → Begins root.Module limit
        (take least (kinds text.now))) }
{
    // for the proof: only the clause names the number
    let _ = least;
    match parse_module(alloc, text, limit) {
        Ok(tree) => {
            let _ = tree;
            Ok(true)
        }
        Err(Fault::Refused(_)) => Ok(false),
        Err(Fault::Memory) => Err(AllocError),
    }
}

/// Whether the parser reads a text of this kind from these tokens, at least from so many of them.
fn reads(
    alloc: Global,
    kind: Root,
    text: &[Token],
    least: usize,
    limit: u16,
) -> Result<bool, AllocError>
    requires ends { EndsWell text.now }
    requires some { 0 < length text.now }
    ensures { IfOk result (λ reads. IsTrue reads →
        Begins kind limit (take least (kinds text.now))) }
{
    match kind {
        Root::Expr => Ok(reads_expr(alloc, text, least, limit)?),
        Root::Bound => Ok(reads_bound(alloc, text, least, limit)?),
        Root::Block => Ok(reads_block(alloc, text, least, limit)?),
        Root::Module => Ok(reads_module(alloc, text, least, limit)?),
    }
}

/// Whether a right text of this kind, whose trees have a depth of this limit at most, was found
/// that begins with these tokens. One is sought by completing the first thread that they leave.
///
/// # Errors
/// The only one is want of memory.
pub fn begins(alloc: Global, kind: Root, tokens: &[Token], limit: u16) -> Result<bool, AllocError>
    ensures { IfOk result (λ found. IsTrue found → Begins kind limit (kinds tokens.now)) }
{
    let thread = thread_behind(alloc, tokens, kind, Some(limit as u32))?;
    let text = completed(alloc, tokens, thread.as_slice())?;
    let found = reads(alloc, kind, text.as_slice(), tokens.len(), limit)?;
    Ok(found)
}
