//! Modules that are refused: the rule, and the column.

use base_types::{Fault, Rule};
use std::alloc::Global;
use std::test::Fail;
use syntax_lexer::lex;
use syntax_parser::parse_module;

/// Whether the text breaks this rule at this column.
fn is_refused(alloc: Global, text: &[u8], rule: Rule, column: u32) -> Result<bool, Fail> {
    if text.len() > 100_000 {
        return Ok(false);
    }
    let tokens = lex(alloc, 0, text)?;
    match parse_module(alloc, &tokens) {
        Err(Fault::Refused(refusal)) => {
            Ok(refusal.rule == rule && refusal.place.column == column)
        }
        _ => Ok(false),
    }
}

#[test]
fn no_operand(rt: HostRuntime) -> Result<(), Fail> {
    assert!(rt; is_refused(rt.alloc(), b"fact { some }", Rule::Syntax, 13)?);
    Ok(())
}

#[test]
fn no_bound(rt: HostRuntime) -> Result<(), Fail> {
    assert!(rt; is_refused(rt.alloc(), b"sig A { f: }", Rule::Syntax, 12)?);
    Ok(())
}

#[test]
fn too_deep(rt: HostRuntime) -> Result<(), Fail> {
    let mut text = Vec::from_slice(rt.alloc(), b"fact {")?;
    for _ in 0..260 {
        text.push(b'(')?;
    }
    assert!(rt; is_refused(rt.alloc(), &text, Rule::TooDeep, 256)?);
    Ok(())
}
