//! Expressions and bounds that are taken.

use std::alloc::Global;
use std::test::Fail;
use syntax_lexer::lex;
use syntax_parser::{parse_bound, parse_expr};
use syntax_tree::{Multiplicity, depth};

/// How many tokens the expression has, and its depth.
fn expression(alloc: Global, text: &[u8]) -> Result<(usize, u32), Fail> {
    if text.len() > 100_000 {
        return Ok((0, 0));
    }
    let tokens = lex(alloc, 0, text)?;
    let parsed = parse_expr(alloc, &tokens, 0)?;
    Ok((parsed.next, depth(&parsed.tree)))
}

#[test]
fn expressions(rt: HostRuntime) -> Result<(), Fail> {
    assert_eq!(rt; expression(rt.alloc(), b"1 + x.y )")?, (5, 2));
    Ok(())
}

#[test]
fn bounds(rt: HostRuntime) -> Result<(), Fail> {
    let alloc = rt.alloc();
    let tokens = lex(alloc, 0, b"some A -> lone B {")?;
    let parsed = parse_bound(alloc, &tokens, 0)?;
    assert!(rt; matches!(parsed.word, Some(Multiplicity::Some)));
    assert_eq!(rt; parsed.next, 5);
    Ok(())
}
