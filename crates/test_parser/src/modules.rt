//! Modules that are taken, and their paragraphs.

use std::test::Fail;
use syntax_lexer::lex;
use syntax_parser::parse_module;
use syntax_tree::Paragraph;

#[test]
fn parts(rt: HostRuntime) -> Result<(), Fail> {
    let alloc = rt.alloc();
    let tokens = lex(
        alloc,
        0,
        b"module m open util/ordering[A] as o one sig A, B { f: A, } r: run p for 2",
    )?;
    let read = parse_module(alloc, &tokens)?;
    assert!(rt; read.header.is_some());
    assert_eq!(rt; read.opens.len(), 1);
    assert_eq!(rt; read.paragraphs.len(), 2);
    Ok(())
}

#[test]
fn first_paragraph(rt: HostRuntime) -> Result<(), Fail> {
    let alloc = rt.alloc();
    let tokens = lex(alloc, 0, b"private fun A.f[x: A] : one Int { 1 }")?;
    let read = parse_module(alloc, &tokens)?;
    assert!(rt; matches!(read.paragraphs.as_slice(), [Paragraph::Fun(_)]));
    Ok(())
}
