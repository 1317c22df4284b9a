//! Spells expressions and formulas: their tokens, one after another.
#![tactic(auto, using(crate::proofs::Parts::regrouped, crate::proofs::Parts::joined_next, crate::proofs::Parts::joined_end, crate::proofs::Parts::separated_next, crate::proofs::Parts::separated_end))]

ghost use Rattle.std.specs.Prelude.{◌≡◌, ◌++◌, map, OnOk};
ghost use Rattle.syntax_tree.specs.Spelling as s;
ghost use Rattle.syntax_tree.specs.declared.token.Symbol.TheVariants as sym;
ghost use Rattle.syntax_printer.specs.Separated.{before_bound, before_value, other_words};

use crate::part::{Part, separated};
use crate::words::{
    comparison, constant_word, infix, multiplicity, optional, prefix_token, put, quantifier_word,
    symbol, word,
};
use base_lists::Boxed;
use base_types::Name;
use std::alloc::{AllocError, Global};
use syntax_tree::{Access, Binding, Decl, Expr, Infix, Symbol, TokenKind, Word};

/// The tokens of a tree.
#[tactic(auto, using(crate::proofs::Parts::regrouped, crate::proofs::Forms::spelled_Name, crate::proofs::Forms::spelled_At, crate::proofs::Forms::spelled_Constant, crate::proofs::Forms::spelled_Number, crate::proofs::Forms::spelled_Negative, crate::proofs::Forms::spelled_Literal, crate::proofs::Forms::spelled_Parenthesis, crate::proofs::Forms::spelled_Block, crate::proofs::Forms::spelled_Comprehension, crate::proofs::Forms::spelled_Quantified, crate::proofs::Forms::spelled_Let, crate::proofs::Forms::spelled_Sequence, crate::proofs::Forms::spelled_Implication, crate::proofs::Forms::spelled_Compare, crate::proofs::Forms::spelled_Prefix, crate::proofs::Forms::spelled_Infix, crate::proofs::Forms::spelled_Join, crate::proofs::Forms::spelled_Prime))]
#[cycle(spelled)]
pub fn expr(alloc: Global, tree: &Expr, words: &mut Vec<TokenKind>) -> Result<(), AllocError>
    ensures { OnOk result (words.new.items ≡ words.old.items ++ s.spelling tree.now) }
{
    match tree {
        Expr::Name(name) => name.spell(alloc, words),
        Expr::At(_, name) => {
            symbol(Symbol::At, words)?;
            name.spell(alloc, words)
        }
        Expr::Constant(_, constant) => word(constant_word(*constant), words),
        Expr::Number(_, number) => put(TokenKind::Number(*number), words),
        Expr::Negative(_, number) => {
            symbol(Symbol::Minus, words)?;
            put(TokenKind::Number(*number), words)
        }
        Expr::Literal(_, text) => {
            let text = Name::copy(alloc, text.text())?;
            put(TokenKind::Literal(text), words)
        }
        Expr::Parenthesis(_, inner) => {
            symbol(Symbol::OpenParenthesis, words)?;
            expr(alloc, inner.get(), words)?;
            symbol(Symbol::CloseParenthesis, words)
        }
        Expr::Block(_, items) => {
            symbol(Symbol::OpenBrace, words)?;
            exprs(alloc, items.as_slice(), words)?;
            symbol(Symbol::CloseBrace, words)
        }
        Expr::Comprehension(_, variables, has_bar, body) => {
            symbol(Symbol::OpenBrace, words)?;
            decls(alloc, variables.as_slice(), words)?;
            optional(*has_bar, TokenKind::Symbol(Symbol::Bar), words)?;
            expr(alloc, body.get(), words)?;
            symbol(Symbol::CloseBrace, words)
        }
        Expr::Quantified(_, quantifier, variables, has_bar, body) => {
            word(quantifier_word(*quantifier), words)?;
            decls(alloc, variables.as_slice(), words)?;
            optional(*has_bar, TokenKind::Symbol(Symbol::Bar), words)?;
            expr(alloc, body.get(), words)
        }
        Expr::Let(_, names, has_bar, body) => {
            word(Word::Let, words)?;
            bindings(alloc, names.as_slice(), words)?;
            optional(*has_bar, TokenKind::Symbol(Symbol::Bar), words)?;
            expr(alloc, body.get(), words)
        }
        Expr::Sequence(first, second) => {
            expr(alloc, first.get(), words)?;
            symbol(Symbol::Semicolon, words)?;
            expr(alloc, second.get(), words)
        }
        Expr::Implication(is_word, condition, consequence, other) => {
            expr(alloc, condition.get(), words)?;
            put(implies_token(*is_word), words)?;
            expr(alloc, consequence.get(), words)?;
            alternative(alloc, other, words)
        }
        Expr::Compare(operator, left, right) => {
            expr(alloc, left.get(), words)?;
            comparison(*operator, words)?;
            expr(alloc, right.get(), words)
        }
        Expr::Prefix(_, operator, operand) => {
            put(prefix_token(*operator), words)?;
            expr(alloc, operand.get(), words)
        }
        Expr::Infix(first, rest) => {
            expr(alloc, first.get(), words)?;
            links(alloc, rest.as_slice(), words)
        }
        Expr::Join(first, rest) => {
            expr(alloc, first.get(), words)?;
            steps(alloc, rest.as_slice(), words)
        }
        Expr::Prime(operand) => {
            expr(alloc, operand.get(), words)?;
            symbol(Symbol::Prime, words)
        }
    }
}

fn implies_token(is_word: bool) -> TokenKind
    ensures { result ≡ s.implies_token is_word }
{
    if is_word {
        TokenKind::Word(Word::Implies)
    } else {
        TokenKind::Symbol(Symbol::FatArrow)
    }
}

/// What stands after `else`, with it.
#[cycle(spelled)]
fn alternative(
    alloc: Global,
    other: &Option<Boxed<Expr>>,
    words: &mut Vec<TokenKind>,
) -> Result<(), AllocError>
    ensures { OnOk result (words.new.items ≡ words.old.items ++ other_words other.now) }
{
    match other {
        None => Ok(()),
        Some(other) => {
            word(Word::Else, words)?;
            expr(alloc, other.get(), words)
        }
    }
}

/// Expressions one after another.
#[cycle(spelled)]
fn exprs(alloc: Global, items: &[Expr], words: &mut Vec<TokenKind>) -> Result<(), AllocError>
    ensures { OnOk result (words.new.items ≡ words.old.items
        ++ s.joined (map s.spelling items.now)) }
{
    for item in items {
        expr(alloc, item, words)?;
    }
    Ok(())
}

/// Variables with their bounds.
#[tactic(auto, using(crate::proofs::Parts::decls_next, crate::proofs::Parts::separated_end))]
#[cycle(spelled)]
pub fn decls(
    alloc: Global,
    decls: &[Decl<Expr>],
    words: &mut Vec<TokenKind>,
) -> Result<(), AllocError>
    ensures { OnOk result (words.new.items ≡ words.old.items
        ++ s.separated sym.Comma (map (λ d. s.decl_words (s.spelled_decl d)) decls.now)) }
{
    let mut is_first = true;
    for one in decls {
        optional(!is_first, TokenKind::Symbol(Symbol::Comma), words)?;
        variables(alloc, one, words)?;
        expr(alloc, &one.bound, words)?;
        is_first = false;
    }
    Ok(())
}

/// What stands before the bound's expression.
fn variables(alloc: Global, of: &Decl<Expr>, words: &mut Vec<TokenKind>) -> Result<(), AllocError>
    ensures { OnOk result (words.new.items ≡ words.old.items ++ before_bound of.now) }
{
    optional(of.is_disjoint, TokenKind::Word(Word::Disj), words)?;
    separated(alloc, Symbol::Comma, of.names.as_slice(), words)?;
    symbol(Symbol::Colon, words)?;
    multiplicity(of.word, words)
}

/// Names with their values.
#[tactic(auto, using(crate::proofs::Parts::bindings_next, crate::proofs::Parts::separated_end))]
#[cycle(spelled)]
fn bindings(
    alloc: Global,
    bindings: &[Binding<Expr>],
    words: &mut Vec<TokenKind>,
) -> Result<(), AllocError>
    ensures { OnOk result (words.new.items ≡ words.old.items
        ++ s.separated sym.Comma (map (λ b. s.binding_words (s.spelled_binding b)) bindings.now)) }
{
    let mut is_first = true;
    for one in bindings {
        optional(!is_first, TokenKind::Symbol(Symbol::Comma), words)?;
        bound_name(alloc, one, words)?;
        expr(alloc, &one.value, words)?;
        is_first = false;
    }
    Ok(())
}

/// What stands before the value.
fn bound_name(
    alloc: Global,
    of: &Binding<Expr>,
    words: &mut Vec<TokenKind>,
) -> Result<(), AllocError>
    ensures { OnOk result (words.new.items ≡ words.old.items ++ before_value of.now) }
{
    of.name.spell(alloc, words)?;
    symbol(Symbol::Equal, words)
}

/// Operators with the operands after them.
#[cycle(spelled)]
fn links(
    alloc: Global,
    links: &[(Infix, Expr)],
    words: &mut Vec<TokenKind>,
) -> Result<(), AllocError>
    ensures { OnOk result (words.new.items ≡ words.old.items
        ++ s.joined (map (λ l. s.link_words (s.spelled_link l)) links.now)) }
{
    for link in links {
        infix(alloc, link.0, words)?;
        expr(alloc, &link.1, words)?;
    }
    Ok(())
}

/// The steps of a join.
#[cycle(spelled)]
fn steps(
    alloc: Global,
    steps: &[Access<Expr>],
    words: &mut Vec<TokenKind>,
) -> Result<(), AllocError>
    ensures { OnOk result (words.new.items ≡ words.old.items
        ++ s.joined (map (λ a. s.access_words (s.spelled_access a)) steps.now)) }
{
    for one in steps {
        match one {
            Access::Dot(operand) => {
                symbol(Symbol::Dot, words)?;
                expr(alloc, operand, words)?;
            }
            Access::Bracket(items) => {
                symbol(Symbol::OpenBracket, words)?;
                let mut is_first = true;
                let items = items.as_slice();
                for item in items {
                    optional(!is_first, TokenKind::Symbol(Symbol::Comma), words)?;
                    expr(alloc, item, words)?;
                    is_first = false;
                }
                symbol(Symbol::CloseBracket, words)?;
            }
        }
    }
    Ok(())
}
