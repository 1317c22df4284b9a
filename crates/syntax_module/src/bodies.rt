//! Parses facts, assertions, predicates and functions.

ghost use Rattle.std.specs.Prelude.{◌≡◌, ◌++◌, ◌∷◌, [], map, IfOk, IfSome, IsTrue};
ghost use Rattle.syntax_tree.specs.declared.token.Word.TheVariants as w;
ghost use Rattle.syntax_tree.specs.declared.token.Symbol.TheVariants as s;
ghost use Rattle.syntax_tree.specs.Words.{word, symbol};
ghost use Rattle.syntax_tree.specs.Spelling.{kinds, spelling, optional, declared_name, decls_spelling};
ghost use Rattle.syntax_tree.specs.ModuleWords.{title_words, claim_words, parameters_words, receiver_words, pred_words, fun_words, sig_name_words, bound_words};
ghost use Rattle.syntax_tree.specs.ModuleRules.{on, sig_name_right, claim_right, parameters_right, pred_right, fun_right};
ghost use Rattle.syntax_expr.specs.Reads.{Reads};

use crate::sig_name::sig_name;
use crate::word::{expect_word, sees_name};
use base_lists::Items;
use base_types::Fault;
use std::alloc::Global;
use syntax_expr::{Cursor, block_at, bound_at, decls_at, expr_at};
use syntax_tree::{
    Bracket, Claim, Fun, Named, Parameters, Pred, SigName, Symbol, Token, TokenKind, Word,
};

fn title(alloc: Global, cursor: &mut Cursor<'_>) -> Result<Option<Named>, Fault>
    ensures { Reads title_words cursor.old result cursor.new }
{
    if !sees_name(cursor) {
        return Ok(None);
    }
    Ok(Some(cursor.named(alloc)?))
}

/// A block after this word, with a name or without one.
pub fn claim(
    alloc: Global,
    cursor: &mut Cursor<'_>,
    limit: u16,
    keyword: Word,
) -> Result<Claim, Fault>
    ensures right { IfOk result (λ found. IsTrue (claim_right limit found)) }
    ensures reads { Reads (claim_words keyword) cursor.old result cursor.new }
{
    let place = cursor.place();
    expect_word(cursor, keyword)?;
    let name = title(alloc, cursor)?;
    let block = block_at(alloc, cursor, limit)?;
    Ok(Claim { place, name, block })
}

fn round_parameters(alloc: Global, cursor: &mut Cursor<'_>, limit: u16) -> Result<Parameters, Fault>
    ensures right { IfOk result (λ found. IsTrue (parameters_right limit found)) }
    ensures reads { Reads (λ p. parameters_words (Some p)) cursor.old result cursor.new }
{
    cursor.expect(Symbol::OpenParenthesis)?;
    let bracket = Bracket::Round;
    if cursor.eat(Symbol::CloseParenthesis) {
        return Ok(Parameters {
            bracket,
            decls: Items::new(alloc),
        });
    }
    let decls = decls_at(alloc, cursor, limit)?;
    cursor.expect(Symbol::CloseParenthesis)?;
    Ok(Parameters { bracket, decls })
}

fn square_parameters(
    alloc: Global,
    cursor: &mut Cursor<'_>,
    limit: u16,
) -> Result<Parameters, Fault>
    ensures right { IfOk result (λ found. IsTrue (parameters_right limit found)) }
    ensures reads { Reads (λ p. parameters_words (Some p)) cursor.old result cursor.new }
{
    cursor.expect(Symbol::OpenBracket)?;
    let bracket = Bracket::Square;
    if cursor.eat(Symbol::CloseBracket) {
        return Ok(Parameters {
            bracket,
            decls: Items::new(alloc),
        });
    }
    let decls = decls_at(alloc, cursor, limit)?;
    cursor.expect(Symbol::CloseBracket)?;
    Ok(Parameters { bracket, decls })
}

/// The parameters, where a bracket comes next.
fn parameters(
    alloc: Global,
    cursor: &mut Cursor<'_>,
    limit: u16,
) -> Result<Option<Parameters>, Fault>
    ensures right { IfOk result (λ found. IsTrue (on (parameters_right limit) found)) }
    ensures reads { Reads parameters_words cursor.old result cursor.new }
{
    if cursor.sees(Symbol::OpenBracket) {
        return Ok(Some(square_parameters(alloc, cursor, limit)?));
    }
    if cursor.sees(Symbol::OpenParenthesis) {
        return Ok(Some(round_parameters(alloc, cursor, limit)?));
    }
    Ok(None)
}

/// Whether a name comes next that is not the beginning of a sig's name and a dot.
fn begins_bare(rest: &[Token]) -> bool {
    match rest {
        [first, second, ..] => {
            matches!(&first.kind, TokenKind::Name(_))
                && !matches!(&second.kind, TokenKind::Symbol(Symbol::Dot | Symbol::Slash))
        }
        _ => false,
    }
}

/// A sig's name and a dot, where they come next.
fn receiver(alloc: Global, cursor: &mut Cursor<'_>) -> Result<Option<SigName>, Fault>
    ensures right { IfOk result (λ found. IsTrue (on sig_name_right found)) }
    ensures reads { Reads receiver_words cursor.old result cursor.new }
{
    if begins_bare(cursor.rest()) {
        return Ok(None);
    }
    let name = sig_name(alloc, cursor)?;
    cursor.expect(Symbol::Dot)?;
    Ok(Some(name))
}

/// A predicate.
pub fn pred(alloc: Global, cursor: &mut Cursor<'_>, limit: u16) -> Result<Pred, Fault>
    ensures right { IfOk result (λ found. IsTrue (pred_right limit found)) }
    ensures reads { Reads pred_words cursor.old result cursor.new }
{
    let place = cursor.place();
    let is_private = cursor.eat_word(Word::Private);
    expect_word(cursor, Word::Pred)?;
    let receiver = receiver(alloc, cursor)?;
    let name = cursor.named(alloc)?;
    let parameters = parameters(alloc, cursor, limit)?;
    let block = block_at(alloc, cursor, limit)?;
    Ok(Pred {
        place,
        is_private,
        receiver,
        name,
        parameters,
        block,
    })
}

/// A function.
pub fn fun(alloc: Global, cursor: &mut Cursor<'_>, limit: u16) -> Result<Fun, Fault>
    ensures right { IfOk result (λ found. IsTrue (fun_right limit found)) }
    ensures reads { Reads fun_words cursor.old result cursor.new }
{
    let place = cursor.place();
    let is_private = cursor.eat_word(Word::Private);
    expect_word(cursor, Word::Fun)?;
    let receiver = receiver(alloc, cursor)?;
    let name = cursor.named(alloc)?;
    let parameters = parameters(alloc, cursor, limit)?;
    cursor.expect(Symbol::Colon)?;
    let result = bound_at(alloc, cursor, limit)?;
    cursor.expect(Symbol::OpenBrace)?;
    let value = expr_at(alloc, cursor, limit)?;
    cursor.expect(Symbol::CloseBrace)?;
    Ok(Fun {
        place,
        is_private,
        receiver,
        name,
        parameters,
        result,
        value,
    })
}
