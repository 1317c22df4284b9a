//! What has no parts: names, constants, numbers and literals.

ghost use Rattle.std.specs.Prelude.{◌≡◌, ℕ, ◌+◌, [], ◌∷◌, ◌++◌, true, Some, IfOk, IfSome, codes, pos, ◌-ℤ◌};
ghost use Rattle.base_types.specs.declared.place.Position.{Position};
ghost use Rattle.syntax_tree.specs.declared.expr.Expr.{Expr as Written};
ghost use Rattle.syntax_tree.specs.declared.expr.Expr.TheVariants as expr;
ghost use Rattle.core_tree.specs.Trees.{Term, name, number, sig, term_of};
ghost use Rattle.resolve_said.specs.Locals.{number_of, scope_of};
ghost use Rattle.resolve_said.specs.Operators.{a_set};
ghost use Rattle.resolve_said.specs.Parts.{said_by};
ghost use Rattle.resolve_said.specs.Said.{LiteralSays, Says, constant_of, standing_of, string_sig};

use crate::names::{is_name, says_field, says_name};
use crate::part::Part;
use crate::place::Site;
use crate::scope::{Locals, find};
use base_types::{Name, Position};
use core_tree::{Expr, Sig};
use resolve_names::Namespace;
use std::alloc::{AllocError, Global};
use syntax_tree::{Constant, Expr as Tree};

/// Whether the part is the innermost `this` in scope.
fn says_this(locals: &Locals<'_>, part: &Part<'_>) -> Result<bool, AllocError>
    ensures { IfOk result (λ b. b ≡ true → (n : ℕ)
        × (number_of (codes "this") (scope_of locals.now) ≡ Some n)
        × (said_by part.now ≡ a_set (name n))) }
{
    let found = find(locals, "this")?;
    match found.number {
        None => Ok(false),
        Some(number) => Ok(is_name(part, number)),
    }
}

/// The number of `String`.
fn string_sig(scopes: &[Namespace]) -> Result<u64, AllocError>
    ensures { IfOk result (λ n. n ≡ string_sig scopes.now) }
{
    let mut count: u64 = 0;
    for scope in scopes {
        count = plus(count, scope.sigs)?;
    }
    Ok(count)
}

/// So many more.
fn plus(count: u64, more: u32) -> Result<u64, AllocError>
    ensures { IfOk result (λ n. n ≡ count + more) }
{
    if count > u64::MAX - more as u64 {
        // There are never so many sigs.
        return Err(AllocError);
    }
    Ok(count + more as u64)
}

/// Whether the expression is the sig.
fn is_sig(number: u64, expr: &Expr) -> bool
    ensures { result ≡ true → term_of expr.now ≡ sig number }
{
    match expr {
        Expr::Sig(found) => *found as u64 == number,
        _ => false,
    }
}

/// Whether the expression is the constant.
fn is_constant(site: &Site<'_>, word: Constant, expr: &Expr) -> Result<bool, AllocError>
    ensures { IfOk result (λ b. b ≡ true
        → constant_of site.now.names.now.scopes word ≡ Some (term_of expr.now)) }
{
    match word {
        Constant::This => Ok(false),
        Constant::Univ => Ok(matches!(expr, Expr::Univ)),
        Constant::Iden => Ok(matches!(expr, Expr::Iden)),
        Constant::None => Ok(matches!(expr, Expr::Empty)),
        Constant::Int => Ok(matches!(expr, Expr::Int)),
        Constant::String => {
            let string = string_sig(site.names.scopes.as_slice())?;
            Ok(is_sig(string, expr))
        }
    }
}

/// Whether the part is the constant, which isn't `this`.
fn says_other(site: &Site<'_>, word: Constant, part: &Part<'_>) -> Result<bool, AllocError>
    ensures { IfOk result (λ b. b ≡ true → (t : Term)
        × (constant_of site.now.names.now.scopes word ≡ Some t)
        × (said_by part.now ≡ a_set t)) }
{
    match part {
        Part::Set(expr) => {
            let said = is_constant(site, word, *expr)?;
            Ok(said)
        }
        _ => Ok(false),
    }
}

/// Whether the part is what the constant says.
fn says_constant(
    site: &Site<'_>,
    locals: &Locals<'_>,
    word: Constant,
    part: &Part<'_>,
) -> Result<bool, AllocError>
    ensures { IfOk result (λ b. b ≡ true → (e : Written) (p : Position) → e ≡ expr.Constant p word
        → Says (standing_of site.now) (scope_of locals.now) e (said_by part.now)) }
{
    match word {
        Constant::This => {
            let said = says_this(locals, part)?;
            Ok(said)
        }
        _ => {
            let said = says_other(site, word, part)?;
            Ok(said)
        }
    }
}

/// Whether two places are the same.
fn same_place(a: Position, b: Position) -> bool
    ensures { result ≡ true → a ≡ b }
{
    a.module == b.module && a.line == b.line && a.column == b.column
}

/// Whether the part is the number at that place.
fn is_number(place: Position, value: &i64, part: &Part<'_>) -> bool
    ensures { result ≡ true → said_by part.now ≡ a_set (number value.now place) }
{
    match part {
        Part::Set(expr) => match *expr {
            Expr::Number(found, at) => *found == *value && same_place(*at, place),
            _ => false,
        },
        _ => false,
    }
}

/// The number as an integer.
fn positive(number: u32) -> i64
    ensures { result ≡ pos number }
{
    i64::from(number)
}

/// The number below zero.
fn negative(number: u32) -> i64
    ensures { result ≡ pos 0 -ℤ pos number }
{
    0 - i64::from(number)
}

/// The text between quotes.
fn quoted(alloc: Global, text: &Name) -> Result<Vec<u8>, AllocError>
    ensures { IfOk result (λ all. all.items ≡ 34 ∷ text.now ++ 34 ∷ []) }
{
    let mut all = Vec::new(alloc);
    all.push(34)?;
    all.extend_from_slice(text.text().as_bytes())?;
    all.push(34)?;
    Ok(all)
}

/// Whether the sig is that of the literal.
fn is_literal(alloc: Global, found: &Sig, text: &Name) -> Result<bool, AllocError>
    ensures { IfOk result (λ b. b ≡ true → found.now.label ≡ 34 ∷ text.now ++ 34 ∷ []) }
{
    let all = quoted(alloc, text)?;
    Ok(found.label.text().as_bytes() == all.as_slice())
}

/// The sig that the part is.
fn sig_of(part: &Part<'_>) -> Option<u32>
    ensures { IfSome result (λ n. said_by part.now ≡ a_set (sig n)) }
{
    match part {
        Part::Set(expr) => match *expr {
            Expr::Sig(found) => Some(*found),
            _ => None,
        },
        _ => None,
    }
}

/// Whether the part is the sig of the literal.
fn says_literal(
    alloc: Global,
    site: &Site<'_>,
    text: &Name,
    part: &Part<'_>,
) -> Result<bool, AllocError>
    ensures { IfOk result (λ b. b ≡ true → (n : ℕ) × LiteralSays (standing_of site.now) text.now n
        × (said_by part.now ≡ a_set (sig n))) }
{
    let found = match sig_of(part) {
        None => return Ok(false),
        Some(found) => found,
    };
    let number = found as usize;
    if number >= site.model.sigs.len() {
        return Ok(false);
    }
    let said = is_literal(alloc, site.model.sigs.get(number), text)?;
    Ok(said)
}

/// Whether the part is what an expression without parts says.
pub fn says_leaf(
    alloc: Global,
    site: &Site<'_>,
    locals: &Locals<'_>,
    tree: &Tree,
    part: &Part<'_>,
) -> Result<bool, AllocError>
    ensures { IfOk result (λ b. b ≡ true → Says (standing_of site.now) (scope_of locals.now)
        tree.now (said_by part.now)) }
{
    match tree {
        Tree::Name(name) => {
            let said = says_name(alloc, site, locals, name, part)?;
            Ok(said)
        }
        Tree::At(_, name) => {
            let said = says_field(alloc, site, name, part)?;
            Ok(said)
        }
        Tree::Constant(_, word) => {
            let said = says_constant(site, locals, *word, part)?;
            Ok(said)
        }
        Tree::Number(place, number) => {
            let value = positive(*number);
            Ok(is_number(*place, &value, part))
        }
        Tree::Negative(place, number) => {
            let value = negative(*number);
            Ok(is_number(*place, &value, part))
        }
        Tree::Literal(_, text) => {
            let said = says_literal(alloc, site, text, part)?;
            Ok(said)
        }
        _ => Ok(false),
    }
}
