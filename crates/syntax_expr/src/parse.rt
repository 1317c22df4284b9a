//! Parses an expression, a bound or a block: these are the calls that other crates make.

ghost use Rattle.std.specs.Prelude.{◌≡◌, ◌++◌, ◌<◌, ◌&&◌, nat_le, length, drop, map, IfOk, IsTrue};
ghost use Rattle.syntax_tree.specs.Words.{multiplicity_words};
ghost use Rattle.syntax_tree.specs.Spelling.{spelling, decls_spelling, EndsWell};
ghost use Rattle.syntax_tree.specs.Levels as levels;
ghost use Rattle.syntax_tree.specs.Depth.{depth_of, deepest};
ghost use Rattle.syntax_tree.specs.ModuleWords.{bound_words};
ghost use Rattle.syntax_tree.specs.ModuleRules.{value_right, block_right, bound_right, decls_within};
ghost use Rattle.syntax_expr.specs.Reads.{Reads, Spells};
ghost use Rattle.syntax_expr.specs.Nests.{tree_words};

use crate::cursor::Cursor;
use crate::grammar::{BOUND, Grammar, expr};
use crate::quantified::multiplicity_word;
use crate::setting::Setting;
use base_lists::Items;
use base_types::{Fault, Rule};
use std::alloc::Global;
use syntax_tree::{
    Bound, Decl, Expr, Multiplicity, Token, decls_right, deepest_bound, depth, shape_of,
};

/// A tree, and the place in the list of tokens after it.
#[derive(Drop)]
pub struct Parsed {
    pub tree: Expr,
    pub next: usize,
}

/// The expression of a bound, the multiplicity word before it, and the place in the list of tokens after them.
#[derive(Drop)]
pub struct ParsedBound {
    pub word: Option<Multiplicity>,
    pub tree: Expr,
    pub next: usize,
}

/// Whether a tree of this depth is no deeper than the limit.
fn is_shallow(tree: &Expr, limit: u16) -> bool
    ensures { result ≡ nat_le (depth_of tree.now) limit }
{
    let depth = depth(tree);
    depth <= limit as u32
}

/// Whether no bound is deeper than the limit.
fn are_shallow(decls: &[Decl<Expr>], limit: u16) -> bool
    ensures { result ≡ nat_le (deepest (map (λ d. depth_of d.bound) decls.now)) limit }
{
    let deepest = deepest_bound(decls);
    deepest <= limit as u32
}

fn is_value(tree: &Expr, limit: u16) -> bool
    ensures { result ≡ value_right limit tree.now }
{
    let shape = shape_of(tree);
    let shallow = is_shallow(tree, limit);
    shape.right && shallow
}

fn is_block(tree: &Expr, limit: u16) -> bool
    ensures { result ≡ block_right limit tree.now }
{
    let shape = shape_of(tree);
    let shallow = is_shallow(tree, limit);
    shape.right && shape.is_block && shallow
}

fn is_bound(tree: &Expr, limit: u16) -> bool
    ensures { result ≡ levels.is_bound tree.now && nat_le (depth_of tree.now) limit }
{
    let shape = shape_of(tree);
    let shallow = is_shallow(tree, limit);
    shape.right && 10 <= shape.level && !shape.has_zero && shallow
}

fn are_decls(decls: &[Decl<Expr>], limit: u16) -> bool
    ensures { result ≡ decls_within limit decls.now }
{
    let right = decls_right(decls);
    let shallow = are_shallow(decls, limit);
    right && shallow
}

/// The tree, where it keeps the rules on levels and is no deeper than the limit. The rules of
/// the grammar read no other; it is tested once more on the tree itself.
fn checked_value(cursor: &Cursor<'_>, tree: Expr, limit: u16) -> Result<Expr, Fault>
    ensures same { IfOk result (λ e. e ≡ tree) }
    ensures right { IfOk result (λ e. IsTrue (value_right limit e)) }
{
    if !is_value(&tree, limit) {
        return Err(cursor.refuse(Rule::TooDeep));
    }
    Ok(tree)
}

/// The same for a block.
fn checked_block(cursor: &Cursor<'_>, tree: Expr, limit: u16) -> Result<Expr, Fault>
    ensures same { IfOk result (λ e. e ≡ tree) }
    ensures right { IfOk result (λ e. IsTrue (block_right limit e)) }
{
    if !is_block(&tree, limit) {
        return Err(cursor.refuse(Rule::TooDeep));
    }
    Ok(tree)
}

/// The same for a bound.
fn checked_bound(cursor: &Cursor<'_>, bound: Bound, limit: u16) -> Result<Bound, Fault>
    ensures same { IfOk result (λ b. b ≡ bound) }
    ensures right { IfOk result (λ b. IsTrue (bound_right limit b)) }
{
    if !is_bound(&bound.tree, limit) {
        return Err(cursor.refuse(Rule::TooDeep));
    }
    Ok(bound)
}

/// The same for lists of variables.
fn checked_decls(
    cursor: &Cursor<'_>,
    decls: Items<Decl<Expr>>,
    limit: u16,
) -> Result<Items<Decl<Expr>>, Fault>
    ensures same { IfOk result (λ ds. ds ≡ decls) }
    ensures right { IfOk result (λ ds. IsTrue (decls_within limit ds)) }
{
    if !are_decls(decls.as_slice(), limit) {
        return Err(cursor.refuse(Rule::TooDeep));
    }
    Ok(decls)
}

/// The expression that comes next: one that keeps the rules on levels, whose depth is this limit at
/// most.
pub fn expr_at(alloc: Global, cursor: &mut Cursor<'_>, limit: u16) -> Result<Expr, Fault>
    ensures reads { Reads spelling cursor.old result cursor.new }
    ensures right { IfOk result (λ e. IsTrue (value_right limit e)) }
{
    let part = expr(alloc, cursor, limit as u32 + 1, 0, Setting::Alone)?;
    checked_value(cursor, part.tree, limit)
}

/// The block that comes next: one that keeps the rules on levels, whose depth is this limit at
/// most.
pub fn block_at(alloc: Global, cursor: &mut Cursor<'_>, limit: u16) -> Result<Expr, Fault>
    ensures reads { Reads spelling cursor.old result cursor.new }
    ensures right { IfOk result (λ e. IsTrue (block_right limit e)) }
{
    let part = expr(alloc, cursor, limit as u32 + 1, 0, Setting::Body)?;
    checked_block(cursor, part.tree, limit)
}

/// The bound that comes next: one that keeps the rules on levels, whose depth is this limit at
/// most.
pub fn bound_at(alloc: Global, cursor: &mut Cursor<'_>, limit: u16) -> Result<Bound, Fault>
    ensures reads { Reads bound_words cursor.old result cursor.new }
    ensures right { IfOk result (λ b. IsTrue (bound_right limit b)) }
{
    let place = cursor.place();
    let word = multiplicity_word(cursor);
    let part = expr(alloc, cursor, limit as u32 + 1, BOUND, Setting::Bound)?;
    let tree = part.tree;
    checked_bound(cursor, Bound { place, word, tree }, limit)
}

/// One or more lists of variables with their bounds, which come next and keep the rules.
pub fn decls_at(
    alloc: Global,
    cursor: &mut Cursor<'_>,
    limit: u16,
) -> Result<Items<Decl<Expr>>, Fault>
    ensures reads { Reads decls_spelling cursor.old result cursor.new }
    ensures right { IfOk result (λ ds. IsTrue (decls_within limit ds)) }
{
    let (found, _) = Grammar {
        alloc,
        depth: limit as u32 + 1,
        setting: Setting::Alone,
        expr,
    }
    .decls(cursor)?;
    checked_decls(cursor, found, limit)
}

/// A cursor at this place in the list.
fn cursor_at(tokens: &[Token], from: usize) -> Cursor<'_>
    requires ends { EndsWell tokens.now }
    requires in_range { from < length tokens.now }
    ensures { result ≡ drop from tokens.now }
{
    Cursor::new(&tokens[from..])
}

/// The expression that begins at this place in the list.
pub fn parse_expr(alloc: Global, tokens: &[Token], from: usize, limit: u16) -> Result<Parsed, Fault>
    requires ends { EndsWell tokens.now }
    requires in_range { from < length tokens.now }
    ensures spells { IfOk result (λ p. Spells tokens.now from p.next (spelling p.tree)) }
    ensures right { IfOk result (λ p. IsTrue (value_right limit p.tree)) }
{
    let mut cursor = cursor_at(tokens, from);
    let tree = expr_at(alloc, &mut cursor, limit)?;
    let next = tokens.len() - cursor.left();
    Ok(Parsed { tree, next })
}

/// The bound that begins at this place in the list.
pub fn parse_bound(
    alloc: Global,
    tokens: &[Token],
    from: usize,
    limit: u16,
) -> Result<ParsedBound, Fault>
    requires ends { EndsWell tokens.now }
    requires in_range { from < length tokens.now }
    ensures spells { IfOk result (λ p. Spells tokens.now from p.next
        (multiplicity_words p.word ++ spelling p.tree)) }
    ensures right { IfOk result (λ p. IsTrue (levels.is_bound p.tree && nat_le (depth_of p.tree)
        limit)) }
{
    let mut cursor = cursor_at(tokens, from);
    let bound = bound_at(alloc, &mut cursor, limit)?;
    let next = tokens.len() - cursor.left();
    Ok(ParsedBound {
        word: bound.word,
        tree: bound.tree,
        next,
    })
}

/// The block that begins at this place in the list.
pub fn parse_block(
    alloc: Global,
    tokens: &[Token],
    from: usize,
    limit: u16,
) -> Result<Parsed, Fault>
    requires ends { EndsWell tokens.now }
    requires in_range { from < length tokens.now }
    ensures spells { IfOk result (λ p. Spells tokens.now from p.next (spelling p.tree)) }
    ensures right { IfOk result (λ p. IsTrue (block_right limit p.tree)) }
{
    let mut cursor = cursor_at(tokens, from);
    let tree = block_at(alloc, &mut cursor, limit)?;
    let next = tokens.len() - cursor.left();
    Ok(Parsed { tree, next })
}
