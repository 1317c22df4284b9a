//! Parses expressions, bounds and blocks into trees that keep the places of their tokens.

ghost use Rattle.std.specs.Prelude.{◌≡◌, ◌++◌, ◌<◌, ◌≤◌, ◌-◌, ◌&&◌, nat_le, length, take, drop, IfOk, IfErr, IsTrue};
ghost use Rattle.syntax_tree.specs.Words.{multiplicity_words};
ghost use Rattle.syntax_tree.specs.Spelling.{spelling, EndsWell};
ghost use Rattle.syntax_tree.specs.Levels as levels;
ghost use Rattle.syntax_tree.specs.Depth.{depth_of};
ghost use Rattle.syntax_tree.specs.ModuleRules.{value_right, block_right};
ghost use Rattle.syntax_places.specs.Pieces.{pieces, worded_pieces, at_places};
ghost use Rattle.syntax_expr.specs.Reads.{Spells};
ghost use Rattle.syntax_machine.specs.declared.thread.Root.TheVariants as root;
ghost use Rattle.syntax_parser.specs.Refuses.{IsOfTokens};

use crate::refused::fault_from;
use base_types::Fault;
use base_types::limits::TREE_DEPTH;
use std::alloc::Global;
use syntax_expr::{Parsed, ParsedBound};
use syntax_machine::Root;
use syntax_places::{has_bound_places, has_places};
use syntax_tree::Token;

/// The tree, where each of its places is that of its token. The rules of the parser keep no other
/// place; it is tested once more on the tree itself.
fn placed(kind: Root, tokens: &[Token], from: usize, parsed: Parsed) -> Result<Parsed, Fault>
    requires order { from ≤ parsed.next }
    requires within { parsed.next < length tokens.now }
    ensures same { IfOk result (λ p. p ≡ parsed) }
    ensures placed { IfOk result (λ p. IsTrue (at_places (pieces p.tree)
        (take (p.next - from) (drop from tokens.now)))) }
    ensures refused { IfErr result (λ e. IsOfTokens kind (drop from tokens.now) e) }
{
    // for the proof: only a clause names the kind
    let _ = kind;
    if !has_places(&parsed.tree, &tokens[from..parsed.next]) {
        return Err(Fault::Memory);
    }
    Ok(parsed)
}

/// The same for a bound.
fn placed_bound(tokens: &[Token], from: usize, parsed: ParsedBound) -> Result<ParsedBound, Fault>
    requires order { from ≤ parsed.next }
    requires within { parsed.next < length tokens.now }
    ensures same { IfOk result (λ p. p ≡ parsed) }
    ensures placed { IfOk result (λ p. IsTrue (at_places (worded_pieces p.word p.tree)
        (take (p.next - from) (drop from tokens.now)))) }
    ensures refused { IfErr result (λ e. IsOfTokens root.Bound (drop from tokens.now) e) }
{
    if !has_bound_places(parsed.word, &parsed.tree, &tokens[from..parsed.next]) {
        return Err(Fault::Memory);
    }
    Ok(parsed)
}

/// The expression that begins at this place in the list. The tree keeps the rules on levels, is of
/// depth 250 at most, and keeps the places of its tokens.
///
/// # Errors
/// `Refused` at a token such that no expression begins with the tokens from this place up to it:
/// none at all under `Syntax`, none within the limit of depth under `TooDeep`. Or `Memory`.
pub fn parse_expr(alloc: Global, tokens: &[Token], from: usize) -> Result<Parsed, Fault>
    requires ends { EndsWell tokens.now }
    requires in_range { from < length tokens.now }
    ensures spells { IfOk result (λ p. Spells tokens.now from p.next (spelling p.tree)) }
    ensures placed { IfOk result (λ p. IsTrue (at_places (pieces p.tree)
        (take (p.next - from) (drop from tokens.now)))) }
    ensures right { IfOk result (λ p. IsTrue (value_right TREE_DEPTH p.tree)) }
    ensures refused { IfErr result (λ e. IsOfTokens root.Expr (drop from tokens.now) e) }
{
    match syntax_expr::parse_expr(alloc, tokens, from, TREE_DEPTH as u16) {
        Ok(parsed) => placed(Root::Expr, tokens, from, parsed),
        Err(fault) => Err(fault_from(alloc, Root::Expr, tokens, from, fault)),
    }
}

/// The bound that begins at this place in the list. The tree keeps the rules on levels, is of depth
/// 250 at most, and keeps the places of its tokens.
///
/// # Errors
/// `Refused` at a token such that no bound begins with the tokens from this place up to it:
/// none at all under `Syntax`, none within the limit of depth under `TooDeep`. Or `Memory`.
pub fn parse_bound(alloc: Global, tokens: &[Token], from: usize) -> Result<ParsedBound, Fault>
    requires ends { EndsWell tokens.now }
    requires in_range { from < length tokens.now }
    ensures spells { IfOk result (λ p. Spells tokens.now from p.next
        (multiplicity_words p.word ++ spelling p.tree)) }
    ensures placed { IfOk result (λ p. IsTrue (at_places (worded_pieces p.word p.tree)
        (take (p.next - from) (drop from tokens.now)))) }
    ensures right { IfOk result (λ p. IsTrue (levels.is_bound p.tree && nat_le (depth_of p.tree)
        TREE_DEPTH)) }
    ensures refused { IfErr result (λ e. IsOfTokens root.Bound (drop from tokens.now) e) }
{
    match syntax_expr::parse_bound(alloc, tokens, from, TREE_DEPTH as u16) {
        Ok(parsed) => placed_bound(tokens, from, parsed),
        Err(fault) => Err(fault_from(alloc, Root::Bound, tokens, from, fault)),
    }
}

/// The block that begins at this place in the list. The tree keeps the rules on levels, is of depth
/// 250 at most, and keeps the places of its tokens.
///
/// # Errors
/// `Refused` at a token such that no block begins with the tokens from this place up to it:
/// none at all under `Syntax`, none within the limit of depth under `TooDeep`. Or `Memory`.
pub fn parse_block(alloc: Global, tokens: &[Token], from: usize) -> Result<Parsed, Fault>
    requires ends { EndsWell tokens.now }
    requires in_range { from < length tokens.now }
    ensures spells { IfOk result (λ p. Spells tokens.now from p.next (spelling p.tree)) }
    ensures placed { IfOk result (λ p. IsTrue (at_places (pieces p.tree)
        (take (p.next - from) (drop from tokens.now)))) }
    ensures right { IfOk result (λ p. IsTrue (block_right TREE_DEPTH p.tree)) }
    ensures refused { IfErr result (λ e. IsOfTokens root.Block (drop from tokens.now) e) }
{
    match syntax_expr::parse_block(alloc, tokens, from, TREE_DEPTH as u16) {
        Ok(parsed) => placed(Root::Block, tokens, from, parsed),
        Err(fault) => Err(fault_from(alloc, Root::Block, tokens, from, fault)),
    }
}
