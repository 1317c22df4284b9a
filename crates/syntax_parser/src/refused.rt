//! What the parsers refuse: the least token at which no text goes on.

ghost use Rattle.std.specs.Prelude.{◌≡◌, ◌<◌, ◌+◌, length, drop, take, IfOk, IfSome, IsTrue, None, Some};
ghost use Rattle.syntax_tree.specs.Spelling.{kinds};
ghost use Rattle.syntax_machine.specs.Deaths.{NoneBegins};
ghost use Rattle.syntax_parser.specs.Begins.{Begins};
ghost use Rattle.syntax_parser.specs.Refuses.{is_of_grammar, AccordsWith, Stops, IsOfTokens};

use crate::front::begins;
use base_types::limits::TREE_DEPTH;
use base_types::{Fault, Refusal, Rule};
use std::alloc::{AllocError, Global};
use syntax_machine::{Root, first_death};
use syntax_tree::Token;

/// The refusal of a token.
fn refusal_at(kind: Root, tokens: &[Token], number: usize, rule: Rule) -> Refusal
    requires within { number < length tokens.now }
    requires begins { Begins kind TREE_DEPTH (take number (kinds tokens.now)) }
    requires ends { Begins kind TREE_DEPTH (take (number + 1) (kinds tokens.now)) → ⊥ }
    requires grammar { IsTrue (is_of_grammar rule) }
    requires accords { AccordsWith rule kind (take (number + 1) (kinds tokens.now)) }
    ensures { Stops kind tokens.now result }
{
    // for the proof: only the clauses name the kind
    let _ = kind;
    let token = &tokens[number];
    Refusal {
        rule,
        place: token.place,
    }
}

/// How deep texts may be that show that one goes on past the limit of depth.
const DEEPER: u16 = 500;

/// Whether it is the death of the token of this number.
fn is_at(death: Option<usize>, number: usize) -> bool
    ensures { IsTrue result → death ≡ Some number }
{
    match death {
        None => false,
        Some(first) => {
            if first == number {
                return true;
            }
            false
        }
    }
}

/// The rule that this token breaks, at which no text within the limit of depth goes on: `Syntax`
/// where none of any depth does. There is none where a deeper text may, but none was found.
fn rule_of(
    alloc: Global,
    kind: Root,
    tokens: &[Token],
    number: usize,
) -> Result<Option<Rule>, AllocError>
    requires { number < length tokens.now }
    ensures grammar { IfOk result (λ o. IfSome o (λ rule. IsTrue (is_of_grammar rule))) }
    ensures accords { IfOk result (λ o. IfSome o (λ rule. AccordsWith rule kind
        (take (number + 1) (kinds tokens.now)))) }
{
    let (front, _) = tokens.split_at(number + 1);
    let death = first_death(alloc, front, kind, None)?;
    if is_at(death, number) {
        return Ok(Some(Rule::Syntax));
    }
    let found = begins(alloc, kind, front, DEEPER)?;
    if !found {
        return Ok(None);
    }
    Ok(Some(Rule::TooDeep))
}

/// The refusal of this token, at which no text within the limit of depth goes on. There is none
/// where no text was found that begins with the tokens before it.
fn refusal_behind(
    alloc: Global,
    kind: Root,
    tokens: &[Token],
    number: usize,
) -> Result<Option<Refusal>, AllocError>
    requires within { number < length tokens.now }
    requires none { NoneBegins kind (Some TREE_DEPTH) (take (number + 1) (kinds tokens.now)) }
    ensures { IfOk result (λ o. IfSome o (Stops kind tokens.now)) }
{
    let (front, _) = tokens.split_at(number);
    let found = begins(alloc, kind, front, TREE_DEPTH as u16)?;
    if !found {
        return Ok(None);
    }
    let broken = rule_of(alloc, kind, tokens, number)?;
    match broken {
        None => Ok(None),
        Some(rule) => Ok(Some(refusal_at(kind, tokens, number, rule))),
    }
}

/// The refusal of the least token at which no text of this kind within the limit of depth goes on.
/// There is none where some thread goes along all tokens.
fn refusal_of(alloc: Global, kind: Root, tokens: &[Token]) -> Result<Option<Refusal>, AllocError>
    ensures { IfOk result (λ o. IfSome o (Stops kind tokens.now)) }
{
    let death = first_death(alloc, tokens, kind, Some(TREE_DEPTH))?;
    match death {
        None => Ok(None),
        Some(number) => Ok(refusal_behind(alloc, kind, tokens, number)?),
    }
}

/// Why no text of this kind begins with all of these tokens: the refusal of the least at which none
/// goes on. Where memory is wanting, or one does go on, it is `Memory`.
pub fn refuse_tokens(alloc: Global, kind: Root, tokens: &[Token]) -> Fault
    ensures { IsOfTokens kind tokens.now result }
{
    match refusal_of(alloc, kind, tokens) {
        Ok(Some(refusal)) => Fault::Refused(refusal),
        _ => Fault::Memory,
    }
}

/// A fault in reading these tokens.
pub fn of_tokens(alloc: Global, kind: Root, tokens: &[Token], fault: Fault) -> Fault
    ensures { IsOfTokens kind tokens.now result }
{
    match fault {
        Fault::Memory => Fault::Memory,
        Fault::Refused(_) => refuse_tokens(alloc, kind, tokens),
    }
}

/// A fault in reading from this place in the list on.
pub fn fault_from(alloc: Global, kind: Root, tokens: &[Token], from: usize, fault: Fault) -> Fault
    requires { from < length tokens.now }
    ensures { IsOfTokens kind (drop from tokens.now) result }
{
    let (_before, rest) = tokens.split_at(from);
    of_tokens(alloc, kind, rest, fault)
}
