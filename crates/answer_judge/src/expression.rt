//! The reading of the expression whose tuples are asked for, and its refusals.

ghost use Rattle.std.specs.Prelude.{◌≡◌, ◌<◌, ◌≤◌, ℕ, length, List, [], IfOk, IsTrue, Ok, Err};
ghost use Rattle.base_types.specs.declared.place.Refusal.{Refusal};
ghost use Rattle.syntax_tree.specs.Spelling.{EndsWell};
ghost use Rattle.syntax_tree.specs.declared.token.Token.{Token};
ghost use Rattle.syntax_lexer.specs.Tokens.{tokens_of};
ghost use Rattle.syntax_machine.specs.declared.thread.Root.TheVariants as root;
ghost use Rattle.syntax_parser.specs.Refuses.{IsOfTokens};
ghost use Rattle.syntax_tree.specs.declared.loaded.Loaded.{Loaded};
ghost use Rattle.core_tree.specs.declared.model.Model.{Model};
ghost use Rattle.resolve_read.specs.declared.types.Types.{Types};
ghost use Rattle.core_tree.specs.Trees.{term_of};
ghost use Rattle.resolve_check.specs.Kept.{IsRightValue};
ghost use Rattle.answer_judge.specs.Expression.{large_text, IfTree, IsChecked, IsReadAt, IsReadOf, SaysValue, TextSays};

use base_types::limits::MODULE_BYTES;
use base_types::{Fault, Position, Refusal, Rule};
use bound_scopes::check_value;
use core_meaning::Scopes;
use core_tree::{Expr, Model};
use resolve_model::{Value, resolve_value_with};
use resolve_names::names;
use resolve_picks::Picks;
use resolve_read::Types;
use resolve_told_sigs::says_value;
use std::alloc::{AllocError, Global};
use syntax_lexer::lex;
use syntax_machine::Root;
use syntax_parser::{parse_expr, refuse_tokens};
use syntax_tree::{Expr as Tree, Loaded, Token};

/// What the text of an expression comes to.
#[derive(Drop)]
pub enum ReadValue {
    /// What it means.
    Tree(Expr),
    /// The first rule that it breaks.
    Refused(Refusal),
}

/// Reads the text of an expression in the root of a model that was made from these texts, whose declarations have these types, and
/// checks it under the scopes of a command.
///
/// The text has this number in places. It is refused where it is longer than a module may be, where it can't be
/// cut into tokens, at the least of these at which no expression goes on, where a rule on names or readings is broken in it, or one on literals, on
/// past operators or on the depth of calls; the first of these counts.
pub fn read_value(
    alloc: Global,
    loaded: &Loaded,
    model: &Model,
    types: &Types,
    scopes: &Scopes,
    number: u32,
    text: &[u8],
) -> Result<ReadValue, AllocError>
    ensures large { MODULE_BYTES < length text.now →
        IfOk result (λ read. read ≡ ReadValue.Refused (large_text number)) }
    ensures cut { (broken : Refusal) → length text.now ≤ MODULE_BYTES →
        tokens_of number text.now ≡ Err broken → IfOk result
        (λ read. read ≡ ReadValue.Refused broken) }
    ensures told { (tokens : List Token) → length text.now ≤ MODULE_BYTES →
        tokens_of number text.now ≡ Ok tokens → IfOk result
        (IsReadOf loaded.now model.now types.now scopes.now.bits tokens) }
    ensures says { IfOk result (λ read. IfTree read
        (TextSays loaded.now model.now types.now number text.now)) }
{
    if text.len() > MODULE_BYTES {
        return Ok(ReadValue::Refused(large_text(number)));
    }
    match lex(alloc, number, text) {
        Ok(tokens) => parsed(alloc, loaded, model, types, scopes, &tokens),
        Err(Fault::Refused(refusal)) => Ok(ReadValue::Refused(refusal)),
        Err(Fault::Memory) => Err(AllocError),
    }
}

/// The refusal of a text that is too long.
fn large_text(number: u32) -> Refusal
    ensures { result ≡ large_text number }
{
    Refusal {
        rule: Rule::LargeFile,
        place: Position {
            module: number,
            line: 1,
            column: 1,
        },
    }
}

/// What these tokens come to.
fn parsed(
    alloc: Global,
    loaded: &Loaded,
    model: &Model,
    types: &Types,
    scopes: &Scopes,
    tokens: &[Token],
) -> Result<ReadValue, AllocError>
    requires ends { EndsWell tokens.now }
    requires some { 0 < length tokens.now }
    ensures { IfOk result (IsReadOf loaded.now model.now types.now scopes.now.bits tokens.now) }
{
    match parse_expr(alloc, tokens, 0) {
        Ok(parsed) => {
            let behind = parsed.next + 1;
            if behind < tokens.len() {
                // The expression ends before the text.
                let fault = refuse_tokens(alloc, Root::Expr, tokens);
                return stopped(tokens, fault);
            }
            let first = 0;
            let place = tokens[first].place;
            resolved(alloc, loaded, model, types, scopes, &parsed.tree, place)
        }
        Err(Fault::Refused(refusal)) => Ok(ReadValue::Refused(refusal)),
        Err(Fault::Memory) => Err(AllocError),
    }
}

/// What it comes to that no expression goes along these tokens.
fn stopped(tokens: &[Token], fault: Fault) -> Result<ReadValue, AllocError>
    requires { IsOfTokens root.Expr tokens.now fault }
    ensures { (loaded : Loaded) (model : Model) (types : Types) (bits : ℕ) →
        IfOk result (IsReadOf loaded model types bits tokens.now) }
{
    // for the proof: only the clauses name the tokens
    let _ = tokens;
    match fault {
        Fault::Refused(refusal) => Ok(ReadValue::Refused(refusal)),
        Fault::Memory => Err(AllocError),
    }
}

/// Whether a value is what an expression says in the root of what is loaded. A model is made only where no rule on names is
/// broken.
fn is_said(
    alloc: Global,
    loaded: &Loaded,
    model: &Model,
    types: &Types,
    picks: &Picks,
    tree: &Tree,
    value: &Expr,
) -> Result<bool, AllocError>
    ensures { IfOk result (λ b. IsTrue b → SaysValue loaded.now model.now types.now tree.now
        (term_of value.now)) }
{
    match names(alloc, loaded) {
        Ok(names) => {
            let said = says_value(alloc, &names, model, types, picks, 0, tree, value)?;
            Ok(said)
        }
        Err(_) => Err(AllocError),
    }
}

/// What this tree comes to, whose first token stands there. That the value is what the tree says is tested on the value itself: none is
/// known that isn't.
fn resolved(
    alloc: Global,
    loaded: &Loaded,
    model: &Model,
    types: &Types,
    scopes: &Scopes,
    tree: &Tree,
    first: Position,
) -> Result<ReadValue, AllocError>
    ensures { IfOk result (IsReadAt loaded.now model.now types.now scopes.now.bits tree.now
        first) }
{
    match resolve_value_with(alloc, loaded, model, tree) {
        Ok(found) => {
            let Value { value, picks } = found;
            let said = is_said(alloc, loaded, model, types, &picks, tree, &value)?;
            if !said {
                return Err(AllocError);
            }
            checked(alloc, model, scopes, value, first)
        }
        Err(Fault::Refused(refusal)) => Ok(ReadValue::Refused(refusal)),
        Err(Fault::Memory) => Err(AllocError),
    }
}

/// What this value comes to under the scopes.
fn checked(
    alloc: Global,
    model: &Model,
    scopes: &Scopes,
    value: Expr,
    first: Position,
) -> Result<ReadValue, AllocError>
    requires { IsRightValue model.now (term_of value) }
    ensures { IfOk result (IsChecked model.now scopes.now.bits (term_of value) first) }
{
    if scopes.bits < 1 || scopes.bits > 12 {
        // Scopes have no such bitwidth.
        return Err(AllocError);
    }
    match check_value(alloc, model, scopes, &value, first) {
        Ok(()) => Ok(ReadValue::Tree(value)),
        Err(Fault::Refused(refusal)) => Ok(ReadValue::Refused(refusal)),
        Err(Fault::Memory) => Err(AllocError),
    }
}
