//! Whether facts and assertions say what their texts say.

ghost use Rattle.std.specs.Prelude.{◌≡◌, IfOk, IsTrue};
ghost use Rattle.resolve_told_sigs.specs.Told.{HasAssertion, HasFact, IsAssertion, IsFact, given, title_of};

use crate::says::says_alone;
use crate::told::Sources;
use crate::words::{same_place, same_text};
use base_types::Name;
use core_tree::{Assert, Fact};
use std::alloc::{AllocError, Global};
use syntax_tree::{Claim, Named};

/// Whether it is the name of a claim, where it has one.
fn is_titled(found: &Option<Name>, written: &Option<Named>) -> bool
    ensures { IsTrue result → found.now ≡ title_of written.now }
{
    match written {
        None => match found {
            None => true,
            Some(_) => false,
        },
        Some(named) => match found {
            None => false,
            Some(name) => same_text(name.text(), named.name.text()),
        },
    }
}

/// Whether a fact says what its text says.
fn is_fact(
    alloc: Global,
    sources: &Sources<'_>,
    instance: u32,
    written: &Claim,
    fact: &Fact,
) -> Result<bool, AllocError>
    ensures { IfOk result (λ b. IsTrue b → IsFact (given sources.now) instance written.now
        fact.now) }
{
    if fact.instance != instance || !same_place(fact.place, written.place) {
        return Ok(false);
    }
    if !is_titled(&fact.name, &written.name) {
        return Ok(false);
    }
    let (names, model, readings) = (sources.names, sources.model, sources.readings);
    let (block, formula) = (&written.block, &fact.formula);
    let says = says_alone(alloc, names, model, readings, instance, block, formula)?;
    Ok(says)
}

/// Whether the fact of this number says what its text says.
pub fn has_fact(
    alloc: Global,
    sources: &Sources<'_>,
    instance: u32,
    written: &Claim,
    at: u32,
) -> Result<bool, AllocError>
    ensures { IfOk result (λ b. IsTrue b → HasFact (given sources.now) instance written.now at) }
{
    let place = at as usize;
    if place >= sources.model.facts.len() {
        return Ok(false);
    }
    let fact = sources.model.facts.get(place);
    let says = is_fact(alloc, sources, instance, written, fact)?;
    Ok(says)
}

/// Whether an assertion says what its text says.
fn is_assertion(
    alloc: Global,
    sources: &Sources<'_>,
    instance: u32,
    written: &Claim,
    made: &Assert,
) -> Result<bool, AllocError>
    ensures { IfOk result (λ b. IsTrue b → IsAssertion (given sources.now) instance written.now
        made.now) }
{
    if made.instance != instance || !same_place(made.place, written.place) {
        return Ok(false);
    }
    if !is_titled(&made.name, &written.name) {
        return Ok(false);
    }
    let (names, model, readings) = (sources.names, sources.model, sources.readings);
    let (block, formula) = (&written.block, &made.formula);
    let says = says_alone(alloc, names, model, readings, instance, block, formula)?;
    Ok(says)
}

/// Whether the assertion of this number says what its text says.
pub fn has_assertion(
    alloc: Global,
    sources: &Sources<'_>,
    instance: u32,
    written: &Claim,
    at: u32,
) -> Result<bool, AllocError>
    ensures { IfOk result (λ b. IsTrue b → HasAssertion (given sources.now) instance written.now
        at) }
{
    let place = at as usize;
    if place >= sources.model.asserts.len() {
        return Ok(false);
    }
    let made = sources.model.asserts.get(place);
    let says = is_assertion(alloc, sources, instance, written, made)?;
    Ok(says)
}
