//! What a model has is compared with what the texts declare.

ghost use Rattle.std.specs.Prelude.{◌≡◌, map, IfOk, IsTrue};
ghost use Rattle.resolve_places.specs.Places.{IsPlaced, command_origin, fact_origin, sig_origins};

use crate::texts::{Kind, commands, declared};
use base_lists::Items;
use core_tree::{Command, Fact, Model, Origin, Sig};
use std::alloc::{AllocError, Global};
use syntax_tree::Loaded;

/// Where the sigs are declared, but for those that no text declares.
fn sig_origins(alloc: Global, sigs: &[Sig]) -> Result<Items<Origin>, AllocError>
    ensures { IfOk result (λ all. all ≡ sig_origins sigs.now) }
{
    let mut all = Items::new(alloc);
    for sig in sigs {
        all.push_some(sig.origin)?;
    }
    Ok(all)
}

/// Where the facts stand.
fn fact_origins(alloc: Global, facts: &[Fact]) -> Result<Items<Origin>, AllocError>
    ensures { IfOk result (λ all. all ≡ map fact_origin facts.now) }
{
    let mut all = Items::new(alloc);
    for fact in facts {
        all.push(Origin {
            instance: fact.instance,
            place: fact.place,
        })?;
    }
    Ok(all)
}

/// Where the commands stand, which are those of the root.
fn command_origins(alloc: Global, commands: &[Command]) -> Result<Items<Origin>, AllocError>
    ensures { IfOk result (λ all. all ≡ map command_origin commands.now) }
{
    let mut all = Items::new(alloc);
    for command in commands {
        all.push(Origin {
            instance: 0,
            place: command.keyword,
        })?;
    }
    Ok(all)
}

/// Whether two origins are the same.
fn is_same(a: Origin, b: Origin) -> bool
    ensures { IsTrue result → a ≡ b }
{
    a.instance == b.instance
        && a.place.module == b.place.module
        && a.place.line == b.place.line
        && a.place.column == b.place.column
}

/// Whether two lists of origins are the same.
fn are_same(a: &[Origin], b: &[Origin]) -> bool
    ensures { IsTrue result → a.now ≡ b.now }
{
    if a.len() != b.len() {
        return false;
    }
    for place in 0..a.len() {
        if !is_same(a[place], b[place]) {
            return false;
        }
    }
    true
}

/// Whether the sigs and the facts of a model are just those that the texts of all instances declare, and its commands just
/// those of the root, one by one in their order, by their places.
pub fn is_placed(alloc: Global, loaded: &Loaded, model: &Model) -> Result<bool, AllocError>
    ensures { IfOk result (λ b. IsTrue b → IsPlaced loaded.now model.now) }
{
    let sigs = sig_origins(alloc, model.sigs.as_slice())?;
    let declared_sigs = declared(alloc, Kind::Sigs, loaded)?;
    if !are_same(sigs.as_slice(), declared_sigs.as_slice()) {
        return Ok(false);
    }
    let facts = fact_origins(alloc, model.facts.as_slice())?;
    let declared_facts = declared(alloc, Kind::Facts, loaded)?;
    if !are_same(facts.as_slice(), declared_facts.as_slice()) {
        return Ok(false);
    }
    let asked = command_origins(alloc, model.commands.as_slice())?;
    let declared_commands = commands(alloc, loaded)?;
    Ok(are_same(asked.as_slice(), declared_commands.as_slice()))
}
