//! An open asks for a text with arguments, under an alias.

ghost use Rattle.std.specs.Prelude.{◌≡◌, ◌<◌, IfErr, IfOk, Some, length, slice_get};
ghost use Rattle.syntax_tree.specs.declared.module.SigName.{SigName};
ghost use Rattle.load_state.specs.Causes.{IsQuietFault};
ghost use Rattle.load_state.specs.Opens as opens;
ghost use Rattle.load_state.specs.Places.{IsAtOpen, IsAtSome};
ghost use Rattle.load_state.specs.declared.fault.LoadFault.TheVariants.{Memory};

use crate::LoadFault;
use crate::argument::{Opener, argument};
use crate::names::{last_part, path_text};
use crate::refuse::refused;
use crate::table::Enumerated;
use base_lists::Items;
use base_types::{Name, Position, Rule};
use std::alloc::Global;
use std::collections::HashSet;
use syntax_tree::{ArgumentList, Open, SigName, SigRef};

/// What an open asks for.
#[derive(Drop)]
pub struct Request {
    /// The place of a refusal of this open: that of its path, or of the enum that implies it.
    pub place: Position,
    pub path: String,
    pub alias: Name,
    pub is_private: bool,
    pub arguments: ArgumentList,
}

/// What a written open asks for. The aliases are those of the opens before it.
#[tactic(auto, using(crate::proofs::Faults::memory_is_quiet, crate::proofs::Faults::refusal_is_quiet, crate::proofs::Refusals::memory_at_open, crate::proofs::Refusals::refused_given, crate::proofs::Refusals::refused_alias))]
pub fn written_request(
    alloc: Global,
    opener: Opener,
    aliases: &mut HashSet<String>,
    asked: &Open,
) -> Result<Request, LoadFault>
    ensures quiet { IfErr result IsQuietFault }
    ensures refused { IfErr result (IsAtOpen opener.entry.source.now.text.name asked.now) }
    ensures asked { IfOk result (opens.AsksFor opener.entry.number (opens.written asked.now)) }
{
    let alias = match &asked.alias {
        Some(named) => {
            if !aliases.insert(String::from_str(alloc, named.name.text())?)? {
                let name = opener.source.text.name.text();
                return Err(refused(alloc, Rule::AliasTwice, named.place, name));
            }
            Name::copy(alloc, named.name.text())?
        }
        None => Name::copy(alloc, last_part(asked.path.parts.as_slice()))?,
    };
    let arguments = arguments_of(alloc, opener, asked.arguments.as_slice())?;
    Ok(Request {
        place: asked.path.place,
        path: path_text(alloc, &asked.path)?,
        alias,
        is_private: asked.is_private,
        arguments,
    })
}

/// What the arguments of an open stand for, in their order.
#[tactic(auto, using(crate::proofs::Faults::memory_is_quiet, crate::proofs::Refusals::memory_at_some))]
fn arguments_of(alloc: Global, opener: Opener, names: &[SigName]) -> Result<ArgumentList, LoadFault>
    ensures quiet { IfErr result IsQuietFault }
    ensures refused { IfErr result (IsAtSome opener.entry.source.now.text.name names.now) }
    ensures fits { IfOk result (opens.AreFits names.now) }
{
    let mut arguments = Items::new(alloc);
    for place in 0..names.len() {
        arguments.push(argument_at(alloc, opener, names, place)?)?;
    }
    Ok(arguments)
}

/// What the argument of this place stands for.
fn argument_at(
    alloc: Global,
    opener: Opener,
    names: &[SigName],
    place: usize,
) -> Result<Option<SigRef>, LoadFault>
    requires { place < length names.now }
    ensures quiet { IfErr result IsQuietFault }
    ensures refused { IfErr result (IsAtSome opener.entry.source.now.text.name names.now) }
    ensures fits { IfOk result (λ found. (name : SigName) → slice_get names.now place ≡ Some name →
        opens.Fits name found) }
{
    argument(alloc, opener, &names[place])
}

/// What the enum of an instance asks for: the order of its members.
pub fn implied_request(
    alloc: Global,
    instance: u32,
    enumerated: Enumerated,
) -> Result<Request, LoadFault>
    ensures memory { IfErr result (λ fault. fault ≡ Memory) }
    ensures asked { IfOk result (opens.AsksFor instance (opens.implied enumerated)) }
{
    let mut arguments = Items::new(alloc);
    arguments.push(Some(SigRef {
        instance,
        sig: enumerated.sig,
    }))?;
    Ok(Request {
        place: enumerated.place,
        path: String::from_str(alloc, "util/ordering")?,
        alias: Name::copy(alloc, "ordering")?,
        is_private: false,
        arguments,
    })
}
