//! The parameters of a predicate or a function, as they are declared.

ghost use Rattle.std.specs.Prelude.{◌≡◌, ◌++◌, [], ◌∷◌, map, is_some, IfOk, OnOk};
ghost use Rattle.resolve_said.specs.Locals.{under_decls};
ghost use Rattle.resolve_said.specs.Said.{apart_from};
ghost use Rattle.resolve_told.specs.Bodies.{named_by, named_from, this_by, this_scope};
ghost use Rattle.resolve_told.specs.Parameters.{decls_of};
ghost use Rattle.resolve_told.specs.Views.{declared};

use crate::receiver::decls_of;
use std::alloc::{AllocError, Global};
use syntax_tree::{Decl, Expr as Tree, Multiplicity as Word, Named, Parameters, SigName};

/// A parameter as it is declared.
#[derive(Clone, Copy, Drop)]
pub struct Declared<'a> {
    pub name: &'a str,
    /// From how many of the names before it it differs.
    pub apart: u32,
    /// Whether `this` is in scope in its bound.
    pub has_this: bool,
    /// The declarations whose names are in scope in its bound.
    pub before: &'a [Decl<Tree>],
    pub word: Option<Word>,
    pub bound: &'a Tree,
}

/// From how many of the names before it the name at a place differs.
fn apart_of(is_disjoint: bool, place: u32) -> u32
    ensures { result ≡ apart_from is_disjoint place }
{
    if is_disjoint { place } else { 0 }
}

/// Adds a name of a declaration, which has this place among its names.
fn add_name<'a>(
    has_this: bool,
    before: &'a [Decl<Tree>],
    decl: &'a Decl<Tree>,
    place: u32,
    name: &'a Named,
    all: &mut Vec<Declared<'a>>,
) -> Result<(), AllocError>
    ensures { OnOk result (map declared all.new.items ≡ map declared all.old.items
        ++ named_from (under_decls (this_scope has_this) before.now) decl.now place
        (name.now ∷ [])) }
{
    let apart = apart_of(decl.is_disjoint, place);
    all.push(Declared {
        name: name.name.text(),
        apart,
        has_this,
        before,
        word: decl.word,
        bound: &decl.bound,
    })?;
    Ok(())
}

/// Adds the names of a declaration.
#[tactic(auto, using(crate::proofs::Walk::names_next, crate::proofs::Walk::names_end))]
fn add_decl<'a>(
    has_this: bool,
    before: &'a [Decl<Tree>],
    decl: &'a Decl<Tree>,
    all: &mut Vec<Declared<'a>>,
) -> Result<(), AllocError>
    ensures { OnOk result (map declared all.new.items ≡ map declared all.old.items
        ++ named_from (under_decls (this_scope has_this) before.now) decl.now 0 decl.now.names) }
{
    let names = decl.names.as_slice();
    if names.len() > u32::MAX as usize {
        // A text doesn't have so many names.
        return Err(AllocError);
    }
    for place in 0..names.len() {
        add_name(has_this, before, decl, place as u32, &names[place], all)?;
    }
    Ok(())
}

/// Adds the names of declarations.
#[tactic(auto, using(crate::proofs::Walk::decls_next, crate::proofs::Walk::decls_end))]
fn add_decls<'a>(
    has_this: bool,
    decls: &'a [Decl<Tree>],
    all: &mut Vec<Declared<'a>>,
) -> Result<(), AllocError>
    ensures { OnOk result (map declared all.new.items ≡ map declared all.old.items
        ++ named_by (this_scope has_this) decls.now) }
{
    for place in 0..decls.len() {
        add_decl(has_this, &decls[..place], &decls[place], all)?;
    }
    Ok(())
}

/// Adds `this`, where something stands before the dot.
fn add_this<'a>(receiver: &'a Option<Tree>, all: &mut Vec<Declared<'a>>) -> Result<(), AllocError>
    ensures { OnOk result (map declared all.new.items ≡ map declared all.old.items
        ++ this_by receiver.now) }
{
    match receiver {
        None => Ok(()),
        Some(bound) => {
            all.push(Declared {
                name: "this",
                apart: 0,
                has_this: false,
                before: &[],
                word: None,
                bound,
            })?;
            Ok(())
        }
    }
}

/// Whether something stands before the dot.
pub fn has_receiver(receiver: &Option<SigName>) -> bool
    ensures { result ≡ is_some receiver.now }
{
    match receiver {
        None => false,
        Some(_) => true,
    }
}

/// The parameters of a predicate or a function, with `this` first where something stands before the dot.
pub fn all_parameters<'a>(
    alloc: Global,
    has_this: bool,
    receiver: &'a Option<Tree>,
    parameters: &'a Option<Parameters>,
) -> Result<Vec<Declared<'a>>, AllocError>
    ensures { IfOk result (λ all. map declared all.items ≡ this_by receiver.now
        ++ named_by (this_scope has_this) (decls_of parameters.now)) }
{
    let mut all = Vec::new(alloc);
    add_this(receiver, &mut all)?;
    let decls = decls_of(parameters);
    add_decls(has_this, decls, &mut all)?;
    Ok(all)
}
