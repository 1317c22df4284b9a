//! The trees that count for a command: appended facts, the bounds of fields, facts, and its formula.

ghost use Rattle.std.specs.Prelude.{◌≡◌, ◌++◌, map, IfOk, OnOk};
ghost use Rattle.bound_definitions.specs.Trees.{counted_at, appended_tree, bound_tree, counted_sig, counted_field, counted_fact, counted_command, counted_value, counted, origin_of};
ghost use Rattle.bound_definitions.specs.Places.{each};
ghost use Rattle.core_tree.specs.Trees.{term_of};
ghost use Rattle.bound_scopes.specs.Roots.{counted_root};

use base_types::Position;
use core_tree::{Command, Expr, Fact, Field, FieldBound, Formula, Model, Origin, Sig};
use std::alloc::{AllocError, Global};

/// The instance of a value, which comes after all others.
const VALUE_INSTANCE: u32 = u32::MAX;

/// A formula or an expression.
#[derive(Clone, Copy)]
pub(crate) enum Tree<'a> {
    Formula(&'a Formula),
    Expr(&'a Expr),
}

/// A tree that counts, with the beginning of its paragraph.
#[derive(Clone, Copy)]
pub(crate) struct Root<'a> {
    pub at: Origin,
    pub tree: Tree<'a>,
}

/// Adds a formula, where there are one and a beginning of its paragraph.
fn add_appended<'a>(
    all: &mut Vec<Root<'a>>,
    at: Option<Origin>,
    appended: &'a Option<Formula>,
) -> Result<(), AllocError>
    ensures { OnOk result (map counted_root all.new.items ≡ map counted_root all.old.items
        ++ counted_at at (appended_tree appended.now)) }
{
    match at {
        None => Ok(()),
        Some(at) => match appended {
            None => Ok(()),
            Some(formula) => {
                let root = Root {
                    at,
                    tree: Tree::Formula(formula),
                };
                all.push(root)?;
                Ok(())
            }
        },
    }
}

/// Adds a bound, where there are one and a beginning of its paragraph.
fn add_bound<'a>(
    all: &mut Vec<Root<'a>>,
    at: Option<Origin>,
    declared: &'a Option<FieldBound>,
) -> Result<(), AllocError>
    ensures { OnOk result (map counted_root all.new.items ≡ map counted_root all.old.items
        ++ counted_at at (bound_tree declared.now)) }
{
    match at {
        None => Ok(()),
        Some(at) => match declared {
            None => Ok(()),
            Some(declared) => {
                let root = Root {
                    at,
                    tree: Tree::Expr(&declared.bound.expr),
                };
                all.push(root)?;
                Ok(())
            }
        },
    }
}

/// Adds a fact.
fn add_fact<'a>(all: &mut Vec<Root<'a>>, fact: &'a Fact) -> Result<(), AllocError>
    ensures { OnOk result
        (map counted_root all.new.items ≡ map counted_root all.old.items ++ counted_fact fact.now) }
{
    let at = Origin {
        instance: fact.instance,
        place: fact.place,
    };
    let root = Root {
        at,
        tree: Tree::Formula(&fact.formula),
    };
    all.push(root)?;
    Ok(())
}

/// Adds the formula of a command.
fn add_command<'a>(all: &mut Vec<Root<'a>>, command: &'a Command) -> Result<(), AllocError>
    ensures { OnOk result (map counted_root all.new.items ≡ map counted_root all.old.items
        ++ counted_command command.now) }
{
    let at = Origin {
        instance: 0,
        place: command.first,
    };
    let root = Root {
        at,
        tree: Tree::Formula(&command.formula),
    };
    all.push(root)?;
    Ok(())
}

/// Where the paragraph of a field's sig begins.
fn origin_of(sigs: &[Sig], owner: Option<u32>) -> Option<Origin>
    ensures { result ≡ origin_of sigs.now owner }
{
    match owner {
        None => None,
        Some(owner) => match sigs.get(owner as usize) {
            None => None,
            Some(sig) => sig.origin,
        },
    }
}

/// Adds the appended facts of sigs.
fn add_sigs<'a>(all: &mut Vec<Root<'a>>, sigs: &'a [Sig]) -> Result<(), AllocError>
    ensures { OnOk result (map counted_root all.new.items ≡ map counted_root all.old.items
        ++ each counted_sig sigs.now) }
{
    for sig in sigs {
        add_appended(all, sig.origin, &sig.appended)?;
    }
    Ok(())
}

/// Adds the bounds of fields.
fn add_fields<'a>(
    all: &mut Vec<Root<'a>>,
    sigs: &[Sig],
    fields: &'a [Field],
) -> Result<(), AllocError>
    ensures { OnOk result (map counted_root all.new.items ≡ map counted_root all.old.items
        ++ each (counted_field sigs.now) fields.now) }
{
    for field in fields {
        add_bound(all, origin_of(sigs, field.owner), &field.declared)?;
    }
    Ok(())
}

/// Adds facts.
fn add_facts<'a>(all: &mut Vec<Root<'a>>, facts: &'a [Fact]) -> Result<(), AllocError>
    ensures { OnOk result (map counted_root all.new.items ≡ map counted_root all.old.items
        ++ each counted_fact facts.now) }
{
    for fact in facts {
        add_fact(all, fact)?;
    }
    Ok(())
}

/// The trees that count for a command.
pub(crate) fn counted<'a>(
    alloc: Global,
    model: &'a Model,
    command: &'a Command,
) -> Result<Vec<Root<'a>>, AllocError>
    ensures { IfOk result (λ v. map counted_root v.items ≡ counted model.now command.now) }
{
    let mut all = Vec::new(alloc);
    let sigs = model.sigs.as_slice();
    add_sigs(&mut all, sigs)?;
    add_fields(&mut all, sigs, model.fields.as_slice())?;
    add_facts(&mut all, model.facts.as_slice())?;
    add_command(&mut all, command)?;
    Ok(all)
}

/// A value that is asked for, with its first token.
pub(crate) fn counted_value<'a>(
    alloc: Global,
    value: &'a Expr,
    first: Position,
) -> Result<Vec<Root<'a>>, AllocError>
    ensures { IfOk result
        (λ v. map counted_root v.items ≡ counted_value (term_of value.now) first) }
{
    let at = Origin {
        instance: VALUE_INSTANCE,
        place: first,
    };
    let mut all = Vec::new(alloc);
    all.push(Root {
        at,
        tree: Tree::Expr(value),
    })?;
    Ok(all)
}
