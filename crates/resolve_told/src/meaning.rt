//! Whether a predicate or a function means what its parameters and its result make of it.

ghost use Rattle.std.specs.Prelude.{◌≡◌, ◌++◌, true, map, IfOk, OnOk, Some, None};
ghost use Rattle.syntax_tree.specs.declared.expr.Named.{Named};
ghost use Rattle.resolve_readings.specs.Meanings.{called, columns_of_result, waiting};
ghost use Rattle.resolve_rules.specs.Candidates.{body_of};
ghost use Rattle.resolve_told_sigs.specs.Says.{is_integer};
ghost use Rattle.resolve_told.specs.Reads.{Means, spread};

use base_lists::Items;
use resolve_read::Readings;
use resolve_readings::{Meaning, What};
use resolve_told_sigs::same_columns;
use resolve_types::Columns;
use std::alloc::{AllocError, Global};
use syntax_tree::{Decl, Expr as Tree, Named};

/// Whether the types are the same in turn.
fn same_types(a: &[Columns], b: &[Columns]) -> bool
    ensures { result ≡ true → a.now ≡ b.now }
{
    if a.len() != b.len() {
        return false;
    }
    for place in 0..a.len() {
        if !same_columns(&a[place], &b[place]) {
            return false;
        }
    }
    true
}

/// Whether the results are the same.
fn same_returned(a: &Option<Columns>, b: &Option<Columns>) -> bool
    ensures { result ≡ true → a.now ≡ b.now }
{
    match a {
        None => match b {
            None => true,
            Some(_) => false,
        },
        Some(a) => match b {
            None => false,
            Some(b) => same_columns(a, b),
        },
    }
}

/// Whether this is a call of a body with that result.
fn is_called(what: &What, returned: &Option<Columns>) -> bool
    ensures { result ≡ true → what.now ≡ called returned.now }
{
    match what {
        What::Formula => match returned {
            None => true,
            Some(_) => false,
        },
        What::Set(columns) => match returned {
            None => false,
            Some(returned) => same_columns(columns, returned),
        },
        What::Waiting(_, _) => false,
    }
}

/// Whether this is a body that waits for these parameters, or its call where it waits for none.
fn is_waiting(what: &What, parameters: &[Columns], returned: &Option<Columns>) -> bool
    ensures { result ≡ true → what.now ≡ waiting parameters.now returned.now }
{
    if parameters.is_empty() {
        return is_called(what, returned);
    }
    match what {
        What::Formula => false,
        What::Set(_) => false,
        What::Waiting(all, last) => {
            if !same_types(all.as_slice(), parameters) {
                return false;
            }
            same_returned(last, returned)
        }
    }
}

/// How many columns the call of a body has that waits for no parameters.
fn columns_of_result(parameters: &[Columns], returned: &Option<Columns>) -> u32
    ensures { result ≡ columns_of_result parameters.now returned.now }
{
    match returned {
        None => 0,
        Some(columns) => {
            if parameters.is_empty() {
                return columns.count;
            }
            0
        }
    }
}

/// Whether a body with these parameters and this result has this meaning.
fn is_body(
    meaning: &Meaning,
    integer: bool,
    parameters: &[Columns],
    returned: &Option<Columns>,
) -> bool
    ensures { result ≡ true → meaning.now
        ≡ body_of (record { parameters = parameters.now; result = returned.now }) integer }
{
    if meaning.marked || !meaning.relevant {
        return false;
    }
    if meaning.integer != integer || meaning.widest != columns_of_result(parameters, returned) {
        return false;
    }
    is_waiting(&meaning.what, parameters, returned)
}

/// Whether an instance is that of the integers that are opened implicitly.
fn is_integer(integers: Option<u32>, instance: u32) -> bool
    ensures { result ≡ is_integer integers instance }
{
    match integers {
        None => false,
        Some(number) => number == instance,
    }
}

/// Whether the body of that number in an instance means what these parameters and this result make
/// of it.
pub fn means(
    readings: &Readings,
    integers: Option<u32>,
    instance: u32,
    number: u32,
    parameters: &[Columns],
    returned: &Option<Columns>,
) -> bool
    ensures { result ≡ true → Means readings.now integers instance number parameters.now
        returned.now }
{
    match readings.types.bodies.as_slice().get(number as usize) {
        None => false,
        Some(meaning) => is_body(
            meaning,
            is_integer(integers, instance),
            parameters,
            returned,
        ),
    }
}

/// Adds the type once for each name.
fn add_copies(
    alloc: Global,
    all: &mut Items<Columns>,
    names: &[Named],
    columns: &Columns,
) -> Result<(), AllocError>
    ensures { OnOk result (all.new ≡ all.old ++ map (λ (n : Named). columns.now) names.now) }
{
    for _name in names {
        let copy = columns.copy(alloc)?;
        all.push(copy)?;
    }
    Ok(())
}

/// Adds the types, each once for each name of its declaration.
fn add_types(
    alloc: Global,
    all: &mut Items<Columns>,
    decls: &[Decl<Tree>],
    types: &[Columns],
) -> Result<(), AllocError>
    ensures { OnOk result (all.new ≡ all.old ++ spread decls.now types.now) }
{
    for place in 0..decls.len() {
        if place >= types.len() {
            return Ok(());
        }
        add_copies(alloc, all, decls[place].names.as_slice(), &types[place])?;
    }
    Ok(())
}

/// These types, and behind them each of the others once for each name of its declaration.
pub fn parameter_types(
    alloc: Global,
    first: &[Columns],
    decls: &[Decl<Tree>],
    types: &[Columns],
) -> Result<Items<Columns>, AllocError>
    ensures { IfOk result (λ all. all ≡ first.now ++ spread decls.now types.now) }
{
    let mut all = Items::new(alloc);
    for columns in first {
        let copy = columns.copy(alloc)?;
        all.push(copy)?;
    }
    add_types(alloc, &mut all, decls, types)?;
    Ok(all)
}
