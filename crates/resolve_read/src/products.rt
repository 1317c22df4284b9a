//! The type of what declarations bind together: the product of their bounds' types.

ghost use Rattle.std.specs.Prelude.{◌≡◌, IfOk};
ghost use Rattle.resolve_rules.specs.Prepared.{no_columns, times};
ghost use Rattle.resolve_read.specs.At.{at_of};
ghost use Rattle.resolve_read.specs.Reads.{product_with};

use crate::spot::Spot;
use base_lists::Items;
use resolve_types::Columns;
use std::alloc::{AllocError, Global};
use syntax_tree::{Decl, Expr as Tree, Named};

/// The type without columns, of which a product begins.
fn no_columns(alloc: Global) -> Result<Columns, AllocError>
    ensures { IfOk result (λ c. c ≡ no_columns) }
{
    let mut rows = Items::new(alloc);
    rows.push(Items::new(alloc))?;
    Ok(Columns { count: 0, rows })
}

/// A type and then that of each name of a declaration.
fn times(
    alloc: Global,
    lines: &Items<Items<u32>>,
    before: Columns,
    names: &[Named],
    columns: &Columns,
) -> Result<Columns, AllocError>
    ensures { IfOk result (λ c. c ≡ times lines.now before names.now columns.now) }
{
    let mut product = before;
    for place in 0..names.len() {
        let _name = &names[place];
        product = product.product(alloc, lines, columns)?;
    }
    Ok(product)
}

/// A type and then that of each name of declarations, whose bounds have these types in turn.
fn product_with(
    alloc: Global,
    lines: &Items<Items<u32>>,
    before: Columns,
    decls: &[Decl<Tree>],
    types: &[Columns],
) -> Result<Columns, AllocError>
    ensures { IfOk result (λ c. c ≡ product_with lines.now before decls.now types.now) }
{
    let mut product = before;
    for place in 0..decls.len() {
        if place >= types.len() {
            return Ok(product);
        }
        let names = decls[place].names.as_slice();
        product = times(alloc, lines, product, names, &types[place])?;
    }
    Ok(product)
}

/// The product of the types of all names of declarations, whose bounds have these types in turn.
pub fn product_of_decls(
    alloc: Global,
    spot: &Spot<'_>,
    decls: &[Decl<Tree>],
    types: &[Columns],
) -> Result<Columns, AllocError>
    ensures { IfOk result (λ c. c ≡ product_with (at_of spot.now).types.typing.lines no_columns
        decls.now types.now) }
{
    let lines = &spot.types.typing.lines;
    let before = no_columns(alloc)?;
    let product = product_with(alloc, lines, before, decls, types)?;
    Ok(product)
}
