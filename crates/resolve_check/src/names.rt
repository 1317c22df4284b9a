//! Names in scope, each with its number of columns, the innermost last.

ghost use Rattle.std.specs.Prelude.{◌≡◌, IfOk, Some, eqb, if◌then◌else◌, map};
ghost use Rattle.core_tree.specs.Columns.{with_columns};
ghost use Rattle.core_tree.specs.Trees.{variable_of, variable_list};
ghost use Rattle.resolve_check.specs.Names.{names_of};
ghost use Rattle.resolve_check.specs.Fits.{names_after};

use core_tree::{ItemList, Variable};
use std::alloc::{AllocError, Global};

/// A name in scope, and how many columns it has.
#[derive(Clone, Copy, Drop)]
pub struct Named {
    pub name: u64,
    pub columns: u32,
}

/// The names in scope, the innermost last.
pub type NameList = ItemList<Named>;

/// The same names.
pub fn copied(alloc: Global, names: &NameList) -> Result<NameList, AllocError>
    ensures { IfOk result (λ all. all ≡ names.now) }
{
    let mut all = NameList::new(alloc);
    let list = names.as_slice();
    for named in list {
        all.push(*named)?;
    }
    Ok(all)
}

/// The names and one more inside them.
pub fn with_name(
    alloc: Global,
    names: &NameList,
    name: u64,
    columns: u32,
) -> Result<NameList, AllocError>
    ensures { IfOk result (λ all. names_of all ≡ with_columns (names_of names.now) name columns) }
{
    let mut all = copied(alloc, names)?;
    all.push(Named { name, columns })?;
    Ok(all)
}

/// The names and the variables inside them, each of one column.
pub fn names_under(
    alloc: Global,
    names: &NameList,
    list: &[Variable],
) -> Result<NameList, AllocError>
    ensures { IfOk result (λ all. names_of all ≡ names_after
        (variable_list (map variable_of list.now)) (names_of names.now)) }
{
    let mut all = copied(alloc, names)?;
    for variable in list {
        all.push(Named {
            name: variable.name as u64,
            columns: 1,
        })?;
    }
    Ok(all)
}

/// What a name says behind one more.
fn shown(named: &Named, name: u64, found: Option<u32>) -> Option<u32>
    ensures { result ≡ (if eqb name named.now.name then Some named.now.columns else found) }
{
    if name == named.name {
        Some(named.columns)
    } else {
        found
    }
}

/// How many columns a name has that is in scope.
#[tactic(auto, using(crate::proofs::NameLists::found_more, crate::proofs::NameLists::found_all))]
pub fn look_up(names: &NameList, name: u64) -> Option<u32>
    ensures { result ≡ names_of names.now name }
{
    let list = names.as_slice();
    let mut found = None;
    for named in list {
        found = shown(named, name, found);
    }
    found
}
