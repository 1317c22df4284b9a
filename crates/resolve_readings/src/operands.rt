//! What is asked of operands, and the meanings that are made of theirs.

ghost use Rattle.std.specs.Prelude.{◌≡◌, ◌==◌, ◌+◌, ◌&&◌, ◌||◌, not, false, max, nat_le, IfOk};
ghost use Rattle.resolve_types.specs.Rows.{distinct};
ghost use Rattle.resolve_readings.specs.declared.meaning.What.TheVariants as whats;
ghost use Rattle.resolve_readings.specs.Meanings.{agrees, integers as integers_of, of_one, of_both, word_fits, set_fits, formula_fits, waiting, columns_of_result};

use crate::meaning::{Meaning, What, copy_all, copy_some};
use crate::part::{Multiplicity, RootPlace};
use base_lists::Items;
use resolve_types::{Columns, Member};
use std::alloc::{AllocError, Global};

/// Whether what two types have in common isn't empty, or one of them is.
pub fn agree(a: &Columns, b: &Columns, common: &Columns) -> bool
    ensures { result ≡ agrees a.now b.now common.now }
{
    a.rows.is_empty() || b.rows.is_empty() || !common.rows.is_empty()
}

/// The greater number.
fn wider(a: u32, b: u32) -> u32
    ensures { result ≡ max a b }
{
    if a < b { b } else { a }
}

/// One meaning made of a part's meaning.
pub fn one(what: What, widest: u32, a: &Meaning) -> Meaning
    ensures { result ≡ of_one what widest a.now }
{
    Meaning {
        what,
        marked: false,
        relevant: a.relevant,
        integer: a.integer,
        widest: wider(widest, a.widest),
    }
}

/// One meaning made of two parts' meanings.
pub fn both(
    what: What,
    marked: bool,
    relevant: bool,
    widest: u32,
    a: &Meaning,
    b: &Meaning,
) -> Meaning
    ensures { result ≡ of_both what marked relevant widest a.now b.now }
{
    Meaning {
        what,
        marked,
        relevant: relevant && a.relevant && b.relevant,
        integer: a.integer || b.integer,
        widest: wider(widest, wider(a.widest, b.widest)),
    }
}

/// A set of two unmarked parts, each row once.
pub fn plain(
    alloc: Global,
    set: &Columns,
    relevant: bool,
    left: &Meaning,
    right: &Meaning,
) -> Result<Meaning, AllocError>
    ensures { IfOk result (λ m. m ≡ of_both (whats.Set (distinct set.now)) false relevant
        set.now.count left.now right.now) }
{
    let made = set.distinct(alloc)?;
    Ok(both(What::Set(made), false, relevant, set.count, left, right))
}

/// Whether a test is true and neither part is marked.
pub fn are_plain(test: bool, left: &Meaning, right: &Meaning) -> bool
    ensures { result ≡ (test && not left.now.marked && not right.now.marked) }
{
    test && !left.marked && !right.marked
}

/// Whether a test is true and the part isn't marked.
pub fn is_plain(test: bool, part: &Meaning) -> bool
    ensures { result ≡ (test && not part.now.marked) }
{
    test && !part.marked
}

/// Whether two types have equally many columns.
pub fn same_count(a: &Columns, b: &Columns) -> bool
    ensures { result ≡ (a.now.count == b.now.count) }
{
    a.count == b.count
}

/// Whether a type has that many columns.
pub fn has_count(a: &Columns, count: u32) -> bool
    ensures { result ≡ (a.now.count == count) }
{
    a.count == count
}

/// Whether sets of these types can be joined.
pub fn joins(a: &Columns, b: &Columns) -> bool
    ensures { result ≡ nat_le 3 (a.now.count + b.now.count) }
{
    a.count.saturating_add(b.count) >= 3
}

/// The type of a number.
pub fn integers(alloc: Global) -> Result<Columns, AllocError>
    ensures { IfOk result (λ c. c ≡ integers_of) }
{
    let mut row = Items::new(alloc);
    row.push(Member::Int)?;
    let mut rows = Items::new(alloc);
    rows.push(row)?;
    Ok(Columns { count: 1, rows })
}

/// Whether the word may stand before that many columns.
pub fn does_word_fit(word: Option<Multiplicity>, count: u32) -> bool
    ensures { result ≡ word_fits word count }
{
    match word {
        None | Some(Multiplicity::Set) => true,
        Some(Multiplicity::One) => count == 1,
        Some(Multiplicity::Lone) => count == 1,
        Some(Multiplicity::Some) => count == 1,
    }
}

/// Whether a set may stand in the place.
pub fn does_set_fit(place: RootPlace, columns: &Columns, marked: bool) -> bool
    ensures { result ≡ set_fits place columns.now marked }
{
    match place {
        RootPlace::Formula => false,
        RootPlace::Bound(word) => does_word_fit(word, columns.count),
        RootPlace::Value => !marked,
        RootPlace::Columns(count) => !marked && columns.count == count,
    }
}

/// Whether a formula may stand in the place.
pub fn does_formula_fit(place: RootPlace) -> bool
    ensures { result ≡ formula_fits place }
{
    match place {
        RootPlace::Formula => true,
        RootPlace::Bound(_) => false,
        RootPlace::Value => false,
        RootPlace::Columns(_) => false,
    }
}

/// A body that waits for these parameters, or its call where it waits for none.
pub fn waits(
    alloc: Global,
    parameters: &[Columns],
    value: &Option<Columns>,
) -> Result<What, AllocError>
    ensures { IfOk result (λ w. w ≡ waiting parameters.now value.now) }
{
    if !parameters.is_empty() {
        let parameters = copy_all(alloc, parameters)?;
        let value = copy_some(alloc, value)?;
        return Ok(What::Waiting(parameters, value));
    }
    match value {
        Some(columns) => Ok(What::Set(columns.copy(alloc)?)),
        None => Ok(What::Formula),
    }
}

/// The columns of the call, where all arguments are there and it is a set.
pub fn columns_of(parameters: &[Columns], value: &Option<Columns>) -> u32
    ensures { result ≡ columns_of_result parameters.now value.now }
{
    match (parameters, value) {
        ([], Some(columns)) => columns.count,
        _ => 0,
    }
}
