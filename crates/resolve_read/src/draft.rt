//! Parts of a root, with what is chosen for their names.

ghost use Rattle.std.specs.Prelude.{◌≡◌, [], ◌∷◌, ◌++◌, IfOk, IfSome, Some, false};
ghost use Rattle.resolve_read.specs.declared.draft.Draft.{Draft as Made};
ghost use Rattle.resolve_readings.specs.declared.meaning.What.TheVariants as what;
ghost use Rattle.resolve_rules.specs.Candidates.{set_of};
ghost use Rattle.resolve_rules.specs.Prepared.{known, name, pair, single, tree_of, under};

use crate::candidates::Chosen;
use crate::meanings::set_meaning;
use base_lists::Items;
use resolve_readings::{Binary, Meaning, Part, Unary, What};
use resolve_types::Columns;
use std::alloc::{AllocError, Global};
use syntax_tree::{Binding, Expr as Tree};

/// A part of a root, with what is chosen for its names.
#[derive(Drop)]
pub struct Draft {
    pub part: Part,
    /// For each name in turn the number of its candidate.
    pub choice: Items<usize>,
}

/// Drops a draft from the top: a row of operators is as deep as it is long.
pub fn put_away(draft: Draft) {
    let Draft { part, choice: _ } = draft;
    part.put_away();
}

/// The type of what a root means; none where that is no set.
pub fn columns_of(meaning: Meaning) -> Option<Columns>
    ensures { IfSome result (λ c. meaning.what ≡ what.Set c) }
{
    let Meaning {
        what,
        marked: _,
        relevant: _,
        integer: _,
        widest: _,
    } = meaning;
    match what {
        What::Set(columns) => Some(columns),
        _ => None,
    }
}

/// A name with what is chosen for it.
pub fn name_draft(alloc: Global, chosen: Chosen) -> Result<Draft, AllocError>
    ensures tree { IfOk result (λ d. tree_of d.part ≡ name chosen.meanings) }
    ensures choice { IfOk result (λ d. d.choice ≡ chosen.number ∷ []) }
{
    let Chosen { meanings, number } = chosen;
    let mut choice = Items::new(alloc);
    choice.push(number)?;
    Ok(Draft {
        part: Part::Name(meanings),
        choice,
    })
}

/// A set of that type that stands for itself, where a name may stand: its only candidate is chosen.
pub fn only_draft(alloc: Global, columns: Columns) -> Result<Draft, AllocError>
    ensures tree { IfOk result (λ d. tree_of d.part ≡ name (set_of columns false ∷ [])) }
    ensures choice { IfOk result (λ d. d.choice ≡ 0 ∷ []) }
{
    let mut meanings = Items::new(alloc);
    meanings.push(set_meaning(columns, false))?;
    let chosen = Chosen {
        meanings,
        number: 0,
    };
    let draft = name_draft(alloc, chosen)?;
    Ok(draft)
}

/// A part without names, which is a set of that type.
pub fn known_draft(alloc: Global, columns: Columns) -> Draft
    ensures tree { tree_of result.part ≡ known (set_of columns false) }
    ensures choice { result.choice ≡ [] }
{
    Draft {
        part: Part::Known(set_meaning(columns, false)),
        choice: Items::new(alloc),
    }
}

/// An operator on a part.
pub fn single_draft(alloc: Global, op: Unary, inner: Draft) -> Result<Draft, AllocError>
    ensures tree { IfOk result (λ d. tree_of d.part ≡ single op (tree_of inner.part)) }
    ensures choice { IfOk result (λ d. d.choice ≡ inner.choice) }
{
    let Draft { part, choice } = inner;
    let part = Box::new(alloc, part)?;
    Ok(Draft {
        part: Part::Single(op, part),
        choice,
    })
}

/// An operator on a part, where there is one.
pub fn single_found(
    alloc: Global,
    op: Unary,
    inner: Option<Draft>,
) -> Result<Option<Draft>, AllocError>
    ensures { IfOk result (λ r. IfSome r (λ d. (i : Made) × (inner ≡ Some i)
        × (tree_of d.part ≡ single op (tree_of i.part)) × (d.choice ≡ i.choice))) }
{
    match inner {
        None => Ok(None),
        Some(inner) => {
            let draft = single_draft(alloc, op, inner)?;
            Ok(Some(draft))
        }
    }
}

/// An operator between two parts.
pub fn pair_draft(alloc: Global, op: Binary, left: Draft, right: Draft) -> Result<Draft, AllocError>
    ensures tree { IfOk result (λ d. tree_of d.part
        ≡ pair op (tree_of left.part) (tree_of right.part)) }
    ensures choice { IfOk result (λ d. d.choice ≡ left.choice ++ right.choice) }
{
    let Draft {
        part: first,
        mut choice,
    } = left;
    let Draft {
        part: second,
        choice: more,
    } = right;
    choice.append(more)?;
    let first = Box::new(alloc, first)?;
    let second = Box::new(alloc, second)?;
    Ok(Draft {
        part: Part::Pair(op, first, second),
        choice,
    })
}

/// A part under the values of a `let`.
pub fn let_draft(
    alloc: Global,
    bindings: &[Binding<Tree>],
    inner: Draft,
) -> Result<Draft, AllocError>
    ensures tree { IfOk result (λ d. tree_of d.part ≡ under bindings.now (tree_of inner.part)) }
    ensures choice { IfOk result (λ d. d.choice ≡ inner.choice) }
{
    let mut draft = inner;
    for place in 0..bindings.len() {
        let _binding = &bindings[place];
        draft = single_draft(alloc, Unary::Body, draft)?;
    }
    Ok(draft)
}
