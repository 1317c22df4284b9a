//! Puts the different literals in order.

ghost use Rattle.std.specs.Prelude.{◌≡◌, IfOk, map};
ghost use Rattle.std.specs.Cmp.Lexicographic.{slice_cmp};
ghost use Rattle.std.specs.Ordering.{nat_cmp};
ghost use Rattle.std.specs.List.Sorted.{IsStrictlySortedBy};

use crate::gather::gather_module;
use base_lists::Items;
use base_types::Name;
use std::alloc::{AllocError, Global};
use syntax_tree::{Loaded, TextList};

fn texts_of<'a>(alloc: Global, all: &'a [Name]) -> Result<Vec<&'a str>, AllocError> {
    let mut texts = Vec::new(alloc);
    for name in all {
        texts.push(name.text())?;
    }
    Ok(texts)
}

/// Sorts the texts by their bytes, and keeps each once.
fn sort_once(texts: &mut Vec<&str>)
    ensures { IsStrictlySortedBy (λ x y. slice_cmp nat_cmp x.now y.now) texts.new.items }
{
    texts.sort_unstable();
    texts.dedup();
}

fn copies(alloc: Global, texts: &[&str]) -> Result<Items<Name>, AllocError>
    ensures { IfOk result (λ all. all ≡ map (λ x. x.now) texts.now) }
{
    let mut all = Items::new(alloc);
    for text in texts {
        all.push(Name::copy(alloc, *text)?)?;
    }
    Ok(all)
}

fn gathered(alloc: Global, texts: &TextList) -> Result<Vec<Name>, AllocError> {
    let mut all = Vec::new(alloc);
    for text in texts.as_slice() {
        gather_module(alloc, &mut all, &text.tree)?;
    }
    Ok(all)
}

/// The different string literals of all texts, in the order of their bytes.
pub fn literals(alloc: Global, loaded: &Loaded) -> Result<Items<Name>, AllocError> {
    let all = gathered(alloc, &loaded.texts)?;
    let mut texts = texts_of(alloc, all.as_slice())?;
    sort_once(&mut texts);
    copies(alloc, texts.as_slice())
}
