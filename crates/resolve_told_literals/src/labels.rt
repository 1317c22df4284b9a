//! The numbers of sigs by their labels.

ghost use Rattle.std.specs.Prelude.{◌≡◌, ℕ, List, Some, codes, length, if◌then◌else◌, IfOk, IfSome, IsTrue, OnOk, string_bytes};
ghost use Rattle.std.specs.Str.{bytes_eq};
ghost use Rattle.indexmap.specs.IndexMap.{get_by_text};
ghost use Rattle.resolve_told_literals.specs.Told.{HasLabel, quoted};
ghost use Rattle.resolve_told_literals.specs.Marks.{Finds};

use core_tree::Sig;
use indexmap::IndexMap;
use std::alloc::{AllocError, Global};

/// Whether a sig is called `String`.
fn is_string(sig: &Sig) -> bool
    ensures { IsTrue result → sig.now.label ≡ codes "String" }
{
    sig.label.text().as_bytes() == "String".as_bytes()
}

/// The number of the sig `String`, which is the last of its name.
pub fn string_number(sigs: &[Sig]) -> Option<usize>
    ensures { IfSome result (λ n. HasLabel sigs.now n (codes "String")) }
{
    for back in 0..sigs.len() {
        let number = sigs.len() - 1 - back;
        if is_string(&sigs[number]) {
            return Some(number);
        }
    }
    None
}

/// A text in quotes.
fn quoted(alloc: Global, text: &str) -> Result<String, AllocError>
    ensures { IfOk result (λ t. string_bytes t ≡ quoted text.now) }
{
    let mut all = String::from_str(alloc, "\"")?;
    all.push_str(text)?;
    all.push_str("\"")?;
    Ok(all)
}

/// The number of the sig of a label, if it is known.
fn number_of(numbers: &IndexMap<String, usize>, label: &str) -> Option<usize>
    ensures { result ≡ get_by_text numbers.now label.now }
{
    let number = numbers.get(label).copied();
    number
}

/// The number of the sig of a literal, if it is known.
pub fn literal_number(
    alloc: Global,
    numbers: &IndexMap<String, usize>,
    text: &str,
) -> Result<Option<usize>, AllocError>
    ensures { IfOk result (λ o. o ≡ get_by_text numbers.now (quoted text.now)) }
{
    let label = quoted(alloc, text)?;
    let number = number_of(numbers, label.as_str());
    Ok(number)
}

/// Notes the number of the sig of a label; the answer is the one that was noted before, if any.
fn note(
    alloc: Global,
    label: &str,
    number: usize,
    numbers: &mut IndexMap<String, usize>,
) -> Result<Option<usize>, AllocError>
    ensures old { IfOk result (λ old. old ≡ get_by_text numbers.old label.now) }
    ensures new { OnOk result ((q : List ℕ) → get_by_text numbers.new q
        ≡ (if bytes_eq label.now q then Some number else get_by_text numbers.old q)) }
{
    let key = String::from_str(alloc, label)?;
    let old = numbers.insert(key, number)?;
    Ok(old)
}

/// The numbers of the sigs from this one on, by their labels; None where two of them have one label.
pub fn numbers_from(
    alloc: Global,
    sigs: &[Sig],
    first: usize,
) -> Result<Option<IndexMap<String, usize>>, AllocError>
    ensures { IfOk result (λ o. IfSome o (λ numbers. Finds sigs.now first (length sigs.now)
        (get_by_text numbers))) }
{
    let mut numbers = IndexMap::new(alloc);
    for number in first..sigs.len() {
        match note(alloc, sigs[number].label.text(), number, &mut numbers)? {
            None => {}
            Some(_) => return Ok(None),
        }
    }
    Ok(Some(numbers))
}
