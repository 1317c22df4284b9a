//! Rows of numbers at all places, and the pairs that meet in two of them.

ghost use Rattle.std.specs.Prelude.{◌≡◌, ◌<◌, ◌∷◌, [], ◌++◌, ℕ, Some, IfOk, OnOk, IfSome, length, replicate, slice_get};
ghost use Rattle.bmc_windows.specs.Pairing.{ArePairs, IsMoved, AddsPair};

use std::alloc::{AllocError, Global};

/// Two numbers at each place, each pair numbered once.
#[derive(Drop)]
pub struct Pairs {
    pub pairs: Vec<(usize, usize)>,
    pub row: Vec<usize>,
}

/// The same number at each of so many places.
pub fn repeated(alloc: Global, number: usize, count: usize) -> Result<Vec<usize>, AllocError>
    ensures { IfOk result (λ row. row.items ≡ replicate count number) }
{
    let mut row = Vec::new(alloc);
    for _turn in 0..count {
        row.push(number)?;
    }
    Ok(row)
}

/// The place of a pair in the list.
fn place_of(pairs: &[(usize, usize)], first: usize, second: usize) -> Option<usize>
    ensures { IfSome result (λ k. slice_get pairs.now k ≡ Some (first, second)) }
{
    for place in 0..pairs.len() {
        let (left, right) = pairs[place];
        if left == first && right == second {
            return Some(place);
        }
    }
    None
}

/// Adds the number of a pair to the row, and the pair to the list where it is new.
#[tactic(auto, using(crate::proofs::PushLemmas::push_kept, crate::proofs::PushLemmas::push_at))]
fn add_pair(
    pairs: &mut Vec<(usize, usize)>,
    row: &mut Vec<usize>,
    first: usize,
    second: usize,
) -> Result<(), AllocError>
    ensures { OnOk result (AddsPair pairs.old.items pairs.new.items row.old.items row.new.items
        (first, second)) }
{
    match place_of(pairs, first, second) {
        Some(place) => {
            row.push(place)?;
            Ok(())
        }
        None => {
            row.push(pairs.len())?;
            pairs.push((first, second))?;
            Ok(())
        }
    }
}

/// The pairs of numbers that stand at some place.
#[tactic(auto, using(crate::proofs::PairLaws::pairs_none, crate::proofs::PairLaws::pairs_more, crate::proofs::PairLaws::pairs_past, crate::proofs::PairLaws::pairs_all))]
pub fn pairs_of(alloc: Global, a: &[usize], b: &[usize]) -> Result<Pairs, AllocError>
    ensures { IfOk result (λ p. ArePairs p.pairs.items p.row.items a.now b.now) }
{
    let mut pairs: Vec<(usize, usize)> = Vec::new(alloc);
    let mut row = Vec::new(alloc);
    for place in 0..a.len() {
        if place < b.len() {
            add_pair(&mut pairs, &mut row, a[place], b[place])?;
        }
    }
    Ok(Pairs { pairs, row })
}

/// The pair of this number; two zeros where there is none.
pub fn pair_at(pairs: &[(usize, usize)], number: usize) -> (usize, usize)
    ensures { (m n : ℕ) → slice_get pairs.now number ≡ Some (m, n) → result ≡ (m, n) }
{
    if number < pairs.len() {
        return pairs[number];
    }
    (0, 0)
}

/// The number at a place; 0 where there is none.
pub fn found_at(row: &[usize], place: usize) -> usize
    ensures { (n : ℕ) → slice_get row.now place ≡ Some n → result ≡ n }
{
    if place < row.len() {
        return row[place];
    }
    0
}

/// A row of numbers, each taken from a place of another row; 0 where that has no such place.
#[tactic(auto, using(crate::proofs::PairLaws::moved_none, crate::proofs::PairLaws::moved_more, crate::proofs::PairLaws::moved_all))]
pub fn moved(alloc: Global, row: &[usize], from: &[usize]) -> Result<Vec<usize>, AllocError>
    ensures moved { IfOk result (λ new. IsMoved row.now from.now new.items) }
    ensures long { IfOk result (λ new. length new.items ≡ length from.now) }
{
    let mut new = Vec::new(alloc);
    for number in 0..from.len() {
        new.push(found_at(row, from[number]))?;
    }
    Ok(new)
}
