//! What the table gives the kinds of columns: of a sig the atoms of its top-level sig, but for
//! those that a sig owns which isn't under it.

ghost use Rattle.std.specs.Prelude.{◌≡◌, ◌⊎◌, ◌<◌, ◌≤◌, ◌+◌, ◌-◌, ◌∷◌, [], ℕ, List, IsTrue, get_or, length, slice_get, IfOk, OnOk};
ghost use Rattle.core_tuples.specs.Sets.{In, HasJust};
ghost use Rattle.bound_owners.specs.Tops.{top_at, HasTops};
ghost use Rattle.bound_uppers.specs.Kinds.{no_span, HasSpans, InSpan};
ghost use Rattle.bound_owners.specs.Own.{is_given_by};
ghost use Rattle.bound_owners.specs.Owned.{AreConstantsOf, HasStanding};
ghost use Rattle.bound_uppers.specs.AtomSets.{IsColumn, AreGiven, InSigSet, AreSigSets};

use crate::kinds::number_at;
use crate::numbers::{AtomRange, AtomRanges};
use crate::rows::{add_number, span_set};
use bound_owners::own::{Constants, does_own, gives, owners_of};
use bound_owners::tops::top_of;
use core_meaning::Scopes;
use core_tree::{Model, Sig};
use core_tuples::TupleSet;
use std::alloc::{AllocError, Global};

/// What the table gives each kind of column, as sets of one column.
#[derive(Drop)]
pub struct AtomSets {
    /// For each sig what it is given, where it stands as itself.
    pub sigs: Vec<TupleSet>,
    /// The integers.
    pub integers: TupleSet,
    /// Nothing: what there is of a kind that isn't one of these.
    pub none: TupleSet,
}

/// The atoms of a top-level sig.
fn atoms_of(spans: &AtomRanges, top: u32) -> AtomRange
    ensures { result ≡ get_or spans.now.sigs.items top no_span }
{
    if (top as usize) < spans.sigs.len() {
        spans.sigs[top as usize]
    } else {
        AtomRange { first: 0, count: 0 }
    }
}

/// The owner of the atom at a place of a top-level sig.
fn owner_at(owners: &[u32], place: u32) -> Option<u32>
    ensures { result ≡ slice_get owners.now place }
{
    if (place as usize) < owners.len() {
        Some(owners[place as usize])
    } else {
        None
    }
}

/// Adds an atom to a set, if it is given.
fn add_given(alloc: Global, set: &mut TupleSet, is_given: bool, atom: u32) -> Result<(), AllocError>
    requires columns { set.old.arity ≡ 1 }
    requires number { atom < 16384 }
    ensures { OnOk result (HasJust set.new 1 (λ t. In t set.old
        ⊎ (IsTrue is_given × (t ≡ atom ∷ [])))) }
{
    if is_given {
        add_number(alloc, set, atom)?;
        return Ok(());
    }
    Ok(())
}

/// The atoms of a top-level sig that the table gives to a sig, where it is known who owns them.
#[tactic(auto, using(crate::proofs::Giving::given_none))]
fn given_atoms(
    alloc: Global,
    sigs: &[Sig],
    span: AtomRange,
    owners: &[u32],
    owns: bool,
    sig: u32,
) -> Result<TupleSet, AllocError>
    requires { span.first + span.count ≤ 16384 }
    ensures { IfOk result (λ s. HasJust s 1 (λ t. (a : ℕ) × InSpan span a × (t ≡ a ∷ [])
        × IsTrue (is_given_by sigs.now owns (slice_get owners.now (a - span.first)) sig))) }
{
    let mut set = TupleSet::empty(alloc, 1);
    for place in 0..span.count {
        let is_given = gives(sigs, owner_at(owners, place), owns, sig);
        add_given(alloc, &mut set, is_given, span.first + place)?;
    }
    Ok(set)
}

/// What the table gives a sig.
fn sig_set(
    alloc: Global,
    model: &Model,
    scopes: &Scopes,
    ups: &[u32],
    spans: &AtomRanges,
    constants: &Constants,
    sig: u32,
) -> Result<TupleSet, AllocError>
    requires tops { HasTops model.now.sigs ups.now }
    requires spans { HasSpans scopes.now spans.now }
    requires constants { AreConstantsOf model.now.sigs constants.now }
    requires counted { length scopes.now.numbers ≡ length model.now.sigs }
    ensures { IfOk result (λ s. HasJust s 1 (InSigSet model.now scopes.now sig)) }
{
    let top = top_of(ups, sig);
    let owners = owners_of(constants, scopes.numbers.as_slice(), top);
    let owns = does_own(constants, owners, sig);
    let span = atoms_of(spans, top);
    let set = given_atoms(alloc, model.sigs.as_slice(), span, owners, owns, sig)?;
    Ok(set)
}

/// What the table gives a sig that stands as itself, and nothing of another.
fn own_set(
    alloc: Global,
    model: &Model,
    scopes: &Scopes,
    ups: &[u32],
    spans: &AtomRanges,
    constants: &Constants,
    stands: u32,
    sig: u32,
) -> Result<TupleSet, AllocError>
    requires tops { HasTops model.now.sigs ups.now }
    requires spans { HasSpans scopes.now spans.now }
    requires constants { AreConstantsOf model.now.sigs constants.now }
    requires counted { length scopes.now.numbers ≡ length model.now.sigs }
    ensures columns { IfOk result IsColumn }
    ensures given { stands ≡ sig → IfOk result (λ s.
        HasJust s 1 (InSigSet model.now scopes.now sig)) }
{
    if stands == sig {
        let set = sig_set(alloc, model, scopes, ups, spans, constants, sig)?;
        // for the proof: this call's clause says that it is a set of tuples
        let _columns = set.arity();
        return Ok(set);
    }
    let none = TupleSet::empty(alloc, 1);
    // for the proof: this call's clause says that it is a set of tuples
    let _columns = none.arity();
    Ok(none)
}

/// What the table gives each sig that stands as itself.
#[tactic(auto, using(crate::proofs::Giving::sets_none))]
fn sig_sets(
    alloc: Global,
    model: &Model,
    scopes: &Scopes,
    ups: &[u32],
    spans: &AtomRanges,
    constants: &Constants,
    standing: &[u32],
) -> Result<Vec<TupleSet>, AllocError>
    requires tops { HasTops model.now.sigs ups.now }
    requires spans { HasSpans scopes.now spans.now }
    requires constants { AreConstantsOf model.now.sigs constants.now }
    requires counted { length scopes.now.numbers ≡ length model.now.sigs }
    ensures { IfOk result (λ v. AreSigSets model.now scopes.now standing.now (length model.now.sigs)
        v.items) }
{
    let mut sets = Vec::new(alloc);
    let mut number = 0u32;
    for _sig in model.sigs.as_slice() {
        let stands = top_of(standing, number);
        let set = own_set(alloc, model, scopes, ups, spans, constants, stands, number)?;
        sets.push(set)?;
        if number == u32::MAX {
            return Err(AllocError);
        }
        number += 1;
    }
    Ok(sets)
}

/// Whether a top-level sig stands above each sig: the one above it is its own.
#[tactic(auto, using(crate::proofs::Giving::tops_none, crate::proofs::Giving::tops_more, crate::proofs::Giving::tops_all))]
pub fn are_tops(ups: &[u32]) -> bool
    ensures { IsTrue result → (s : ℕ) → top_at ups.now (top_at ups.now s) ≡ top_at ups.now s }
{
    for place in 0..ups.len() {
        let top = number_at(ups, place);
        if top_of(ups, top) != top {
            return false;
        }
    }
    true
}

/// What the table gives the kinds of columns.
pub fn atom_sets(
    alloc: Global,
    model: &Model,
    scopes: &Scopes,
    ups: &[u32],
    spans: &AtomRanges,
    constants: &Constants,
    standing: &[u32],
) -> Result<AtomSets, AllocError>
    requires tops { HasTops model.now.sigs ups.now }
    requires spans { HasSpans scopes.now spans.now }
    requires constants { AreConstantsOf model.now.sigs constants.now }
    requires standing { HasStanding model.now.sigs scopes.now.numbers standing.now }
    requires counted { length scopes.now.numbers ≡ length model.now.sigs }
    requires above { (s : ℕ) → top_at ups.now (top_at ups.now s) ≡ top_at ups.now s }
    ensures { IfOk result (AreGiven model.now scopes.now) }
{
    let sigs = sig_sets(alloc, model, scopes, ups, spans, constants, standing)?;
    let integers = span_set(alloc, spans.integers)?;
    let none = TupleSet::empty(alloc, 1);
    // for the proof: these calls' clauses say that they are sets of tuples
    let _columns = integers.arity();
    let _columns = none.arity();
    Ok(AtomSets {
        sigs,
        integers,
        none,
    })
}
