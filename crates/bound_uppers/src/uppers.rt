//! The upper bounds of the relations of a model, from its types, literals, scopes and own atoms.

ghost use Rattle.std.specs.Prelude.{◌≡◌, ◌<◌, ◌≤◌, ◌+◌, ◌++◌, ◌∷◌, [], ◌↔◌, ℕ, All, map, IfOk, IfErr, OnOk, IsTrue, length, slice_get, slice_index, Some};
ghost use Rattle.core_tuples.specs.Sets.{HasJust};
ghost use Rattle.core_tree.specs.declared.model.Sig.{Sig};
ghost use Rattle.core_tree.specs.declared.model.Field.{Field};
ghost use Rattle.core_tree.specs.Columns.{IsFew};
ghost use Rattle.core_meaning.specs.Kept.{universe_size};
ghost use Rattle.bound_uppers.specs.declared.table.Bound.{Bound};
ghost use Rattle.bound_uppers.specs.declared.uppers.Sketch.{Sketch};
ghost use Rattle.bound_owners.specs.Tops.{HasTops};
ghost use Rattle.bound_uppers.specs.Kinds.{HasRows, HasSpans, rows_kinds_of};
ghost use Rattle.bound_uppers.specs.AtomSets.{InRows, AreColumns};
ghost use Rattle.bound_uppers.specs.Order.{order_of};
ghost use Rattle.bound_owners.specs.Own.{HasOrigins};
ghost use Rattle.bound_uppers.specs.Sketches.{first_in, literal_in, IsRightSketch, InSketch, HasUppers, IsBoundOf, IsSigSketch, MayField, AreSigSketches, AreFieldSketches, AreSketches};
ghost use Rattle.bound_uppers.specs.Table.{IsTable, is_fixed, are_fixed};
ghost use Rattle.bound_uppers.specs.Uppers.{AreUppers};
ghost use Rattle.bound_uppers.specs.Counts.{IsOfLarge, IsSmall};

use crate::counts::{is_large, states_of};
use crate::given::{AtomSets, are_tops, atom_sets};
use crate::kinds::{sig_kinds, type_kinds};
use crate::numbers::{AtomRange, AtomRanges, spans_of};
use crate::order::orders;
use crate::rows::{rows_hold, rows_set, span_set};
use crate::table::{Bound, BoundList, Bounds};
use base_types::{Fault, Position, Refusal, Rule};
use bound_owners::own::{constants_of, have_origins, table_standing};
use bound_owners::tops::tops;
use core_meaning::Scopes;
use core_tree::{Field, Model, Row, Sig, SigKind};
use core_tuples::{Tuple, TupleSet};
use std::alloc::{AllocError, Global};

/// A relation before its tuples are made.
#[derive(Drop)]
struct Sketch {
    /// The number of columns, from one to nine.
    arity: u32,
    /// Of which kinds its members are.
    rows: Vec<Tuple>,
    /// The only atom that it may have, of a literal's sig.
    atom: Option<u64>,
    fixed: bool,
}

/// The number of columns, or the nearest number that a relation can have.
fn columns_of(columns: u32) -> u32
    ensures least { 1 ≤ result }
    ensures most { result ≤ 9 }
    ensures same { IsFew columns → result ≡ columns }
{
    if columns < 1 {
        return 1;
    }
    // ArityLimit, S47: a relation has at most nine columns.
    if columns > 9 {
        return 9;
    }
    columns
}

/// Where the numbers of a sig begin; behind all atoms where there is none of this number.
fn first_of(spans: &AtomRanges, sig: u32) -> u32
    ensures { result ≡ first_in spans.now sig }
{
    if (sig as usize) < spans.sigs.len() {
        spans.sigs[sig as usize].first
    } else {
        spans.integers.first
    }
}

/// The atom of a literal's sig, which has this number: it has no origin, and its place behind
/// `String` is that of its atom.
fn literal_atom(spans: &AtomRanges, sig: &Sig, number: u32) -> Option<u64>
    ensures { result ≡ literal_in spans.now number sig.now }
{
    if sig.origin.is_some() {
        return None;
    }
    match &sig.kind {
        SigKind::Top => None,
        SigKind::Extends(parent) => {
            let place = number.saturating_sub(*parent).saturating_sub(1);
            Some(first_of(spans, *parent) as u64 + place as u64)
        }
        SigKind::Subset(_) => None,
    }
}

/// Whether a relation is the same in all states.
fn stays(is_var: bool) -> bool
    ensures { result ≡ is_fixed is_var }
{
    !is_var
}

/// The sketch of a sig, which has this number.
#[tactic(auto, using(crate::proofs::Sketching::right_sig))]
fn sig_sketch(
    alloc: Global,
    sigs: &[Sig],
    sig: &Sig,
    ups: &[u32],
    spans: &AtomRanges,
    number: u32,
) -> Result<Sketch, AllocError>
    ensures fixed { IfOk result (λ s. s.fixed ≡ is_fixed sig.now.is_var) }
    ensures right { IfOk result IsRightSketch }
    ensures its { IfOk result (IsSigSketch sigs.now ups.now spans.now number sig.now) }
{
    let rows = sig_kinds(alloc, sigs, ups, number)?;
    Ok(Sketch {
        arity: 1,
        rows,
        atom: literal_atom(spans, sig, number),
        fixed: stays(sig.is_var),
    })
}

/// The rows of kinds of a field, where all have its columns; none otherwise.
fn field_kinds(
    alloc: Global,
    ups: &[u32],
    columns: u32,
    rows: &[Row],
) -> Result<Vec<Tuple>, AllocError>
    ensures columns { IfOk result (λ v. All (λ r. length r ≡ columns) v.items) }
    ensures rows { IfOk result (λ v. All (λ r. length r ≡ columns) rows.now →
        HasRows v.items (rows_kinds_of ups.now rows.now)) }
{
    if have_columns(columns, rows) {
        let kinds = type_kinds(alloc, ups, rows)?;
        return Ok(kinds);
    }
    let none = Vec::new(alloc);
    Ok(none)
}

/// Whether all rows have so many columns.
#[tactic(auto, using(crate::proofs::Sketching::rows_all, crate::proofs::Sketching::rows_more, crate::proofs::Sketching::rows_not))]
fn have_columns(columns: u32, rows: &[Row]) -> bool
    ensures { IsTrue result ↔ All (λ r. length r ≡ columns) rows.now }
{
    for row in rows {
        if row.len() != columns as usize {
            return false;
        }
    }
    true
}

/// The sketch of a field.
#[tactic(auto, using(crate::proofs::Sketching::field_is))]
fn field_sketch(alloc: Global, ups: &[u32], field: &Field) -> Result<Sketch, AllocError>
    ensures fixed { IfOk result (λ s. s.fixed ≡ is_fixed field.now.is_var) }
    ensures right { IfOk result IsRightSketch }
    ensures its { IfOk result (MayField ups.now field.now) }
{
    let arity = columns_of(field.columns);
    let listed = field.rows.as_slice();
    let rows = field_kinds(alloc, ups, arity, listed)?;
    Ok(Sketch {
        arity,
        rows,
        atom: None,
        fixed: stays(field.is_var),
    })
}

/// The sketches of the sigs.
#[tactic(auto, using(crate::proofs::Sizes::map_more, crate::proofs::Sizes::map_end, crate::proofs::Sketching::no_sketch, crate::proofs::Sketching::one_right, crate::proofs::Sketching::sigs_none, crate::proofs::Sketching::sigs_more, crate::proofs::Sketching::sigs_all))]
fn sig_sketches(
    alloc: Global,
    sigs: &[Sig],
    ups: &[u32],
    spans: &AtomRanges,
) -> Result<Vec<Sketch>, AllocError>
    ensures fixed { IfOk result (λ v. map (λ (s : Sketch). s.fixed) v.items
        ≡ map (λ (d : Sig). is_fixed d.is_var) sigs.now) }
    ensures right { IfOk result (λ v. All IsRightSketch v.items) }
    ensures its { IfOk result (λ v. AreSigSketches sigs.now ups.now spans.now (length sigs.now)
        v.items) }
{
    let mut all = Vec::new(alloc);
    let mut number = 0u32;
    for sig in sigs {
        let sketch = sig_sketch(alloc, sigs, sig, ups, spans, number)?;
        all.push(sketch)?;
        if number == u32::MAX {
            return Err(AllocError);
        }
        number += 1;
    }
    Ok(all)
}

/// Adds the sketches of the fields.
#[tactic(auto, using(crate::proofs::Sizes::map_more, crate::proofs::Sizes::map_end, crate::proofs::Ranks::joined_end, crate::proofs::Sketching::one_right, crate::proofs::Sketching::fields_none, crate::proofs::Sketching::fields_more, crate::proofs::Sketching::fields_all, crate::proofs::Sketching::kept_more))]
fn add_fields(
    alloc: Global,
    fields: &[Field],
    ups: &[u32],
    all: &mut Vec<Sketch>,
) -> Result<(), AllocError>
    requires { All IsRightSketch all.old.items }
    ensures fixed { OnOk result (map (λ (s : Sketch). s.fixed) all.new.items
        ≡ map (λ (s : Sketch). s.fixed) all.old.items
        ++ map (λ (f : Field). is_fixed f.is_var) fields.now) }
    ensures right { OnOk result (All IsRightSketch all.new.items) }
    ensures its { OnOk result (AreFieldSketches ups.now fields.now (length all.old.items)
        (length fields.now) all.new.items) }
    ensures kept { OnOk result ((s : ℕ) → s < length all.old.items →
        slice_get all.new.items s ≡ slice_get all.old.items s) }
{
    for field in fields {
        let sketch = field_sketch(alloc, ups, field)?;
        all.push(sketch)?;
    }
    Ok(())
}

/// The sketches of the sigs and then of the fields.
#[tactic(auto, using(crate::proofs::Sketching::sketches_are))]
fn sketches(
    alloc: Global,
    model: &Model,
    ups: &[u32],
    spans: &AtomRanges,
) -> Result<Vec<Sketch>, AllocError>
    ensures fixed { IfOk result (λ v. map (λ (s : Sketch). s.fixed) v.items ≡ are_fixed model.now) }
    ensures its { IfOk result (λ v. AreSketches model.now ups.now spans.now v.items) }
{
    let sigs = model.sigs.as_slice();
    let fields = model.fields.as_slice();
    let mut all = sig_sketches(alloc, sigs, ups, spans)?;
    add_fields(alloc, fields, ups, &mut all)?;
    Ok(all)
}

/// The set of an atom, if it is in one of some rows of one column.
#[tactic(auto, using(crate::proofs::Sketching::atom_just, crate::proofs::Sketching::atom_off, crate::proofs::Sketching::atom_far))]
fn atom_set(
    alloc: Global,
    sets: &AtomSets,
    rows: &[Tuple],
    atom: u64,
) -> Result<TupleSet, AllocError>
    requires sets { AreColumns sets.now }
    requires columns { All (λ r. length r ≡ 1) rows.now }
    ensures { IfOk result (λ s. HasJust s 1 (λ t. InRows sets.now rows.now t × (t ≡ atom ∷ []))) }
{
    // Atoms, S66: there are at most 16,384 atoms and integers.
    if atom >= 16384 {
        let none = TupleSet::empty(alloc, 1);
        return Ok(none);
    }
    let tuple = Tuple::of(alloc, &[atom as u32])?;
    if rows_hold(sets, rows, &tuple) {
        let span = AtomRange {
            first: atom as u32,
            count: 1,
        };
        let set = span_set(alloc, span)?;
        return Ok(set);
    }
    let none = TupleSet::empty(alloc, 1);
    Ok(none)
}

/// The upper bound.
#[tactic(auto, using(crate::proofs::Sketching::by_atom, crate::proofs::Sketching::by_rows))]
fn upper_of(alloc: Global, sets: &AtomSets, sketch: &Sketch) -> Result<TupleSet, AllocError>
    requires sets { AreColumns sets.now }
    requires right { IsRightSketch sketch.now }
    ensures { IfOk result (λ s. HasJust s sketch.now.arity (InSketch sets.now sketch.now)) }
{
    match sketch.atom {
        Some(atom) => {
            let set = atom_set(alloc, sets, &sketch.rows, atom)?;
            Ok(set)
        }
        None => {
            let set = rows_set(alloc, sketch.arity, sets, &sketch.rows)?;
            Ok(set)
        }
    }
}

/// The bound of the relation at a place.
#[tactic(auto, using(crate::proofs::Sketching::right_at))]
fn bound_at(
    alloc: Global,
    sets: &AtomSets,
    all: &[Sketch],
    places: &[u64],
    relation: usize,
) -> Result<Bound, AllocError>
    requires within { relation < length all.now }
    requires counted { length places.now ≡ length all.now }
    requires sets { AreColumns sets.now }
    requires right { All IsRightSketch all.now }
    ensures order { IfOk result (λ b. b.order ≡ slice_index places.now relation) }
    ensures its { IfOk result (λ b. (k : Sketch) → slice_get all.now relation ≡ Some k →
        IsBoundOf sets.now k b) }
{
    let sketch = &all[relation];
    let upper = upper_of(alloc, sets, sketch)?;
    Ok(Bound {
        upper,
        fixed: sketch.fixed,
        order: places[relation],
    })
}

/// The bounds of the relations, in order.
fn bound_list(
    alloc: Global,
    sets: &AtomSets,
    all: &[Sketch],
    places: &[u64],
) -> Result<BoundList, AllocError>
    requires counted { length places.now ≡ length all.now }
    requires sets { AreColumns sets.now }
    requires right { All IsRightSketch all.now }
    ensures orders { IfOk result (λ l. map (λ (b : Bound). b.order) l ≡ places.now) }
    ensures fixed { IfOk result (λ l. map (λ (b : Bound). b.fixed) l
        ≡ map (λ (s : Sketch). s.fixed) all.now) }
    ensures uppers { IfOk result (λ l. HasUppers sets.now all.now l) }
{
    let mut list = BoundList::new(alloc);
    for relation in 0..all.len() {
        let bound = bound_at(alloc, sets, all, places, relation)?;
        list.push(bound)?;
    }
    Ok(list)
}

/// The bounds of all relations of a model.
#[tactic(auto, using(crate::proofs::Tables::fixed_count))]
fn table_of(
    alloc: Global,
    model: &Model,
    sets: &AtomSets,
    all: &[Sketch],
    states: u32,
) -> Result<Bounds, AllocError>
    requires fixed { map (λ (s : Sketch). s.fixed) all.now ≡ are_fixed model.now }
    requires some { 0 < states }
    requires sets { AreColumns sets.now }
    requires right { All IsRightSketch all.now }
    ensures table { IfOk result IsTable }
    ensures order { IfOk result (λ b. (r : ℕ) (c : Bound) → slice_get b.relations r ≡ Some c →
        c.order ≡ order_of model.now r) }
    ensures fixed { IfOk result (λ b. map (λ (c : Bound). c.fixed) b.relations
        ≡ are_fixed model.now) }
    ensures states { IfOk result (λ b. b.states ≡ states) }
    ensures uppers { IfOk result (λ b. HasUppers sets.now all.now b.relations) }
{
    let count = model.sigs.len();
    let fields = model.fields.as_slice();
    let places = orders(alloc, count as u64, fields)?;
    let relations = bound_list(alloc, sets, all, &places)?;
    Ok(Bounds { relations, states })
}

/// The table of the model's sigs and fields, where the top-level sig above each sig is known. Scopes
/// of other sigs than the model's, a sig without a top-level sig above it, and a literal's sig that
/// extends another than `String`, which no model has, are answered as if memory were wanting.
fn given_table(
    alloc: Global,
    model: &Model,
    scopes: &Scopes,
    ups: &[u32],
    spans: &AtomRanges,
    states: u32,
) -> Result<Bounds, AllocError>
    requires tops { HasTops model.now.sigs ups.now }
    requires spans { HasSpans scopes.now spans.now }
    requires some { 0 < states }
    ensures table { IfOk result IsTable }
    ensures order { IfOk result (λ b. (r : ℕ) (c : Bound) → slice_get b.relations r ≡ Some c →
        c.order ≡ order_of model.now r) }
    ensures fixed { IfOk result (λ b. map (λ (c : Bound). c.fixed) b.relations
        ≡ are_fixed model.now) }
    ensures states { IfOk result (λ b. b.states ≡ states) }
    ensures uppers { IfOk result (λ b. AreUppers model.now scopes.now b.relations) }
    ensures origins { IfOk result (λ b. HasOrigins model.now.sigs) }
{
    let sigs = model.sigs.as_slice();
    let numbers = scopes.numbers.as_slice();
    if numbers.len() != sigs.len() {
        return Err(AllocError);
    }
    if !are_tops(ups) {
        return Err(AllocError);
    }
    if !have_origins(sigs) {
        return Err(AllocError);
    }
    let constants = constants_of(alloc, sigs, ups)?;
    let standing = table_standing(alloc, sigs, numbers, ups, &constants)?;
    let sets = atom_sets(alloc, model, scopes, ups, spans, &constants, &standing)?;
    let all = sketches(alloc, model, &standing, spans)?;
    let found = table_of(alloc, model, &sets, &all, states)?;
    Ok(found)
}

/// The upper bounds of the table: of each sig, and of each field whose rows have its columns, just
/// the tuples of the universe that the definition gives, by the rows of its type, in which `var` sigs
/// count as their nearest ancestor that isn't `var`. They are refused at `keyword` where a table by
/// the top-level sigs of the types would have more than 1,000,000 variables. Scopes of more than
/// 16,384 numbers, or of other sigs than the model's, and a hierarchy that no model has, are answered
/// as if memory were wanting.
pub fn bounds(
    alloc: Global,
    model: &Model,
    scopes: &Scopes,
    keyword: Position,
) -> Result<Bounds, Fault>
    ensures table { IfOk result IsTable }
    ensures order { IfOk result (λ b. (r : ℕ) (c : Bound) → slice_get b.relations r ≡ Some c →
        c.order ≡ order_of model.now r) }
    ensures fixed { IfOk result (λ b. map (λ (c : Bound). c.fixed) b.relations
        ≡ are_fixed model.now) }
    ensures states { IfOk result (λ b. 0 < scopes.now.states → b.states ≡ scopes.now.states) }
    ensures uppers { IfOk result (λ b. AreUppers model.now scopes.now b.relations) }
    ensures origins { IfOk result (λ b. HasOrigins model.now.sigs) }
    ensures most { IfOk result (λ b. universe_size scopes.now ≤ 16384) }
    ensures refused { IfErr result (IsOfLarge model.now scopes.now keyword) }
    ensures fits { IfOk result (λ b. IsSmall model.now scopes.now) }
{
    let spans = spans_of(alloc, scopes)?;
    let ups = tops(alloc, model.sigs.as_slice())?;
    if is_large(alloc, model, scopes, &ups, &spans)? {
        return Err(Fault::Refused(Refusal {
            rule: Rule::Cells,
            place: keyword,
        }));
    }
    let states = states_of(scopes);
    let found = given_table(alloc, model, scopes, &ups, &spans, states)?;
    Ok(found)
}
