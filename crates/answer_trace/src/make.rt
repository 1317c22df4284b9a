//! The labels of a model under its scopes: how relations, atoms and integers are written.

ghost use Rattle.std.specs.Prelude.{◌≡◌, ◌++◌, ◌+◌, ◌<◌, ◌≤◌, ◌^◌, ℕ, ◌∷◌, [], length, IfOk, OnOk, codes, decimal, slice_get, slice_index};
ghost use Rattle.answer_trace.specs.Owners.{owned, walk, IsLinked};
ghost use Rattle.answer_trace.specs.Made.{AreRelationsOf, naming_of, numbered_texts, sig_texts, texts_before, integer_text, integer_texts, universe_texts, shown_as, sig_label_at, field_label_at, field_labels, labels_before, relation_labels_of};

use crate::label::{Labels, RelationLabel, RelationLabelList, Shown, TextList};
use crate::owners::Owners;
use base_types::Name;
use core_meaning::{Scopes, SigScope};
use core_tree::{Model, Sig, SigKind};
use itoa::Buffer;
use std::alloc::{AllocError, Global};

/// What a sig is for the texts of atoms.
#[derive(Clone, Copy, Debug, PartialEq, Eq, Drop)]
pub enum Naming {
    /// The sig of a literal, which names one atom.
    Literal,
    /// `String`, whose atoms the literals' sigs name.
    Strings,
    /// Another sig: where it is top-level it names its atoms by numbers.
    Numbered,
}

/// What a sig is for the texts of atoms: `String` and the literals' sigs are not in a text.
fn sig_naming(sig: &Sig) -> Naming
    ensures { result ≡ naming_of sig.now.origin sig.now.kind }
{
    match (&sig.origin, &sig.kind) {
        (Some(_), _) => Naming::Numbered,
        (None, SigKind::Extends(_)) => Naming::Literal,
        (None, _) => Naming::Strings,
    }
}

/// The text of an atom of a sig: its label, `$` and a number.
fn atom_name(alloc: Global, label: &Name, number: u64) -> Result<Name, AllocError>
    ensures { IfOk result (λ n. n ≡ label.now ++ codes "$" ++ decimal number) }
{
    let mut text = String::from_str(alloc, label.text())?;
    text.push_str("$")?;
    let mut buffer = Buffer::new();
    text.push_str(buffer.format(number))?;
    Name::copy(alloc, text.as_str())
}

/// Adds the texts of the first so many atoms of a sig.
fn push_numbered(
    alloc: Global,
    label: &Name,
    count: u64,
    atoms: &mut TextList,
) -> Result<(), AllocError>
    ensures { OnOk result (atoms.new ≡ atoms.old ++ numbered_texts label.now count) }
{
    for number in 0..count {
        atoms.push(atom_name(alloc, label, number)?)?;
    }
    Ok(())
}

/// Adds the texts of the atoms that a sig names.
fn push_sig(
    alloc: Global,
    sig: &Sig,
    scope: &SigScope,
    atoms: &mut TextList,
) -> Result<(), AllocError>
    ensures { OnOk result (atoms.new ≡ atoms.old ++ sig_texts sig.now scope.now) }
{
    match sig_naming(sig) {
        Naming::Literal => atoms.push(Name::copy(alloc, sig.label.text())?),
        Naming::Strings => Ok(()),
        Naming::Numbered => match scope.number {
            Some(count) if scope.top => push_numbered(alloc, &sig.label, count, atoms),
            _ => Ok(()),
        },
    }
}

/// The text of an integer of a bitwidth, by its place from the least up.
fn integer_name(alloc: Global, bits: u32, place: u32) -> Result<Name, AllocError>
    requires least { 1 ≤ bits }
    requires most { bits ≤ 12 }
    ensures { IfOk result (λ n. n ≡ integer_text bits place) }
{
    let half = 1i64 << (bits - 1);
    let mut buffer = Buffer::new();
    Name::copy(alloc, buffer.format(i64::from(place) - half))
}

/// Adds the texts of the integers of a bitwidth, from the least up.
fn push_integers(alloc: Global, bits: u32, atoms: &mut TextList) -> Result<(), AllocError>
    requires least { 1 ≤ bits }
    requires most { bits ≤ 12 }
    ensures { OnOk result (atoms.new ≡ atoms.old ++ integer_texts bits (2 ^ bits)) }
{
    for place in 0..1u32 << bits {
        atoms.push(integer_name(alloc, bits, place)?)?;
    }
    Ok(())
}

/// A number in 32 bits. The only error is want of memory, which is also that it doesn't fit.
fn short(number: usize) -> Result<u32, AllocError>
    ensures { IfOk result (λ n. n ≡ number) }
{
    match u32::try_from(number) {
        Ok(short) => Ok(short),
        Err(_) => Err(AllocError),
    }
}

/// Whether a sig has a line, and what it holds where it has none.
fn shown_of(naming: Naming, last: bool, first: u32) -> Shown
    ensures { result ≡ shown_as naming last first }
{
    match naming {
        Naming::Numbered => Shown::Line,
        Naming::Literal => Shown::Just(first),
        Naming::Strings => { if last { Shown::Nothing } else { Shown::Line } }
    }
}

/// The label of a sig, before whose atoms so many others stand.
fn sig_label(
    alloc: Global,
    model: &Model,
    place: usize,
    first: u32,
) -> Result<RelationLabel, AllocError>
    requires few { length model.now.sigs + length model.now.fields < 2 ^ 32 }
    requires place { place < length model.now.sigs }
    ensures { IfOk result (λ r. r ∷ [] ≡ sig_label_at model.now first place
        (slice_get model.now.sigs place)) }
{
    let sig = model.sigs.get(place);
    let label = Name::copy(alloc, sig.label.text())?;
    let last = place + 1 == model.sigs.len();
    Ok(RelationLabel {
        label,
        columns: 1,
        place: place as u32,
        shown: shown_of(sig_naming(sig), last, first),
    })
}

/// The label of a field.
fn field_label(alloc: Global, model: &Model, place: usize) -> Result<RelationLabel, AllocError>
    requires few { length model.now.sigs + length model.now.fields < 2 ^ 32 }
    requires place { place < length model.now.fields }
    ensures { IfOk result (λ r. r ∷ [] ≡ field_label_at model.now place
        (slice_get model.now.fields place)) }
{
    let field = model.fields.get(place);
    let label = Name::copy(alloc, field.label.text())?;
    Ok(RelationLabel {
        label,
        columns: field.columns,
        place: (model.sigs.len() + place) as u32,
        shown: Shown::Line,
    })
}

/// Adds the labels of the fields along links.
fn push_fields(
    alloc: Global,
    model: &Model,
    next: &[u32],
    first: u32,
    relations: &mut RelationLabelList,
) -> Result<(), AllocError>
    requires few { length model.now.sigs + length model.now.fields < 2 ^ 32 }
    requires count { length next.now ≡ length model.now.fields }
    requires inside { (k : ℕ) → slice_index next.now k ≤ length model.now.fields }
    requires first { first ≤ length model.now.fields }
    ensures { OnOk result (relations.new ≡ relations.old
        ++ field_labels model.now (walk (length model.now.fields) next.now (length model.now.fields)
        first)) }
{
    let fields = next.len();
    let mut link = first as usize;
    for _step in 0..fields {
        if link == 0 {
            return Ok(());
        }
        relations.push(field_label(alloc, model, fields - link)?)?;
        link = next[link - 1] as usize;
    }
    Ok(())
}

/// Adds the labels of the fields of an owner.
fn push_owned(
    alloc: Global,
    model: &Model,
    owners: &Owners,
    owner: usize,
    relations: &mut RelationLabelList,
) -> Result<(), AllocError>
    requires few { length model.now.sigs + length model.now.fields < 2 ^ 32 }
    requires linked { IsLinked model.now owners.now.heads.items owners.now.next.items
        (length model.now.fields) }
    requires owner { owner ≤ length model.now.sigs }
    ensures { OnOk result (relations.new ≡ relations.old
        ++ field_labels model.now (owned model.now owner)) }
{
    push_fields(
        alloc,
        model,
        owners.next.as_slice(),
        owners.heads[owner],
        relations,
    )
}

/// Adds the labels of the sigs, each followed by those of its fields, and the texts of the atoms that the sigs name.
fn push_sigs(
    alloc: Global,
    model: &Model,
    scopes: &Scopes,
    owners: &Owners,
    relations: &mut RelationLabelList,
    atoms: &mut TextList,
) -> Result<(), AllocError>
    requires sigs { length scopes.now.numbers ≡ length model.now.sigs }
    requires few { length model.now.sigs + length model.now.fields < 2 ^ 32 }
    requires linked { IsLinked model.now owners.now.heads.items owners.now.next.items
        (length model.now.fields) }
    requires no_relations { relations.old ≡ [] }
    requires no_atoms { atoms.old ≡ [] }
    ensures relations { OnOk result (relations.new
        ≡ labels_before model.now scopes.now (length model.now.sigs)) }
    ensures atoms { OnOk result (atoms.new ≡ texts_before model.now.sigs scopes.now.numbers
        (length model.now.sigs)) }
{
    for place in 0..model.sigs.len() {
        let first = short(atoms.len())?;
        relations.push(sig_label(alloc, model, place, first)?)?;
        push_owned(alloc, model, owners, place, relations)?;
        push_sig(
            alloc,
            model.sigs.get(place),
            scopes.numbers.get(place),
            atoms,
        )?;
    }
    Ok(())
}

/// The labels of a model's relations and of the numbers of its universe.
///
/// The scopes have an entry for each sig and a bitwidth from 1 to 12. The labels of relations are exactly those that the
/// definition gives, in order: each sig and then its fields, and last the fields that no sig owns. There are as many as
/// relations; each is that of a relation of the model, with its columns and its place in a state; the texts are those of the
/// universe: the atoms of the top-level sigs, the literals, and the integers. The only error is want of memory, which is
/// also that there are 2^32 atoms of sigs or more.
pub fn make_labels(alloc: Global, model: &Model, scopes: &Scopes) -> Result<Labels, AllocError>
    requires sigs { length scopes.now.numbers ≡ length model.now.sigs }
    requires few { length model.now.sigs + length model.now.fields < 2 ^ 32 }
    requires least { 1 ≤ scopes.now.bits }
    requires most { scopes.now.bits ≤ 12 }
    ensures count { IfOk result (λ l. length l.relations
        ≡ length model.now.sigs + length model.now.fields) }
    ensures relations { IfOk result (λ l. AreRelationsOf model.now l) }
    ensures labels { IfOk result (λ l. l.relations ≡ relation_labels_of model.now scopes.now) }
    ensures atoms { IfOk result (λ l. l.atoms ≡ universe_texts model.now scopes.now) }
{
    let owners = Owners::new(alloc, model)?;
    let mut relations = RelationLabelList::new(alloc);
    let mut atoms = TextList::new(alloc);
    push_sigs(alloc, model, scopes, &owners, &mut relations, &mut atoms)?;
    push_owned(alloc, model, &owners, model.sigs.len(), &mut relations)?;
    push_integers(alloc, scopes.bits, &mut atoms)?;
    Ok(Labels { relations, atoms })
}
