//! How a fact is named in a line.

ghost use Rattle.std.specs.Prelude.{◌≡◌, ◌++◌, OnOk, IfOk, slice_get};
ghost use Rattle.answer_texts.specs.Facts.{place_words, name_or_dash, label_words, fact_words, text_label, source_label, instance_label, fact_name};

use crate::push_decimal;
use base_types::{Name, Position};
use core_tree::ItemList;
use std::alloc::{AllocError, Global};
use syntax_tree::Loaded;

/// How a fact is named in a line.
#[derive(Drop)]
pub struct FactName {
    /// The name of its text.
    pub text: Name,
    /// Where its keyword stands.
    pub place: Position,
    /// Its own name, where it has one.
    pub name: Option<Name>,
    /// The label of its instance.
    pub label: Name,
}

/// Names of facts, in order.
pub type FactNameList = ItemList<FactName>;

/// An equal name, where there is one.
fn name_copy(alloc: Global, name: &Option<Name>) -> Result<Option<Name>, AllocError>
    ensures { IfOk result (λ copy. copy ≡ name.now) }
{
    match name {
        None => Ok(None),
        Some(name) => Ok(Some(Name::copy(alloc, name.text())?)),
    }
}

/// The name of the text of this number, where it is there.
#[tactic(auto, using(std::proofs::lemmas::Option::slice_get_past))]
fn text_label(alloc: Global, loaded: &Loaded, text: u32) -> Result<Name, AllocError>
    ensures { IfOk result (λ name. name ≡ text_label (slice_get loaded.now.texts text)) }
{
    let number = text as usize;
    if number >= loaded.texts.len() {
        return Name::copy(alloc, "");
    }
    Name::copy(alloc, loaded.texts.get(number).name.text())
}

/// The name of the text that the instance of this number has, where both are there.
#[tactic(auto, using(std::proofs::lemmas::Option::slice_get_past))]
fn source_label(alloc: Global, loaded: &Loaded, instance: u32) -> Result<Name, AllocError>
    ensures { IfOk result (λ name. name ≡ source_label loaded.now.texts
        (slice_get loaded.now.instances instance)) }
{
    let number = instance as usize;
    if number >= loaded.instances.len() {
        return Name::copy(alloc, "");
    }
    text_label(alloc, loaded, loaded.instances.get(number).text)
}

/// The label of the instance of this number, where it is there.
#[tactic(auto, using(std::proofs::lemmas::Option::slice_get_past))]
fn instance_label(alloc: Global, loaded: &Loaded, instance: u32) -> Result<Name, AllocError>
    ensures { IfOk result (λ name. name ≡ instance_label
        (slice_get loaded.now.instances instance)) }
{
    let number = instance as usize;
    if number >= loaded.instances.len() {
        return Name::copy(alloc, "");
    }
    Name::copy(alloc, loaded.instances.get(number).label.text())
}

/// How a fact is named that stands at this place of an instance's text.
pub fn fact_name(
    alloc: Global,
    loaded: &Loaded,
    instance: u32,
    place: Position,
    name: &Option<Name>,
) -> Result<FactName, AllocError>
    ensures { IfOk result (λ fact. fact ≡ fact_name loaded.now.texts loaded.now.instances instance
        place name.now) }
{
    Ok(FactName {
        text: source_label(alloc, loaded, instance)?,
        place,
        name: name_copy(alloc, name)?,
        label: instance_label(alloc, loaded, instance)?,
    })
}

/// Writes a line and a column.
fn push_place(out: &mut Vec<u8>, place: Position) -> Result<(), AllocError>
    ensures { OnOk result (out.new.items ≡ out.old.items ++ place_words place) }
{
    push_decimal(out, u64::from(place.line))?;
    out.extend_from_slice(b":")?;
    push_decimal(out, u64::from(place.column))
}

/// Writes a name, or `-` where there is none.
fn push_name(out: &mut Vec<u8>, name: &Option<Name>) -> Result<(), AllocError>
    ensures { OnOk result (out.new.items ≡ out.old.items ++ name_or_dash name.now) }
{
    match name {
        None => out.extend_from_slice(b"-"),
        Some(name) => out.extend_from_slice(name.text().as_bytes()),
    }
}

/// Writes a label with a blank before it, unless it is empty.
fn push_label(out: &mut Vec<u8>, label: &[u8]) -> Result<(), AllocError>
    ensures { OnOk result (out.new.items ≡ out.old.items ++ label_words label.now) }
{
    match label {
        [] => Ok(()),
        _ => {
            out.extend_from_slice(b" ")?;
            out.extend_from_slice(label)
        }
    }
}

/// Writes `fact`, the name of its text, where it stands, its own name, and the label of its instance.
pub fn push_fact(out: &mut Vec<u8>, fact: &FactName) -> Result<(), AllocError>
    ensures { OnOk result (out.new.items ≡ out.old.items ++ fact_words fact.now) }
{
    out.extend_from_slice(b"fact ")?;
    out.extend_from_slice(fact.text.text().as_bytes())?;
    out.extend_from_slice(b" ")?;
    push_place(out, fact.place)?;
    out.extend_from_slice(b" ")?;
    push_name(out, &fact.name)?;
    push_label(out, fact.label.text().as_bytes())
}
