//! Where the sigs, the fields and the bodies of all instances are declared: a list of each.

ghost use Rattle.std.specs.Prelude.{◌≡◌, ◌+◌, ◌++◌, length, replicate, slice_get, sum_by, IfOk, OnOk};
ghost use Rattle.syntax_tree.specs.Instances.{sigs_in};
ghost use Rattle.resolve_names.specs.Gathered.{bodies_in, module_of};
ghost use Rattle.resolve_names.specs.Entries.{numbered, sig_entry, field_entry, sig_entries_in, sig_entries_from, field_entries_of, field_entries_each, field_entries_by, field_entries_in, field_entries_from, body_entries_in, body_entries_from};

use crate::numbers::{after, number};
use crate::source::module_of;
use crate::table::{BodyEntry, FieldEntry, SigEntry};
use base_lists::Items;
use std::alloc::{AllocError, Global};
use syntax_tree::{Field, Instance, Paragraph, Text};

/// How many sigs a paragraph declares.
fn sigs_in(paragraph: &Paragraph) -> usize
    ensures { result ≡ sigs_in paragraph.now }
{
    match paragraph {
        Paragraph::Sig(sig) => sig.names.len(),
        Paragraph::Enum(e) => 1 + e.members.as_slice().len(),
        Paragraph::Fact(_) => 0,
        Paragraph::Assert(_) => 0,
        Paragraph::Pred(_) => 0,
        Paragraph::Fun(_) => 0,
        Paragraph::Command(_) => 0,
    }
}

/// How many predicates and functions it declares.
fn bodies_in(paragraph: &Paragraph) -> usize
    ensures { result ≡ bodies_in paragraph.now }
{
    match paragraph {
        Paragraph::Sig(_) => 0,
        Paragraph::Enum(_) => 0,
        Paragraph::Fact(_) => 0,
        Paragraph::Assert(_) => 0,
        Paragraph::Pred(_) => 1,
        Paragraph::Fun(_) => 1,
        Paragraph::Command(_) => 0,
    }
}

/// So many sigs of a paragraph.
fn push_sigs(
    instance: u32,
    paragraph: u32,
    count: usize,
    all: &mut Items<SigEntry>,
) -> Result<(), AllocError>
    ensures { OnOk result (all.new ≡ all.old ++ numbered (sig_entry instance paragraph) 0 count) }
{
    for place in 0..count {
        let member = number(place)?;
        all.push(SigEntry {
            instance,
            paragraph,
            member,
        })?;
    }
    Ok(())
}

/// The sigs of the paragraphs of an instance.
fn push_sigs_in(
    instance: u32,
    paragraphs: &[Paragraph],
    all: &mut Items<SigEntry>,
) -> Result<(), AllocError>
    ensures { OnOk result (all.new ≡ all.old ++ sig_entries_in instance 0 paragraphs.now) }
{
    for place in 0..paragraphs.len() {
        let count = sigs_in(&paragraphs[place]);
        let paragraph = number(place)?;
        push_sigs(instance, paragraph, count, all)?;
    }
    Ok(())
}

/// The sigs of all instances.
pub fn sig_entries(
    alloc: Global,
    texts: &[Text],
    instances: &[Instance],
) -> Result<Items<SigEntry>, AllocError>
    ensures { IfOk result (λ all. all ≡ sig_entries_from texts.now 0 instances.now) }
{
    let mut all = Items::new(alloc);
    for place in 0..instances.len() {
        let tree = module_of(texts, &instances[place])?;
        let instance = number(place)?;
        push_sigs_in(instance, tree.paragraphs.as_slice(), &mut all)?;
    }
    Ok(all)
}

/// So many predicates and functions of a paragraph.
fn push_bodies(count: usize, entry: BodyEntry, all: &mut Items<BodyEntry>) -> Result<(), AllocError>
    ensures { OnOk result (all.new ≡ all.old ++ replicate count entry) }
{
    for _body in 0..count {
        all.push(entry)?;
    }
    Ok(())
}

/// The predicates and functions of the paragraphs of an instance.
fn push_bodies_in(
    instance: u32,
    paragraphs: &[Paragraph],
    all: &mut Items<BodyEntry>,
) -> Result<(), AllocError>
    ensures { OnOk result (all.new ≡ all.old ++ body_entries_in instance 0 paragraphs.now) }
{
    for place in 0..paragraphs.len() {
        let count = bodies_in(&paragraphs[place]);
        let paragraph = number(place)?;
        let entry = BodyEntry {
            instance,
            paragraph,
        };
        push_bodies(count, entry, all)?;
    }
    Ok(())
}

/// The predicates and functions of all instances.
pub fn body_entries(
    alloc: Global,
    texts: &[Text],
    instances: &[Instance],
) -> Result<Items<BodyEntry>, AllocError>
    ensures { IfOk result (λ all. all ≡ body_entries_from texts.now 0 instances.now) }
{
    let mut all = Items::new(alloc);
    for place in 0..instances.len() {
        let tree = module_of(texts, &instances[place])?;
        let instance = number(place)?;
        push_bodies_in(instance, tree.paragraphs.as_slice(), &mut all)?;
    }
    Ok(all)
}

/// The fields of one list of so many names.
fn push_fields(
    sig: u32,
    instance: u32,
    paragraph: u32,
    group: u32,
    count: usize,
    all: &mut Items<FieldEntry>,
) -> Result<(), AllocError>
    ensures { OnOk result (all.new ≡ all.old
        ++ numbered (field_entry sig instance paragraph group) 0 count) }
{
    for place in 0..count {
        let member = number(place)?;
        all.push(FieldEntry {
            sig,
            instance,
            paragraph,
            group,
            member,
        })?;
    }
    Ok(())
}

/// The fields of a sig.
fn push_fields_of(
    sig: u32,
    instance: u32,
    paragraph: u32,
    groups: &[Field],
    all: &mut Items<FieldEntry>,
) -> Result<(), AllocError>
    ensures { OnOk result (all.new ≡ all.old
        ++ field_entries_of sig instance paragraph 0 groups.now) }
{
    for place in 0..groups.len() {
        let group = number(place)?;
        let count = groups[place].names.len();
        push_fields(sig, instance, paragraph, group, count, all)?;
    }
    Ok(())
}

/// The fields of so many sigs of a paragraph, from a number on.
fn push_fields_each(
    first: u32,
    instance: u32,
    paragraph: u32,
    groups: &[Field],
    count: usize,
    all: &mut Items<FieldEntry>,
) -> Result<(), AllocError>
    ensures { OnOk result (all.new ≡ all.old
        ++ field_entries_each first instance paragraph groups.now count) }
{
    for place in 0..count {
        let sig = after(first, place)?;
        push_fields_of(sig, instance, paragraph, groups, all)?;
    }
    Ok(())
}

/// The fields of a paragraph.
fn push_fields_by(
    first: u32,
    instance: u32,
    place: u32,
    paragraph: &Paragraph,
    all: &mut Items<FieldEntry>,
) -> Result<(), AllocError>
    ensures { OnOk result (all.new ≡ all.old
        ++ field_entries_by first instance place paragraph.now) }
{
    match paragraph {
        Paragraph::Sig(sig) => {
            let groups = sig.fields.as_slice();
            push_fields_each(first, instance, place, groups, sig.names.len(), all)?;
            Ok(())
        }
        Paragraph::Enum(_) => Ok(()),
        Paragraph::Fact(_) => Ok(()),
        Paragraph::Assert(_) => Ok(()),
        Paragraph::Pred(_) => Ok(()),
        Paragraph::Fun(_) => Ok(()),
        Paragraph::Command(_) => Ok(()),
    }
}

/// The fields of the paragraphs of an instance; the answer is the number of the sig behind them.
fn push_fields_in(
    first: u32,
    instance: u32,
    paragraphs: &[Paragraph],
    all: &mut Items<FieldEntry>,
) -> Result<u32, AllocError>
    ensures fields { OnOk result (all.new ≡ all.old
        ++ field_entries_in first instance 0 paragraphs.now) }
    ensures next { IfOk result (λ s. s ≡ first + sum_by sigs_in paragraphs.now) }
{
    let mut sig = first;
    for place in 0..paragraphs.len() {
        let paragraph = &paragraphs[place];
        let number = number(place)?;
        push_fields_by(sig, instance, number, paragraph, all)?;
        sig = after(sig, sigs_in(paragraph))?;
    }
    Ok(sig)
}

/// The fields of all instances.
pub fn field_entries(
    alloc: Global,
    texts: &[Text],
    instances: &[Instance],
) -> Result<Items<FieldEntry>, AllocError>
    ensures { IfOk result (λ all. all ≡ field_entries_from texts.now 0 0 instances.now) }
{
    let mut all = Items::new(alloc);
    let mut sig = 0;
    for place in 0..instances.len() {
        let tree = module_of(texts, &instances[place])?;
        let instance = number(place)?;
        sig = push_fields_in(sig, instance, tree.paragraphs.as_slice(), &mut all)?;
    }
    Ok(all)
}
