//! The walk along the paragraphs of all instances, with the numbers of what comes next.

ghost use Rattle.std.specs.Prelude.{IfOk, IfSome};
ghost use Rattle.resolve_told_sigs.specs.Walks.{Walks};
ghost use Rattle.resolve_told_sigs.specs.Told.{AreSigsAt, IsAssertionAt, IsEnumAt, IsFactAt, IsInstanceAt, IsParagraphAt, given};

use crate::claims::{has_assertion, has_fact};
use crate::sigs::{SigSpot, enum_at, sigs_at};
use crate::told::Sources;
use crate::words::next;
use std::alloc::{AllocError, Global};
use syntax_tree::{Claim, Enumeration, Instance, Paragraph, Sig, Text};

/// The numbers of the next instance, sig, field, fact and assertion.
#[derive(Clone, Copy, Drop)]
pub struct Spot {
    pub instance: u32,
    pub sig: u32,
    pub field: u32,
    pub fact: u32,
    pub assertion: u32,
}

/// Where a paragraph of sigs leads, if they say what it says.
fn behind_sigs(
    alloc: Global,
    sources: &Sources<'_>,
    label: &str,
    at: Spot,
    written: &Sig,
) -> Result<Option<Spot>, AllocError>
    ensures { IfOk result (λ o. IfSome o (λ there. AreSigsAt (given sources.now) label.now at
        written.now there)) }
{
    let start = SigSpot {
        sig: at.sig,
        field: at.field,
    };
    match sigs_at(alloc, sources, label, at.instance, written, start)? {
        None => Ok(None),
        Some(there) => Ok(Some(Spot {
            instance: at.instance,
            sig: there.sig,
            field: there.field,
            fact: at.fact,
            assertion: at.assertion,
        })),
    }
}

/// Where an enum leads, if its sigs are those of the model.
fn behind_enum(
    alloc: Global,
    sources: &Sources<'_>,
    label: &str,
    at: Spot,
    written: &Enumeration,
) -> Result<Option<Spot>, AllocError>
    ensures { IfOk result (λ o. IfSome o (λ there. IsEnumAt (given sources.now) label.now at
        written.now there)) }
{
    match enum_at(alloc, sources, label, at.instance, written, at.sig)? {
        None => Ok(None),
        Some(sig) => Ok(Some(Spot {
            instance: at.instance,
            sig,
            field: at.field,
            fact: at.fact,
            assertion: at.assertion,
        })),
    }
}

/// Where a fact leads, if that of the model says what it says.
fn behind_fact(
    alloc: Global,
    sources: &Sources<'_>,
    at: Spot,
    written: &Claim,
) -> Result<Option<Spot>, AllocError>
    ensures { IfOk result (λ o. IfSome o (λ there. IsFactAt (given sources.now) at written.now
        there)) }
{
    if !has_fact(alloc, sources, at.instance, written, at.fact)? {
        return Ok(None);
    }
    let fact = next(at.fact)?;
    Ok(Some(Spot {
        instance: at.instance,
        sig: at.sig,
        field: at.field,
        fact,
        assertion: at.assertion,
    }))
}

/// Where an assertion leads, if that of the model says what it says.
fn behind_assertion(
    alloc: Global,
    sources: &Sources<'_>,
    at: Spot,
    written: &Claim,
) -> Result<Option<Spot>, AllocError>
    ensures { IfOk result (λ o. IfSome o (λ there. IsAssertionAt (given sources.now) at written.now
        there)) }
{
    if !has_assertion(alloc, sources, at.instance, written, at.assertion)? {
        return Ok(None);
    }
    let assertion = next(at.assertion)?;
    Ok(Some(Spot {
        instance: at.instance,
        sig: at.sig,
        field: at.field,
        fact: at.fact,
        assertion,
    }))
}

/// Where a paragraph leads, if the model says what it says.
fn behind_paragraph(
    alloc: Global,
    sources: &Sources<'_>,
    label: &str,
    at: Spot,
    paragraph: &Paragraph,
) -> Result<Option<Spot>, AllocError>
    ensures { IfOk result (λ o. IfSome o (λ there. IsParagraphAt (given sources.now) label.now at
        paragraph.now there)) }
{
    match paragraph {
        Paragraph::Sig(sig) => {
            let there = behind_sigs(alloc, sources, label, at, sig)?;
            Ok(there)
        }
        Paragraph::Enum(written) => {
            let there = behind_enum(alloc, sources, label, at, written)?;
            Ok(there)
        }
        Paragraph::Fact(claim) => {
            let there = behind_fact(alloc, sources, at, claim)?;
            Ok(there)
        }
        Paragraph::Assert(claim) => {
            let there = behind_assertion(alloc, sources, at, claim)?;
            Ok(there)
        }
        Paragraph::Pred(_) => Ok(Some(at)),
        Paragraph::Fun(_) => Ok(Some(at)),
        Paragraph::Command(_) => Ok(Some(at)),
    }
}

/// Where the paragraphs of an instance lead, if the model says what they say.
fn behind_paragraphs(
    alloc: Global,
    sources: &Sources<'_>,
    label: &str,
    at: Spot,
    paragraphs: &[Paragraph],
) -> Result<Option<Spot>, AllocError>
    ensures { IfOk result (λ o. IfSome o (λ there. Walks (IsParagraphAt (given sources.now)
        label.now) at paragraphs.now there)) }
{
    let mut here = at;
    for paragraph in paragraphs {
        match behind_paragraph(alloc, sources, label, here, paragraph)? {
            None => return Ok(None),
            Some(there) => here = there,
        }
    }
    Ok(Some(here))
}

/// Where an instance leads, if the model says what its text says.
fn behind_instance(
    alloc: Global,
    sources: &Sources<'_>,
    texts: &[Text],
    at: Spot,
    instance: &Instance,
) -> Result<Option<Spot>, AllocError>
    ensures { IfOk result (λ o. IfSome o (λ there. IsInstanceAt texts.now (given sources.now) at
        instance.now there)) }
{
    let place = instance.text as usize;
    if place >= texts.len() {
        // Each instance has a text.
        return Ok(None);
    }
    let paragraphs = texts[place].tree.paragraphs.as_slice();
    match behind_paragraphs(alloc, sources, instance.label.text(), at, paragraphs)? {
        None => Ok(None),
        Some(there) => {
            let after = next(there.instance)?;
            Ok(Some(Spot {
                instance: after,
                sig: there.sig,
                field: there.field,
                fact: there.fact,
                assertion: there.assertion,
            }))
        }
    }
}

/// Where all instances lead, if the model says what their texts say.
pub fn behind_all(
    alloc: Global,
    sources: &Sources<'_>,
    texts: &[Text],
    at: Spot,
    instances: &[Instance],
) -> Result<Option<Spot>, AllocError>
    ensures { IfOk result (λ o. IfSome o (λ there. Walks (IsInstanceAt texts.now
        (given sources.now)) at instances.now there)) }
{
    let mut here = at;
    for instance in instances {
        match behind_instance(alloc, sources, texts, here, instance)? {
            None => return Ok(None),
            Some(there) => here = there,
        }
    }
    Ok(Some(here))
}
