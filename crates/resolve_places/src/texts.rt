//! What the texts declare, by its places.

ghost use Rattle.std.specs.Prelude.{◌≡◌, ◌+◌, ◌++◌, replicate, slice_get, IfOk, OnOk};
ghost use Rattle.resolve_places.specs.Places.{sigs_in, facts_in, commands_in, count_in, place_of, declared_in, declared_by, declared_from, root_commands};

use base_lists::Items;
use base_types::Position;
use core_tree::Origin;
use std::alloc::{AllocError, Global};
use syntax_tree::{Instance, Loaded, Paragraph, TextList};

/// What is declared.
#[derive(Clone, Copy, Debug, PartialEq, Eq)]
pub enum Kind {
    Sigs,
    Facts,
    Commands,
}

/// How many sigs a paragraph declares.
fn sigs_in(paragraph: &Paragraph) -> usize
    ensures { result ≡ sigs_in paragraph.now }
{
    match paragraph {
        Paragraph::Sig(sig) => sig.names.len(),
        Paragraph::Enum(enumeration) => enumeration.members.as_slice().len() + 1,
        Paragraph::Fact(_) => 0,
        Paragraph::Assert(_) => 0,
        Paragraph::Pred(_) => 0,
        Paragraph::Fun(_) => 0,
        Paragraph::Command(_) => 0,
    }
}

/// How many facts it declares.
fn facts_in(paragraph: &Paragraph) -> usize
    ensures { result ≡ facts_in paragraph.now }
{
    match paragraph {
        Paragraph::Sig(_) => 0,
        Paragraph::Enum(_) => 0,
        Paragraph::Fact(_) => 1,
        Paragraph::Assert(_) => 0,
        Paragraph::Pred(_) => 0,
        Paragraph::Fun(_) => 0,
        Paragraph::Command(_) => 0,
    }
}

/// How many commands it declares.
fn commands_in(paragraph: &Paragraph) -> usize
    ensures { result ≡ commands_in paragraph.now }
{
    match paragraph {
        Paragraph::Sig(_) => 0,
        Paragraph::Enum(_) => 0,
        Paragraph::Fact(_) => 0,
        Paragraph::Assert(_) => 0,
        Paragraph::Pred(_) => 0,
        Paragraph::Fun(_) => 0,
        Paragraph::Command(_) => 1,
    }
}

/// How many things of a kind it declares.
fn count_in(kind: Kind, paragraph: &Paragraph) -> usize
    ensures { result ≡ count_in kind paragraph.now }
{
    match kind {
        Kind::Sigs => sigs_in(paragraph),
        Kind::Facts => facts_in(paragraph),
        Kind::Commands => commands_in(paragraph),
    }
}

/// The place of a paragraph's first token; of a command that of its keyword.
fn place_of(paragraph: &Paragraph) -> Position
    ensures { result ≡ place_of paragraph.now }
{
    match paragraph {
        Paragraph::Sig(sig) => sig.place,
        Paragraph::Enum(enumeration) => enumeration.place,
        Paragraph::Fact(claim) => claim.place,
        Paragraph::Assert(claim) => claim.place,
        Paragraph::Pred(pred) => pred.place,
        Paragraph::Fun(function) => function.place,
        Paragraph::Command(command) => command.keyword,
    }
}

/// Adds an origin so many times.
fn push_all(all: &mut Items<Origin>, count: usize, origin: Origin) -> Result<(), AllocError>
    ensures { OnOk result (all.new ≡ all.old ++ replicate count origin) }
{
    for _origin in 0..count {
        all.push(origin)?;
    }
    Ok(())
}

/// Adds what these paragraphs of an instance declare.
#[tactic(auto, using(crate::proofs::Walk::paragraph_end))]
fn push_declared(
    all: &mut Items<Origin>,
    kind: Kind,
    instance: u32,
    paragraphs: &[Paragraph],
) -> Result<(), AllocError>
    ensures { OnOk result (all.new ≡ all.old
        ++ declared_in kind instance paragraphs.now) }
{
    for paragraph in paragraphs {
        let place = place_of(paragraph);
        let count = count_in(kind, paragraph);
        push_all(all, count, Origin { instance, place })?;
    }
    Ok(())
}

/// Adds what an instance declares that has a text of these.
fn push_instance(
    all: &mut Items<Origin>,
    kind: Kind,
    texts: &TextList,
    number: u32,
    instance: &Instance,
) -> Result<(), AllocError>
    ensures { OnOk result (all.new ≡ all.old
        ++ declared_by kind number (slice_get texts.now instance.now.text)) }
{
    let place = instance.text as usize;
    if place >= texts.len() {
        // Each instance has a text.
        return Err(AllocError);
    }
    let text = texts.get(place);
    push_declared(all, kind, number, text.tree.paragraphs.as_slice())
}

/// The number of the next instance.
fn after(number: u32) -> Result<u32, AllocError>
    ensures { IfOk result (λ next. next ≡ number + 1) }
{
    if number >= u32::MAX {
        return Err(AllocError);
    }
    Ok(number + 1)
}

/// What all instances declare.
#[tactic(auto, using(crate::proofs::Walk::instance_end))]
pub fn declared(alloc: Global, kind: Kind, loaded: &Loaded) -> Result<Items<Origin>, AllocError>
    ensures { IfOk result (λ all. all
        ≡ declared_from kind loaded.now.texts 0 loaded.now.instances) }
{
    let texts = &loaded.texts;
    let mut all = Items::new(alloc);
    let mut number: u32 = 0;
    for instance in loaded.instances.as_slice() {
        push_instance(&mut all, kind, texts, number, instance)?;
        number = after(number)?;
    }
    Ok(all)
}

/// The commands of the root.
pub fn commands(alloc: Global, loaded: &Loaded) -> Result<Items<Origin>, AllocError>
    ensures { IfOk result (λ all. all ≡ root_commands loaded.now.texts loaded.now.instances) }
{
    if loaded.instances.len() == 0 {
        // There is a root.
        return Err(AllocError);
    }
    let root = loaded.instances.get(0);
    let mut all = Items::new(alloc);
    push_instance(&mut all, Kind::Commands, &loaded.texts, 0, root)?;
    Ok(all)
}
