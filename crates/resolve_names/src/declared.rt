//! The names that an instance declares, in text order: its parameters, then what its paragraphs
//! declare.

ghost use Rattle.std.specs.Prelude.{◌≡◌, ◌+◌, ◌*◌, [], ◌∷◌, ◌++◌, length, slice_get, sum_by, false, IfOk, OnOk};
ghost use Rattle.std.specs.List.{list_any};
ghost use Rattle.syntax_tree.specs.Instances.{sigs_in};
ghost use Rattle.resolve_names.specs.declared.table.Decl.{Decl as DeclaredThing};
ghost use Rattle.resolve_names.specs.declared.table.Decl.TheVariants as thing;
ghost use Rattle.resolve_names.specs.Gathered.{declared_as, named_from, is_private_qualifier, is_private_word, field_count, fields_from, sig_of, sigs_from, declared_by, fields_in, bodies_in, declared_by_all, argument_in, parameters_with, parameters_of};

use crate::numbers::after;
use crate::table::{Decl, Declared};
use base_lists::Items;
use base_types::Name;
use std::alloc::{AllocError, Global};
use syntax_tree::{
    Enumeration, Field, FieldWord, Header, Module, Named, Paragraph, Parameter, Qualifier, Sig,
    SigRef,
};

/// How many sigs of the text stand before, and how many fields and bodies of all texts.
#[derive(Clone, Copy, Drop)]
pub struct Counts {
    pub sigs: u32,
    pub fields: u32,
    pub bodies: u32,
}

fn add_declared(
    alloc: Global,
    name: &Named,
    is_private: bool,
    what: Decl,
    declared: &mut Items<Declared>,
) -> Result<(), AllocError>
    ensures { OnOk result (declared.new
        ≡ declared.old ++ declared_as is_private what name.now ∷ []) }
{
    let name = Name::copy(alloc, name.name.text())?;
    declared.push(Declared {
        name,
        is_private,
        what,
    })?;
    Ok(())
}

fn is_private_qualifier(qualifier: Qualifier) -> bool
    ensures { result ≡ is_private_qualifier qualifier }
{
    match qualifier {
        Qualifier::Private => true,
        Qualifier::Var => false,
        Qualifier::Abstract => false,
        Qualifier::Lone => false,
        Qualifier::One => false,
        Qualifier::Some => false,
    }
}

fn is_private_sig(qualifiers: &[Qualifier]) -> bool
    ensures { result ≡ list_any is_private_qualifier qualifiers.now }
{
    for qualifier in qualifiers {
        if is_private_qualifier(*qualifier) {
            return true;
        }
    }
    false
}

fn is_private_word(word: FieldWord) -> bool
    ensures { result ≡ is_private_word word }
{
    match word {
        FieldWord::Private => true,
        FieldWord::Var => false,
        FieldWord::Disj => false,
    }
}

fn is_private_field(words: &[FieldWord]) -> bool
    ensures { result ≡ list_any is_private_word words.now }
{
    for word in words {
        if is_private_word(*word) {
            return true;
        }
    }
    false
}

/// The argument of that place; none where it is `Int`.
fn argument_in(arguments: &[Option<SigRef>], place: usize) -> Option<SigRef>
    ensures { result ≡ argument_in (slice_get arguments.now place) }
{
    match arguments.get(place) {
        None => None,
        Some(argument) => *argument,
    }
}

/// The parameters of a tree, each with its argument.
fn add_parameters(
    alloc: Global,
    parameters: &[Parameter],
    arguments: &[Option<SigRef>],
    declared: &mut Items<Declared>,
) -> Result<(), AllocError>
    ensures { OnOk result (declared.new
        ≡ declared.old ++ parameters_with parameters.now arguments.now) }
{
    for place in 0..parameters.len() {
        let what = Decl::Parameter(argument_in(arguments, place));
        add_declared(alloc, &parameters[place].name, false, what, declared)?;
    }
    Ok(())
}

fn add_header(
    alloc: Global,
    header: &Option<Header>,
    arguments: &[Option<SigRef>],
    declared: &mut Items<Declared>,
) -> Result<(), AllocError>
    ensures { OnOk result (declared.new
        ≡ declared.old ++ parameters_with (parameters_of header.now) arguments.now) }
{
    match header {
        None => Ok(()),
        Some(header) => {
            add_parameters(alloc, header.parameters.as_slice(), arguments, declared)?;
            Ok(())
        }
    }
}

/// Names of sigs that aren't private; the answer is the number behind the last one.
fn add_sig_names(
    alloc: Global,
    instance: u32,
    first: u32,
    names: &[Named],
    declared: &mut Items<Declared>,
) -> Result<u32, AllocError>
    ensures declared { OnOk result (declared.new
        ≡ declared.old ++ named_from (sig_of instance) false first names.now) }
    ensures next { IfOk result (λ n. n ≡ first + length names.now) }
{
    let mut number = first;
    for name in names {
        let what = Decl::Sig(SigRef {
            instance,
            sig: number,
        });
        add_declared(alloc, name, false, what, declared)?;
        number = after(number, 1)?;
    }
    Ok(number)
}

/// The fields of one list of names; the answer is the number behind the last one.
fn add_group(
    alloc: Global,
    is_private: bool,
    first: u32,
    names: &[Named],
    declared: &mut Items<Declared>,
) -> Result<u32, AllocError>
    ensures declared { OnOk result (declared.new
        ≡ declared.old ++ named_from thing.Field is_private first names.now) }
    ensures next { IfOk result (λ n. n ≡ first + length names.now) }
{
    let mut number = first;
    for name in names {
        add_declared(alloc, name, is_private, Decl::Field(number), declared)?;
        number = after(number, 1)?;
    }
    Ok(number)
}

/// The fields of a sig; the answer is the number behind the last one.
fn add_fields(
    alloc: Global,
    first: u32,
    groups: &[Field],
    declared: &mut Items<Declared>,
) -> Result<u32, AllocError>
    ensures declared { OnOk result (declared.new
        ≡ declared.old ++ fields_from first groups.now) }
    ensures next { IfOk result (λ n. n ≡ first + field_count groups.now) }
{
    let mut number = first;
    for group in groups {
        let is_private = is_private_field(group.words.as_slice());
        number = add_group(alloc, is_private, number, group.names.as_slice(), declared)?;
    }
    Ok(number)
}

/// The sigs of a paragraph, each with its fields after it; the answer is the number behind the
/// last field.
fn add_sigs(
    alloc: Global,
    instance: u32,
    before: Counts,
    paragraph: &Sig,
    declared: &mut Items<Declared>,
) -> Result<u32, AllocError>
    ensures declared { OnOk result (declared.new ≡ declared.old
        ++ sigs_from instance before.sigs before.fields paragraph.now paragraph.now.names) }
    ensures next { IfOk result (λ n. n
        ≡ before.fields + length paragraph.now.names * field_count paragraph.now.fields) }
{
    let is_private = is_private_sig(paragraph.qualifiers.as_slice());
    let fields = paragraph.fields.as_slice();
    let names = paragraph.names.as_slice();
    let mut sig = before.sigs;
    let mut field = before.fields;
    for name in names {
        let what = Decl::Sig(SigRef { instance, sig });
        add_declared(alloc, name, is_private, what, declared)?;
        field = add_fields(alloc, field, fields, declared)?;
        sig = after(sig, 1)?;
    }
    Ok(field)
}

/// An enum, and its members after it; the answer is the number behind the last one.
fn add_enum(
    alloc: Global,
    instance: u32,
    first: u32,
    paragraph: &Enumeration,
    declared: &mut Items<Declared>,
) -> Result<u32, AllocError>
    ensures declared { OnOk result (declared.new ≡ declared.old
        ++ named_from (sig_of instance) false first
        (paragraph.now.name ∷ paragraph.now.members)) }
    ensures next { IfOk result (λ n. n ≡ first + (1 + length paragraph.now.members)) }
{
    let what = Decl::Sig(SigRef {
        instance,
        sig: first,
    });
    add_declared(alloc, &paragraph.name, false, what, declared)?;
    let member = after(first, 1)?;
    let members = paragraph.members.as_slice();
    let last = add_sig_names(alloc, instance, member, members, declared)?;
    Ok(last)
}

/// What a paragraph declares; the answer says how many stand behind it.
fn add_paragraph(
    alloc: Global,
    instance: u32,
    before: Counts,
    paragraph: &Paragraph,
    declared: &mut Items<Declared>,
) -> Result<Counts, AllocError>
    ensures declared { OnOk result (declared.new ≡ declared.old
        ++ declared_by instance before.sigs before.fields before.bodies paragraph.now) }
    ensures sigs { IfOk result (λ n. n.sigs ≡ before.sigs + sigs_in paragraph.now) }
    ensures fields { IfOk result (λ n. n.fields ≡ before.fields + fields_in paragraph.now) }
    ensures bodies { IfOk result (λ n. n.bodies ≡ before.bodies + bodies_in paragraph.now) }
{
    match paragraph {
        Paragraph::Sig(sig) => {
            let fields = add_sigs(alloc, instance, before, sig, declared)?;
            let sigs = after(before.sigs, sig.names.len())?;
            let bodies = before.bodies;
            Ok(Counts {
                sigs,
                fields,
                bodies,
            })
        }
        Paragraph::Enum(e) => {
            let sigs = add_enum(alloc, instance, before.sigs, e, declared)?;
            Ok(Counts {
                sigs,
                fields: before.fields,
                bodies: before.bodies,
            })
        }
        Paragraph::Pred(p) => {
            let what = Decl::Body(before.bodies);
            add_declared(alloc, &p.name, p.is_private, what, declared)?;
            let bodies = after(before.bodies, 1)?;
            Ok(Counts {
                sigs: before.sigs,
                fields: before.fields,
                bodies,
            })
        }
        Paragraph::Fun(f) => {
            let what = Decl::Body(before.bodies);
            add_declared(alloc, &f.name, f.is_private, what, declared)?;
            let bodies = after(before.bodies, 1)?;
            Ok(Counts {
                sigs: before.sigs,
                fields: before.fields,
                bodies,
            })
        }
        Paragraph::Fact(_) => Ok(before),
        Paragraph::Assert(_) => Ok(before),
        Paragraph::Command(_) => Ok(before),
    }
}

/// What paragraphs declare; the answer says how many stand behind them.
fn add_paragraphs(
    alloc: Global,
    instance: u32,
    before: Counts,
    paragraphs: &[Paragraph],
    declared: &mut Items<Declared>,
) -> Result<Counts, AllocError>
    ensures declared { OnOk result (declared.new ≡ declared.old
        ++ declared_by_all instance before.sigs before.fields before.bodies paragraphs.now) }
    ensures sigs { IfOk result (λ n. n.sigs ≡ before.sigs + sum_by sigs_in paragraphs.now) }
    ensures fields { IfOk result (λ n. n.fields
        ≡ before.fields + sum_by fields_in paragraphs.now) }
    ensures bodies { IfOk result (λ n. n.bodies
        ≡ before.bodies + sum_by bodies_in paragraphs.now) }
{
    let mut counts = before;
    for paragraph in paragraphs {
        counts = add_paragraph(alloc, instance, counts, paragraph, declared)?;
    }
    Ok(counts)
}

/// The names that an instance with these arguments declares, added to a list; the answer says how
/// many stand behind them.
pub fn add_module(
    alloc: Global,
    instance: u32,
    before: Counts,
    tree: &Module,
    arguments: &[Option<SigRef>],
    declared: &mut Items<Declared>,
) -> Result<Counts, AllocError>
    ensures declared { OnOk result (declared.new ≡ declared.old
        ++ (parameters_with (parameters_of tree.now.header) arguments.now
        ++ declared_by_all instance before.sigs before.fields before.bodies
        tree.now.paragraphs)) }
    ensures sigs { IfOk result (λ n. n.sigs
        ≡ before.sigs + sum_by sigs_in tree.now.paragraphs) }
    ensures fields { IfOk result (λ n. n.fields
        ≡ before.fields + sum_by fields_in tree.now.paragraphs) }
    ensures bodies { IfOk result (λ n. n.bodies
        ≡ before.bodies + sum_by bodies_in tree.now.paragraphs) }
{
    add_header(alloc, &tree.header, arguments, declared)?;
    let paragraphs = tree.paragraphs.as_slice();
    let counts = add_paragraphs(alloc, instance, before, paragraphs, declared)?;
    Ok(counts)
}
