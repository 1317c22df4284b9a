//! Finds a name that a module declares twice, for sigs and parameters, or for assertions.

ghost use Rattle.std.specs.Prelude.{◌≡◌, ℕ, List, None, ◌∷◌, [], ◌<◌, ◌||◌, map, IfOk, OnOk, IfSome, length};
ghost use Rattle.std.specs.List.{flat_map};
ghost use Rattle.std.specs.Str.{bytes_eq};
ghost use Rattle.resolve_names.specs.Gathered.{parameters_of};
ghost use Rattle.resolve_names.specs.Refused.{IsTwice};
ghost use Rattle.resolve_names.specs.Twice.{sigs_named, claim_named, titled, sig_names, assertion_names, IsSecondAt, IsTwiceAt};
ghost use Rattle.resolve_names.specs.Noted.{is_before as stands_before, lesser as lesser_of, least_with as least_of, has_text, Notes, IsLeastOf, IsAnswerOf, IsAnswer};

use base_types::{Position, Refusal, Rule};
use indexmap::IndexSet;
use std::alloc::{AllocError, Global};
use syntax_tree::{Header, Instance, Loaded, Module, Named, Paragraph, Parameter, Text};

/// Whether the first place stands before the second in a text.
fn is_before(a: Position, b: Position) -> bool
    ensures { result ≡ stands_before a b }
{
    a.line < b.line || a.line == b.line && a.column < b.column
}

/// The place that stands before the other.
fn lesser(a: Option<Position>, b: Option<Position>) -> Option<Position>
    ensures { result ≡ lesser_of a b }
{
    match (a, b) {
        (Some(a), Some(b)) => Some(if is_before(b, a) { b } else { a }),
        (Some(a), None) => Some(a),
        (None, b) => b,
    }
}

/// The least place, with one more where it is that of a name again.
fn least_with(again: bool, least: Option<Position>, place: Position) -> Option<Position>
    ensures { result ≡ least_of again least place }
{
    if again {
        lesser(least, Some(place))
    } else {
        least
    }
}

/// Whether the text was known before; it is known from now on.
fn is_again<'a>(text: &'a str, known: &mut IndexSet<&'a str>) -> Result<bool, AllocError>
    ensures told { IfOk result (λ again. again ≡ has_text known.old text.now) }
    ensures known { OnOk result ((q : List ℕ) → has_text known.new q
        ≡ (bytes_eq text.now q || has_text known.old q)) }
{
    let is_new = known.insert(text)?;
    Ok(!is_new)
}

/// Notes a name; the answer is the least place so far of a name that was known.
fn note<'a>(
    name: &'a Named,
    known: &mut IndexSet<&'a str>,
    least: Option<Position>,
) -> Result<Option<Position>, AllocError>
    ensures { IfOk result (Notes (name.now ∷ []) (has_text known.old) least (has_text known.new)) }
{
    let again = is_again(name.name.text(), known)?;
    Ok(least_with(again, least, name.place))
}

/// Notes names in turn.
fn note_all<'a>(
    names: &'a [Named],
    known: &mut IndexSet<&'a str>,
    least: Option<Position>,
) -> Result<Option<Position>, AllocError>
    ensures { IfOk result (Notes names.now (has_text known.old) least (has_text known.new)) }
{
    let mut so_far = least;
    for name in names {
        so_far = note(name, known, so_far)?;
    }
    Ok(so_far)
}

/// Notes parameters in turn.
fn note_parameters<'a>(
    parameters: &'a [Parameter],
    known: &mut IndexSet<&'a str>,
    least: Option<Position>,
) -> Result<Option<Position>, AllocError>
    ensures { IfOk result (Notes (map (λ p. p.name) parameters.now)
        (has_text known.old) least (has_text known.new)) }
{
    let mut so_far = least;
    for parameter in parameters {
        so_far = note(&parameter.name, known, so_far)?;
    }
    Ok(so_far)
}

/// Notes the sigs of a paragraph.
fn note_sig<'a>(
    paragraph: &'a Paragraph,
    known: &mut IndexSet<&'a str>,
    least: Option<Position>,
) -> Result<Option<Position>, AllocError>
    ensures { IfOk result (Notes (sigs_named paragraph.now)
        (has_text known.old) least (has_text known.new)) }
{
    match paragraph {
        Paragraph::Sig(sig) => {
            let sigs = note_all(sig.names.as_slice(), known, least)?;
            Ok(sigs)
        }
        Paragraph::Enum(e) => {
            let first = note(&e.name, known, least)?;
            let all = note_all(e.members.as_slice(), known, first)?;
            Ok(all)
        }
        _ => Ok(least),
    }
}

/// Notes the sigs of all paragraphs.
fn note_sigs<'a>(
    paragraphs: &'a [Paragraph],
    known: &mut IndexSet<&'a str>,
    least: Option<Position>,
) -> Result<Option<Position>, AllocError>
    ensures { IfOk result (Notes (flat_map sigs_named paragraphs.now)
        (has_text known.old) least (has_text known.new)) }
{
    let mut so_far = least;
    for paragraph in paragraphs {
        so_far = note_sig(paragraph, known, so_far)?;
    }
    Ok(so_far)
}

/// Notes a title, where there is one.
fn note_title<'a>(
    title: &'a Option<Named>,
    known: &mut IndexSet<&'a str>,
    least: Option<Position>,
) -> Result<Option<Position>, AllocError>
    ensures { IfOk result (Notes (titled title.now)
        (has_text known.old) least (has_text known.new)) }
{
    match title {
        None => Ok(least),
        Some(name) => {
            let noted = note(name, known, least)?;
            Ok(noted)
        }
    }
}

/// Notes the assertion of a paragraph.
fn note_claim<'a>(
    paragraph: &'a Paragraph,
    known: &mut IndexSet<&'a str>,
    least: Option<Position>,
) -> Result<Option<Position>, AllocError>
    ensures { IfOk result (Notes (claim_named paragraph.now)
        (has_text known.old) least (has_text known.new)) }
{
    match paragraph {
        Paragraph::Assert(claim) => {
            let noted = note_title(&claim.name, known, least)?;
            Ok(noted)
        }
        _ => Ok(least),
    }
}

/// Notes the assertions of all paragraphs.
fn note_claims<'a>(
    paragraphs: &'a [Paragraph],
    known: &mut IndexSet<&'a str>,
    least: Option<Position>,
) -> Result<Option<Position>, AllocError>
    ensures { IfOk result (Notes (flat_map claim_named paragraphs.now)
        (has_text known.old) least (has_text known.new)) }
{
    let mut so_far = least;
    for paragraph in paragraphs {
        so_far = note_claim(paragraph, known, so_far)?;
    }
    Ok(so_far)
}

/// Notes the parameters of a module, where it has a header.
fn note_header<'a>(
    header: &'a Option<Header>,
    known: &mut IndexSet<&'a str>,
) -> Result<Option<Position>, AllocError>
    ensures { IfOk result (Notes (map (λ p. p.name) (parameters_of header.now))
        (has_text known.old) None (has_text known.new)) }
{
    match header {
        None => Ok(None),
        Some(header) => {
            let noted = note_parameters(header.parameters.as_slice(), known, None)?;
            Ok(noted)
        }
    }
}

/// The least place of a parameter or sig with the name of one before it.
fn second_sig(alloc: Global, tree: &Module) -> Result<Option<Position>, AllocError>
    ensures { IfOk result (IsLeastOf (IsSecondAt (sig_names tree.now))) }
{
    let mut known = IndexSet::new(alloc);
    let parameters = note_header(&tree.header, &mut known)?;
    let all = note_sigs(tree.paragraphs.as_slice(), &mut known, parameters)?;
    Ok(all)
}

/// The least place of an assertion with the name of one before it.
fn second_claim(alloc: Global, tree: &Module) -> Result<Option<Position>, AllocError>
    ensures { IfOk result (IsLeastOf (IsSecondAt (assertion_names tree.now))) }
{
    let mut known = IndexSet::new(alloc);
    let all = note_claims(tree.paragraphs.as_slice(), &mut known, None)?;
    Ok(all)
}

/// The least place of a name of a module that is the second of its kind.
fn second_name(alloc: Global, tree: &Module) -> Result<Option<Position>, AllocError>
    ensures { IfOk result (IsLeastOf (IsTwiceAt tree.now)) }
{
    let sig = second_sig(alloc, tree)?;
    let claim = second_claim(alloc, tree)?;
    Ok(lesser(sig, claim))
}

/// The refusal of an instance.
fn twice_in(
    alloc: Global,
    texts: &[Text],
    instance: &Instance,
) -> Result<Option<Refusal>, AllocError>
    ensures inside { IfOk result (λ r. IfSome r (IsTwice (length texts.now))) }
    ensures just { IfOk result (IsAnswerOf texts.now instance.now) }
{
    let text = match texts.get(instance.text as usize) {
        None => return Ok(None),
        Some(text) => text,
    };
    let second = second_name(alloc, &text.tree)?;
    match second {
        None => Ok(None),
        Some(place) => Ok(Some(Refusal {
            rule: Rule::NameTwice,
            place: Position {
                module: instance.text,
                line: place.line,
                column: place.column,
            },
        })),
    }
}

/// The refusal of the first of the instances that has one.
fn first_in(
    alloc: Global,
    texts: &[Text],
    instances: &[Instance],
) -> Result<Option<Refusal>, AllocError>
    ensures inside { IfOk result (λ r. IfSome r (IsTwice (length texts.now))) }
    ensures just { IfOk result (IsAnswer texts.now instances.now) }
{
    for instance in instances {
        let found = twice_in(alloc, texts, instance)?;
        match found {
            Some(refusal) => return Ok(Some(refusal)),
            None => {}
        }
    }
    Ok(None)
}

/// The refusal of the first instance that has one.
pub fn twice(alloc: Global, loaded: &Loaded) -> Result<Option<Refusal>, AllocError>
    ensures inside { IfOk result (λ r. IfSome r (IsTwice (length loaded.now.texts))) }
    ensures just { IfOk result (IsAnswer loaded.now.texts loaded.now.instances) }
{
    let found = first_in(alloc, loaded.texts.as_slice(), loaded.instances.as_slice())?;
    Ok(found)
}
