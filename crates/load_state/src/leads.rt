//! Whether the opens of a model lead where they should.

ghost use Rattle.std.specs.Prelude.{◌≡◌, ◌∷◌, [], true, IfOk, IfSome, length, slice_get, Some};
ghost use Rattle.load_state.specs.Keys.{texts_of};
ghost use Rattle.load_state.specs.Leads.{IsAnswered, LeadsTo, IsLed, IsEnd, IsOfIntegers, IsDeclared, IsGiven, StandsFor, IsArgument, AreArguments, AreLed, IsInstanceLed, AllLed};
ghost use Rattle.load_state.specs.Sigs.{header_names};
ghost use Rattle.load_state.specs.Opens as asks;

use crate::count::plus;
use crate::loading::{Asked, answer_to};
use crate::names::{file_name, folder_of, last_part, path_text};
use crate::refuse::small;
use crate::source::Source;
use crate::table::Enumerated;
use base_types::Name;
use std::alloc::{AllocError, Global};
use syntax_tree::{Header, Instance, Open, Opened, Parameter, QualName, SigName, SigRef};

/// Whether this is the text of a path, by what was answered for its two names.
#[tactic(auto, using(crate::proofs::Led::near_answered, crate::proofs::Led::far_answered))]
fn is_answered(
    alloc: Global,
    asked: &[Asked],
    root: &str,
    path: &str,
    text: u32,
) -> Result<bool, AllocError>
    ensures { IfOk result (λ is. is ≡ true → IsAnswered asked.now root.now path.now text) }
{
    let folder = folder_of(alloc, root)?;
    let near = file_name(alloc, folder.as_str(), path)?;
    match answer_to(asked, near.as_str()) {
        Some(Some(found)) => Ok(found == text),
        Some(None) => {
            let far = file_name(alloc, "", path)?;
            Ok(is_text(answer_to(asked, far.as_str()), text))
        }
        None => Ok(false),
    }
}

/// Whether the answer is this text.
fn is_text(answer: Option<Option<u32>>, text: u32) -> bool
    ensures { result ≡ true → answer ≡ Some (Some text) }
{
    match answer {
        Some(Some(found)) => found == text,
        _ => false,
    }
}

/// The instance to which an open leads, where the open has this alias and the instance is one of the text of this path.
#[tactic(auto, using(crate::proofs::Led::leads_to))]
fn target_of<'a>(
    alloc: Global,
    asked: &[Asked],
    root: &str,
    instances: &'a [Instance],
    opened: &Opened,
    alias: &str,
    path: &str,
) -> Result<Option<&'a Instance>, AllocError>
    ensures { IfOk result (λ found. IfSome found (λ target.
        LeadsTo (IsAnswered asked.now root.now) instances.now alias.now path.now opened.now
        target.now)) }
{
    match instances.get(opened.instance as usize) {
        Some(target) => {
            if is_alias(opened, alias) {
                if is_answered(alloc, asked, root, path, target.text)? {
                    return Ok(Some(target));
                }
            }
            Ok(None)
        }
        None => Ok(None),
    }
}

/// Whether an open has this alias.
#[tactic(auto, using(crate::proofs::Led::same_bytes))]
fn is_alias(opened: &Opened, alias: &str) -> bool
    ensures { result ≡ true → opened.now.alias ≡ alias.now }
{
    opened.alias.text() == alias
}

/// Whether a text's sig of this number has this name, and may be seen where it is sought.
#[tactic(auto, using(crate::proofs::Led::same_bytes, crate::proofs::Led::declared_by))]
fn is_declared(source: &Source, number: u32, name: &str, harmless: bool) -> bool
    ensures { result ≡ true → IsDeclared source.now.text.tree number name.now (harmless ≡ true) }
{
    match source.table.sig_at(number) {
        Some(declared) => declared.name.text() == name && (harmless || !declared.is_private),
        None => false,
    }
}

/// The text of an instance.
#[tactic(auto, using(crate::proofs::Led::text_of_source))]
pub fn source_at<'a>(sources: &'a [Source], instance: &Instance) -> Option<&'a Source>
    ensures { IfSome result (λ source. slice_get (texts_of sources.now) instance.now.text
        ≡ Some source.now.text) }
{
    sources.get(instance.text as usize)
}

/// The instance of this number.
pub fn instance_at<'a>(instances: &'a [Instance], number: u32) -> Option<&'a Instance>
    ensures { IfSome result (λ instance. slice_get instances.now number ≡ Some instance.now) }
{
    instances.get(number as usize)
}

/// Whether two numbers are the same.
fn is_same(a: u32, b: u32) -> bool
    ensures { result ≡ true → a ≡ b }
{
    a == b
}

/// Whether an argument is a sig of this name, which is one of the instance of this number or isn't private.
fn is_sig_named(
    sources: &[Source],
    instances: &[Instance],
    number: u32,
    written: &QualName,
    argument: Option<SigRef>,
) -> bool
    ensures { result ≡ true → StandsFor instances.now (texts_of sources.now) number written.now
        argument }
{
    let name = last_part(written.parts.as_slice());
    match argument {
        Some(sig) => match instance_at(instances, sig.instance) {
            Some(instance) => match source_at(sources, instance) {
                Some(source) => {
                    let is_own = is_same(sig.instance, number);
                    is_declared(source, sig.sig, name, is_own)
                }
                None => false,
            },
            None => false,
        },
        None => false,
    }
}

/// The parameter of this place.
fn parameter_at<'a>(header: &'a Header, place: usize) -> Option<&'a Parameter>
    ensures { IfSome result (λ parameter. slice_get header.now.parameters place
        ≡ Some parameter.now) }
{
    header.parameters.as_slice().get(place)
}

/// Whether a parameter has this name.
#[tactic(auto, using(crate::proofs::Led::same_bytes))]
fn is_parameter_named(parameter: &Parameter, name: &Name) -> bool
    ensures { result ≡ true → parameter.now.name.name ≡ name.now }
{
    parameter.name.name.text() == name.text()
}

/// Whether the parameter of this place has this name.
#[tactic(auto, using(crate::proofs::Led::parameter_here))]
fn has_parameter(header: &Option<Header>, place: usize, name: &Name) -> bool
    ensures { result ≡ true → slice_get (header_names header.now) place ≡ Some name.now }
{
    match header {
        Some(header) => match parameter_at(header, place) {
            Some(parameter) => is_parameter_named(parameter, name),
            None => false,
        },
        None => false,
    }
}

/// Whether the argument of this place is this one.
fn has_argument(arguments: &[Option<SigRef>], place: usize, argument: Option<SigRef>) -> bool
    ensures { result ≡ true → slice_get arguments.now place ≡ Some argument }
{
    match arguments.get(place) {
        Some(given) => *given == argument,
        None => false,
    }
}

/// Whether an instance of a text has this argument for its parameter of this name.
#[tactic(auto, using(crate::proofs::Led::given_by))]
fn is_given(
    source: &Source,
    arguments: &[Option<SigRef>],
    name: &Name,
    argument: Option<SigRef>,
) -> bool
    ensures { result ≡ true → IsGiven source.now.text.tree arguments.now name.now argument }
{
    let known = source.table.known(name.text());
    has_parameter(&source.text.tree.header, known.parameter, name)
        && has_argument(arguments, known.parameter, argument)
}

/// The one part of a name, where it has one alone.
fn only_part<'a>(parts: &'a [Name]) -> Option<&'a Name>
    ensures { IfSome result (λ part. parts.now ≡ part.now ∷ []) }
{
    match parts {
        [part] => Some(part),
        _ => None,
    }
}

/// Whether a name is that of a parameter for which the instance of this number was given this argument.
fn is_parameter(
    sources: &[Source],
    instances: &[Instance],
    number: u32,
    written: &QualName,
    argument: Option<SigRef>,
) -> bool
    ensures { result ≡ true → StandsFor instances.now (texts_of sources.now) number written.now
        argument }
{
    match only_part(written.parts.as_slice()) {
        Some(part) => match instance_at(instances, number) {
            Some(own) => match source_at(sources, own) {
                Some(source) => is_given(source, own.arguments.as_slice(), part, argument),
                None => false,
            },
            None => false,
        },
        None => false,
    }
}

/// Whether an argument is what is written in an open of the instance of this number.
fn is_argument(
    sources: &[Source],
    instances: &[Instance],
    number: u32,
    written: &SigName,
    argument: Option<SigRef>,
) -> bool
    ensures { result ≡ true → IsArgument instances.now (texts_of sources.now) number written.now
        argument }
{
    match written {
        SigName::Int(_) => argument.is_none(),
        SigName::Name(name) => {
            is_sig_named(sources, instances, number, name, argument)
                || is_parameter(sources, instances, number, name, argument)
        }
    }
}

/// Whether arguments are those that are written.
fn are_arguments(
    sources: &[Source],
    instances: &[Instance],
    number: u32,
    names: &[SigName],
    arguments: &[Option<SigRef>],
) -> bool
    ensures { result ≡ true → AreArguments instances.now (texts_of sources.now) number names.now
        arguments.now }
{
    if names.len() != arguments.len() {
        return false;
    }
    for place in 0..names.len() {
        if !is_argument(sources, instances, number, &names[place], arguments[place]) {
            return false;
        }
    }
    true
}

/// The alias of a written open.
fn alias_of(asked: &Open) -> &str
    ensures { result.now ≡ asks.alias_of (asks.written asked.now) }
{
    match &asked.alias {
        Some(named) => named.name.text(),
        None => last_part(asked.path.parts.as_slice()),
    }
}

/// Whether a written open leads where it should.
#[tactic(auto, using(crate::proofs::Led::written_led))]
fn is_written_led(
    alloc: Global,
    asked: &[Asked],
    root: &str,
    sources: &[Source],
    instances: &[Instance],
    number: u32,
    written: &Open,
    opened: &Opened,
) -> Result<bool, AllocError>
    ensures { IfOk result (λ is. is ≡ true → IsLed (IsAnswered asked.now root.now) instances.now
        (texts_of sources.now) number (asks.written written.now) opened.now) }
{
    let path = path_text(alloc, &written.path)?;
    match target_of(
        alloc,
        asked,
        root,
        instances,
        opened,
        alias_of(written),
        path.as_str(),
    )? {
        Some(target) => Ok(are_arguments(
            sources,
            instances,
            number,
            written.arguments.as_slice(),
            target.arguments.as_slice(),
        )),
        None => Ok(false),
    }
}

/// Whether the open that an enum implies leads where it should.
#[tactic(auto, using(crate::proofs::Led::implied_led))]
fn is_implied_led(
    alloc: Global,
    asked: &[Asked],
    root: &str,
    sources: &[Source],
    instances: &[Instance],
    number: u32,
    enumerated: Enumerated,
    opened: &Opened,
) -> Result<bool, AllocError>
    ensures { IfOk result (λ is. is ≡ true → IsLed (IsAnswered asked.now root.now) instances.now
        (texts_of sources.now) number (asks.implied enumerated) opened.now) }
{
    match target_of(
        alloc,
        asked,
        root,
        instances,
        opened,
        "ordering",
        "util/ordering",
    )? {
        Some(target) => Ok(is_sig(target.arguments.as_slice(), number, enumerated.sig)),
        None => Ok(false),
    }
}

/// Whether the one argument is this sig of the instance of this number.
fn is_sig(arguments: &[Option<SigRef>], instance: u32, sig: u32) -> bool
    ensures { result ≡ true → arguments.now ≡ Some (record { instance = instance; sig = sig }) ∷
        [] }
{
    match arguments {
        [Some(given)] => given.instance == instance && given.sig == sig,
        _ => false,
    }
}

/// Whether the open of this place leads where it should.
fn is_led(
    alloc: Global,
    asked: &[Asked],
    root: &str,
    sources: &[Source],
    instances: &[Instance],
    number: u32,
    source: &Source,
    place: usize,
    opened: &Opened,
) -> Result<bool, AllocError>
    ensures { IfOk result (λ is. is ≡ true → (o : asks.Opening) →
        slice_get (asks.openings_of source.now.text.tree) place ≡ Some o →
        IsLed (IsAnswered asked.now root.now) instances.now (texts_of sources.now) number o
        opened.now) }
{
    let written = source.text.tree.opens.as_slice();
    if place < written.len() {
        let led = is_written_led(
            alloc,
            asked,
            root,
            sources,
            instances,
            number,
            &written[place],
            opened,
        )?;
        return Ok(led);
    }
    match source.table.enum_at(place - written.len()) {
        Some(implied) => {
            let led = is_implied_led(
                alloc, asked, root, sources, instances, number, implied, opened,
            )?;
            Ok(led)
        }
        None => Ok(false),
    }
}

/// Whether an open is that of the integers.
#[tactic(auto, using(crate::proofs::Led::integers_led))]
fn is_of_integers(
    alloc: Global,
    asked: &[Asked],
    root: &str,
    instances: &[Instance],
    opened: &Opened,
) -> Result<bool, AllocError>
    ensures { IfOk result (λ is. is ≡ true → IsOfIntegers (IsAnswered asked.now root.now)
        instances.now opened.now) }
{
    match target_of(
        alloc,
        asked,
        root,
        instances,
        opened,
        "integer",
        "util/integer",
    )? {
        Some(target) => Ok(target.arguments.len() == 0),
        None => Ok(false),
    }
}

/// Whether behind so many opens comes none, or the one of the integers.
#[tactic(auto, using(crate::proofs::Led::ends_here))]
fn is_end(
    alloc: Global,
    asked: &[Asked],
    root: &str,
    instances: &[Instance],
    count: usize,
    opens: &[Opened],
) -> Result<bool, AllocError>
    ensures { IfOk result (λ is. is ≡ true → IsEnd (IsAnswered asked.now root.now) instances.now
        count opens.now) }
{
    if opens.len() == count {
        return Ok(true);
    }
    if opens.len() != plus(count, 1)? {
        return Ok(false);
    }
    let led = is_of_integers(alloc, asked, root, instances, &opens[count])?;
    Ok(led)
}

/// How many opens a text has.
#[tactic(auto, using(crate::proofs::Opens::openings_counted))]
pub fn opening_count(source: &Source) -> Result<usize, AllocError>
    ensures { IfOk result (λ count. count ≡ length (asks.openings_of source.now.text.tree)) }
{
    let count = plus(source.text.tree.opens.len(), source.table.enums().len())?;
    Ok(count)
}

/// Whether the opens of an instance lead where they should.
fn are_led(
    alloc: Global,
    asked: &[Asked],
    root: &str,
    sources: &[Source],
    instances: &[Instance],
    number: u32,
    source: &Source,
    opens: &[Opened],
) -> Result<bool, AllocError>
    ensures { IfOk result (λ is. is ≡ true → AreLed (IsAnswered asked.now root.now) instances.now
        (texts_of sources.now) number source.now.text.tree opens.now) }
{
    let count = opening_count(source)?;
    if opens.len() < count {
        return Ok(false);
    }
    let ends = is_end(alloc, asked, root, instances, count, opens)?;
    if !ends {
        return Ok(false);
    }
    for place in 0..count {
        let led = is_led(
            alloc,
            asked,
            root,
            sources,
            instances,
            number,
            source,
            place,
            &opens[place],
        )?;
        if !led {
            return Ok(false);
        }
    }
    Ok(true)
}

/// The same of an instance whose text is among these.
#[tactic(auto, using(crate::proofs::Led::instance_led))]
fn is_instance_led(
    alloc: Global,
    asked: &[Asked],
    root: &str,
    sources: &[Source],
    instances: &[Instance],
    number: u32,
    instance: &Instance,
) -> Result<bool, AllocError>
    ensures { IfOk result (λ is. is ≡ true → IsInstanceLed (IsAnswered asked.now root.now)
        instances.now (texts_of sources.now) number instance.now) }
{
    match sources.get(instance.text as usize) {
        Some(source) => {
            let opens = instance.opens.as_slice();
            let led = are_led(
                alloc, asked, root, sources, instances, number, source, opens,
            )?;
            Ok(led)
        }
        None => Ok(false),
    }
}

/// Whether the opens of all instances lead where they should.
pub fn all_led(
    alloc: Global,
    asked: &[Asked],
    root: &str,
    sources: &[Source],
    instances: &[Instance],
) -> Result<bool, AllocError>
    ensures { IfOk result (λ is. is ≡ true → AllLed (IsAnswered asked.now root.now) instances.now
        (texts_of sources.now)) }
{
    for place in 0..instances.len() {
        let number = small(place)?;
        let instance = &instances[place];
        let led = is_instance_led(alloc, asked, root, sources, instances, number, instance)?;
        if !led {
            return Ok(false);
        }
    }
    Ok(true)
}
