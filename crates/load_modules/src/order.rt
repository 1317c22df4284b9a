//! Tests that texts and instances are numbered and labelled as a walk over opens meets them.

ghost use Rattle.std.specs.Prelude.{◌≡◌, ◌≢◌, ◌+◌, ◌++◌, ◌∷◌, ◌<◌, ◌≤◌, ℕ, Bool, [], true, false, decimal, drop, length, slice_get, Some, IfOk, IfSome, IfNone};
ghost use Rattle.syntax_tree.specs.declared.instance.Instance.{Instance as InstanceOf};
ghost use Rattle.syntax_tree.specs.declared.instance.Text.{Text as TextOf};
ghost use Rattle.load_state.specs.Leads.{IsInstanceOf};
ghost use Rattle.load_state.specs.Named.{IsOpen};
ghost use Rattle.load_state.specs.Opens as asks;
ghost use Rattle.load_modules.specs.Numbered.{IsAmong, AreApart, AreMet, labels_before, IsLabelled, HasPlain, IsRounded, HasOpens, Walks, Begins, AreWalked, AreNumbered};
ghost use Rattle.load_modules.specs.Order.{slashed_to, IsLabel};
ghost use Rattle.load_modules.specs.Steps.{IsNext, IsNextText, IsTarget};
ghost use Rattle.load_modules.specs.Told.{name_at};

use crate::reach::{instance_at, is_plain};
use base_types::Name;
use itoa::Buffer;
use std::alloc::{AllocError, Global};
use syntax_tree::{Instance, Loaded, Module, Opened, Paragraph, Text};

/// Where an open leads.
#[derive(Drop)]
struct Next {
    /// The number of the instance.
    number: usize,
    /// Whether it is met here first.
    is_new: bool,
    /// The aliases of the way to it, with a slash between two.
    way: Name,
}

/// A walk over opens, as far as it has come.
#[derive(Drop)]
struct Walk {
    /// How many instances it has met.
    met: usize,
    /// The instances whose opens were all followed.
    passed: Vec<usize>,
}

/// Tests the numbers of texts and instances, their labels, and which instances open the module of the integers, which has the
/// text of this number. Where they weren't those of the walk over opens, the answer would be want of memory.
pub fn order_all(alloc: Global, loaded: &Loaded, integers: Option<u32>) -> Result<(), AllocError>
    ensures { IfOk result (λ done. AreNumbered loaded.now.instances loaded.now.texts integers) }
{
    let instances = loaded.instances.as_slice();
    let texts = loaded.texts.as_slice();
    if !are_apart(texts) || !are_met(instances, texts.len()) {
        return Err(AllocError);
    }
    if !are_rounded(instances, texts, integers)? {
        return Err(AllocError);
    }
    if !are_walked(alloc, instances, texts, integers)? {
        return Err(AllocError);
    }
    Ok(())
}

/// Whether no two texts have one name. They are few.
fn are_apart(texts: &[Text]) -> bool
    ensures { result ≡ true → AreApart texts.now }
{
    for number in 0..texts.len() {
        if is_named_before(texts, number) {
            return false;
        }
    }
    true
}

/// Whether an earlier text has the name of the one of this number.
fn is_named_before(texts: &[Text], number: usize) -> bool
    requires { number < length texts.now }
    ensures { result ≡ false → (m : ℕ) → m < number →
        name_at texts.now m ≢ name_at texts.now number }
{
    for earlier in 0..number {
        if have_one_name(texts, earlier, number) {
            return true;
        }
    }
    false
}

/// Whether two texts have one name.
fn have_one_name(texts: &[Text], a: usize, b: usize) -> bool
    requires first { a < length texts.now }
    requires second { b < length texts.now }
    ensures { result ≡ false → name_at texts.now a ≢ name_at texts.now b }
{
    is_same(texts[a].name.text(), texts[b].name.text())
}

/// Whether so many texts are numbered as the instances meet them.
fn are_met(instances: &[Instance], count: usize) -> bool
    ensures { result ≡ true → AreMet instances.now count }
{
    let mut most = 0;
    for instance in instances {
        match next_text(instance.text as usize, most) {
            Some(next) => most = next,
            None => return false,
        }
    }
    if most < count {
        return false;
    }
    true
}

/// How many texts are met behind an instance that has this one, where so many were met before.
fn next_text(text: usize, most: usize) -> Option<usize>
    ensures { IfSome result (IsNextText text most) }
{
    if text > most {
        return None;
    }
    if text < most {
        return Some(most);
    }
    most.checked_add(1)
}

/// Whether each instance opens the module of the integers, but for those of its own text.
fn are_rounded(
    instances: &[Instance],
    texts: &[Text],
    integers: Option<u32>,
) -> Result<bool, AllocError>
    ensures { IfOk result (λ is. is ≡ true → (n : ℕ) (i : InstanceOf) (t : TextOf) →
        IsInstanceOf instances.now texts.now n i t →
        IsRounded integers (length (asks.openings_of t.tree)) i) }
{
    for instance in instances {
        if !is_rounded(instance, texts, integers)? {
            return Ok(false);
        }
    }
    Ok(true)
}

/// Whether an instance does.
fn is_rounded(
    instance: &Instance,
    texts: &[Text],
    integers: Option<u32>,
) -> Result<bool, AllocError>
    ensures { IfOk result (λ is. is ≡ true → (t : TextOf) →
        slice_get texts.now instance.now.text ≡ Some t →
        IsRounded integers (length (asks.openings_of t.tree)) instance.now) }
{
    let Some(text) = texts.get(instance.text as usize) else {
        return Ok(false);
    };
    let count = opening_count(&text.tree)?;
    let is = has_rounded(instance, integers, count);
    Ok(is)
}

/// Whether an instance does, so many of whose opens are written or implied by enums.
fn has_rounded(instance: &Instance, integers: Option<u32>, count: usize) -> bool
    ensures { result ≡ true → IsRounded integers count instance.now }
{
    match integers {
        None => instance.opens.len() == count,
        Some(text) => {
            if instance.text == text {
                return instance.opens.len() == count;
            }
            is_one_more(instance.opens.len(), count)
        }
    }
}

/// Whether a number is greater by one than another.
fn is_one_more(number: usize, other: usize) -> bool
    ensures { result ≡ true → number ≡ other + 1 }
{
    other < number && number - other == 1
}

/// How many opens a module has that are written or implied by enums.
fn opening_count(tree: &Module) -> Result<usize, AllocError>
    ensures { IfOk result (λ count. length (asks.openings_of tree.now) ≡ count) }
{
    let mut count = tree.opens.len();
    for paragraph in tree.paragraphs.as_slice() {
        count = with_enum(count, paragraph)?;
    }
    Ok(count)
}

/// One more, where the paragraph is an enum.
fn with_enum(count: usize, paragraph: &Paragraph) -> Result<usize, AllocError>
    ensures { IfOk result (λ sum. sum ≡ count + length (asks.enum_in 0 paragraph.now)) }
{
    match paragraph {
        Paragraph::Enum(_) => {
            let sum = count.checked_add(1).ok_or(AllocError)?;
            Ok(sum)
        }
        _ => Ok(count),
    }
}

/// Whether the walk from the root meets all instances in their order, or ends before that of the module of the integers and
/// those that this leads to.
fn are_walked(
    alloc: Global,
    instances: &[Instance],
    texts: &[Text],
    integers: Option<u32>,
) -> Result<bool, AllocError>
    ensures { IfOk result (λ is. is ≡ true → AreWalked instances.now texts.now integers) }
{
    let mut walk = Walk {
        met: 0,
        passed: Vec::new(alloc),
    };
    if !begin(alloc, instances, texts, "", &mut walk)? {
        return Ok(false);
    }
    if walk.met == instances.len() {
        return Ok(has_integers(instances, integers));
    }
    match integers {
        Some(text) => {
            let is = are_behind(alloc, instances, texts, text, walk)?;
            Ok(is)
        }
        None => Ok(false),
    }
}

/// Whether there is an instance of the module of the integers, where that has a text.
fn has_integers(instances: &[Instance], integers: Option<u32>) -> bool
    ensures { result ≡ true → (text : ℕ) → integers ≡ Some text → HasPlain instances.now text }
{
    match integers {
        Some(text) => has_plain(instances, text),
        None => true,
    }
}

/// Whether there is an instance of this text without arguments.
fn has_plain(instances: &[Instance], text: u32) -> bool
    ensures { result ≡ true → HasPlain instances.now text }
{
    for instance in instances {
        if is_plain(instance, text) {
            return true;
        }
    }
    false
}

/// Whether the walk goes on with an instance of the module of the integers, and meets all others behind it.
fn are_behind(
    alloc: Global,
    instances: &[Instance],
    texts: &[Text],
    text: u32,
    walk: Walk,
) -> Result<bool, AllocError>
    requires { Begins instances.now texts.now 0 [] [] walk.met walk.passed.items }
    ensures { IfOk result (λ is. is ≡ true → AreWalked instances.now texts.now (Some text)) }
{
    let mut walk = walk;
    match instance_at(instances, walk.met) {
        None => return Ok(false),
        Some(instance) => {
            if !is_plain(instance, text) {
                return Ok(false);
            }
        }
    }
    walk.passed.push(0)?;
    if !begin(alloc, instances, texts, "integer", &mut walk)? {
        return Ok(false);
    }
    if walk.met != instances.len() {
        return Ok(false);
    }
    Ok(true)
}

/// Whether a walk from the next instance, which is met by this way, meets others in their order.
fn begin(
    alloc: Global,
    instances: &[Instance],
    texts: &[Text],
    way: &str,
    walk: &mut Walk,
) -> Result<bool, AllocError>
    ensures { IfOk result (λ is. is ≡ true →
        Begins instances.now texts.now walk.old.met way.now walk.old.passed.items walk.new.met
        walk.new.passed.items) }
{
    let number = walk.met;
    if number >= instances.len() {
        return Ok(false);
    }
    if !is_labelled(alloc, instances, number, way)? {
        return Ok(false);
    }
    walk.met += 1;
    let is = follow(alloc, instances, texts, number, way, walk)?;
    Ok(is)
}

/// Whether the walk over the opens of the instance of this number, which was met by this way, meets others in their order.
fn follow(
    alloc: Global,
    instances: &[Instance],
    texts: &[Text],
    number: usize,
    way: &str,
    walk: &mut Walk,
) -> Result<bool, AllocError>
    requires { walk.old.met ≤ length instances.now }
    ensures within { walk.new.met ≤ length instances.now }
    ensures grows { walk.old.met ≤ walk.new.met }
    ensures walks { IfOk result (λ is. is ≡ true →
        Walks instances.now texts.now number way.now 0 walk.old.met walk.old.passed.items
        walk.new.met walk.new.passed.items) }
{
    let Some(count) = open_count(instances, texts, number)? else {
        return Ok(false);
    };
    for place in 0..count {
        let Some(next) = next_of(alloc, instances, texts, number, way, place, count, walk)? else {
            return Ok(false);
        };
        if !next.is_new {
            continue;
        }
        walk.met += 1;
        let is = follow(alloc, instances, texts, next.number, next.way.text(), walk)?;
        if !is {
            return Ok(false);
        }
        walk.passed.push(next.number)?;
    }
    Ok(true)
}

/// How many opens of the instance of this number are written or implied by enums.
fn open_count(
    instances: &[Instance],
    texts: &[Text],
    number: usize,
) -> Result<Option<usize>, AllocError>
    ensures { IfOk result (λ found. IfSome found (HasOpens instances.now texts.now number)) }
{
    match instances.get(number) {
        None => Ok(None),
        Some(instance) => match texts.get(instance.text as usize) {
            None => Ok(None),
            Some(text) => {
                let count = opening_count(&text.tree)?;
                Ok(Some(count))
            }
        },
    }
}

/// Where the open of this number leads, if that is one whose opens were all followed, or the next one with the right label.
fn next_of(
    alloc: Global,
    instances: &[Instance],
    texts: &[Text],
    number: usize,
    way: &str,
    place: usize,
    count: usize,
    walk: &Walk,
) -> Result<Option<Next>, AllocError>
    requires counted { HasOpens instances.now texts.now number count }
    requires within { place < count }
    ensures { IfOk result (λ found. IfSome found (λ next. IsNext instances.now texts.now
        number way.now place walk.now.met walk.now.passed.items next.number next.is_new
        next.way)) }
{
    match open_at(instances, texts, number, place, count) {
        None => Ok(None),
        Some(opened) => {
            let there = longer_way(alloc, way, opened.alias.text())?;
            let next = checked(alloc, instances, opened.instance as usize, there, walk)?;
            Ok(next)
        }
    }
}

/// The open of this number, of so many that are written or implied by enums.
fn open_at<'a>(
    instances: &'a [Instance],
    texts: &[Text],
    number: usize,
    place: usize,
    count: usize,
) -> Option<&'a Opened>
    requires counted { HasOpens instances.now texts.now number count }
    requires within { place < count }
    ensures { IfSome result (λ opened. (hidden : Bool) ×
        IsOpen instances.now texts.now number place opened.now hidden) }
{
    // for the proof: only the clauses name these
    let _ = texts;
    let _ = count;
    match instance_at(instances, number) {
        None => None,
        Some(instance) => own_open(instance, place),
    }
}

/// The open of this number of an instance.
fn own_open<'a>(instance: &'a Instance, place: usize) -> Option<&'a Opened>
    ensures { IfSome result (λ opened. slice_get instance.now.opens place ≡ Some opened.now) }
{
    instance.opens.as_slice().get(place)
}

/// A way with an alias after it.
fn longer_way(alloc: Global, way: &str, alias: &str) -> Result<Name, AllocError>
    ensures { IfOk result (λ longer. longer ≡ slashed_to way.now alias.now) }
{
    if way.is_empty() {
        let longer = Name::copy(alloc, alias)?;
        return Ok(longer);
    }
    let mut text = String::from_str(alloc, way)?;
    text.push_str("/")?;
    text.push_str(alias)?;
    let longer = Name::copy(alloc, text.as_str())?;
    Ok(longer)
}

/// The instance of this number, to which this way leads, if its opens were all followed, or if it comes next and has the label
/// of that way.
fn checked(
    alloc: Global,
    instances: &[Instance],
    target: usize,
    way: Name,
    walk: &Walk,
) -> Result<Option<Next>, AllocError>
    ensures { IfOk result (λ found. IfSome found (λ next. IsTarget instances.now way
        walk.now.met walk.now.passed.items target next.number next.is_new next.way)) }
{
    if is_among(walk.passed.as_slice(), target) {
        return Ok(Some(Next {
            number: target,
            is_new: false,
            way,
        }));
    }
    if target != walk.met {
        return Ok(None);
    }
    if target >= instances.len() {
        return Ok(None);
    }
    if !is_labelled(alloc, instances, target, way.text())? {
        return Ok(None);
    }
    Ok(Some(Next {
        number: target,
        is_new: true,
        way,
    }))
}

/// Whether a number is among others.
fn is_among(numbers: &[usize], number: usize) -> bool
    ensures { result ≡ true → IsAmong numbers.now number }
{
    for place in 0..numbers.len() {
        if numbers[place] == number {
            return true;
        }
    }
    false
}

/// Whether the instance of this number has the label of this way.
fn is_labelled(
    alloc: Global,
    instances: &[Instance],
    number: usize,
    way: &str,
) -> Result<bool, AllocError>
    ensures { IfOk result (λ is. is ≡ true → IsLabelled instances.now number way.now) }
{
    match instances.get(number) {
        None => Ok(false),
        Some(instance) => {
            let is = has_label(alloc, instances, number, way, instance.label.text())?;
            Ok(is)
        }
    }
}

/// Whether this is the label of a way behind the labels of the instances before this number: the way itself, or it with `$`
/// and the least number from 2 on that makes it new.
fn has_label(
    alloc: Global,
    instances: &[Instance],
    number: usize,
    way: &str,
    label: &str,
) -> Result<bool, AllocError>
    requires { number ≤ length instances.now }
    ensures { IfOk result (λ is. is ≡ true →
        IsLabel (labels_before instances.now number) way.now label.now) }
{
    match labelled_before(instances, number, way) {
        None => Ok(is_same(way, label)),
        Some(other) => {
            let is = has_counted(alloc, instances, number, other, way, label)?;
            Ok(is)
        }
    }
}

/// The same of a way that is the label of an earlier instance.
fn has_counted(
    alloc: Global,
    instances: &[Instance],
    number: usize,
    other: usize,
    way: &str,
    label: &str,
) -> Result<bool, AllocError>
    requires within { number ≤ length instances.now }
    requires taken { slice_get (labels_before instances.now number) other ≡ Some way.now }
    ensures { IfOk result (λ is. is ≡ true →
        IsLabel (labels_before instances.now number) way.now label.now) }
{
    let _ = other;
    for count in 2..u64::MAX {
        let next = counted_label(alloc, way, count)?;
        match labelled_before(instances, number, next.text()) {
            None => return Ok(is_same(next.text(), label)),
            Some(_) => {}
        }
    }
    Ok(false)
}

/// A way with `$` and a number after it.
fn counted_label(alloc: Global, way: &str, number: u64) -> Result<Name, AllocError>
    ensures { IfOk result (λ l. l ≡ way.now ++ 36 ∷ decimal number) }
{
    let mut text = String::from_str(alloc, way)?;
    text.push_str("$")?;
    let mut buffer = Buffer::new();
    text.push_str(buffer.format(number))?;
    let label = Name::copy(alloc, text.as_str())?;
    Ok(label)
}

/// The first of so many instances that has this label.
fn labelled_before(instances: &[Instance], number: usize, label: &str) -> Option<usize>
    requires { number ≤ length instances.now }
    ensures some { IfSome result (λ k.
        slice_get (labels_before instances.now number) k ≡ Some label.now) }
    ensures none { IfNone result
        ((k : ℕ) → slice_get (labels_before instances.now number) k ≢ Some label.now) }
{
    for earlier in 0..number {
        if is_same(instances[earlier].label.text(), label) {
            return Some(earlier);
        }
    }
    None
}

/// Whether two texts are the same.
fn is_same(a: &str, b: &str) -> bool
    ensures yes { result ≡ true → a.now ≡ b.now }
    ensures no { result ≡ false → a.now ≢ b.now }
{
    a == b
}
