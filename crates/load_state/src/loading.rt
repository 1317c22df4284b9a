//! What has been loaded so far: answers for names, texts, instances and their opens.

ghost use Rattle.std.specs.Prelude.{◌≡◌, ◌++◌, ℕ, List, [], ◌∷◌, map, Contains, OnOk, IfOk, IfSome, IfNone, MatchOption, slice_get, None, Some};
ghost use Rattle.std.specs.Bool.{Decides};
ghost use Rattle.std.specs.HashMap.{get_by_text};
ghost use Rattle.std.specs.Map.{update};
ghost use Rattle.std.specs.Str.{bytes_eq};
ghost use Rattle.load_state.specs.Sets.{IsNoted, IsAliased, reach_or};
ghost use Rattle.load_state.specs.Keys.{pair_of, Lacks, IsAt, answer_in, is_followed, is_open_from};
ghost use Rattle.load_state.specs.Loadings.{instance_text};

use crate::reach::{InstanceSet, Reach};
use crate::source::Source;
use base_lists::Items;
use base_types::Name;
use std::alloc::{AllocError, Global};
use std::collections::HashMap;
use syntax_tree::{ArgumentList, Opened, OpenedList, SigRef};

/// A name that the libraries were asked for, and the number of its text, where one of them has it.
#[derive(Drop)]
pub struct Asked {
    pub name: Name,
    pub text: Option<u32>,
}

/// An instance: a text with arguments.
#[derive(Drop)]
pub struct Key {
    /// The number of its text.
    pub text: u32,
    pub arguments: ArgumentList,
    /// The aliases by which it is first reached from the root, with a slash between two of them.
    pub path: Name,
    pub label: Name,
}

/// The opens of an instance, and where they lead.
#[derive(Drop)]
pub struct Doors {
    /// The opens in their order.
    pub opens: OpenedList,
    /// The instances to which the opens with an alias lead.
    pub aliases: HashMap<String, Reach>,
    /// The instances that are reached by opens, one after another.
    pub reach: Reach,
}

/// An instance whose opens are all followed.
#[derive(Drop)]
pub struct Finished {
    /// Its number.
    pub instance: u32,
    pub doors: Doors,
}

/// What has been loaded so far. Everything in it only grows.
#[derive(Drop)]
pub struct Loading {
    /// The names that the libraries were asked for. They are at most four for each text.
    pub asked: Vec<Asked>,
    /// The texts, in the order of loading.
    pub sources: Vec<Source>,
    /// The instances, in the order of loading.
    pub keys: Vec<Key>,
    /// The instances other than the root whose opens are all followed.
    pub finished: Vec<Finished>,
}

impl Doors {
    /// No open.
    pub fn new(alloc: Global) -> Doors
        ensures opens { result.opens ≡ [] }
        ensures reach { result.reach ≡ reach_or None }
        ensures aliases { (alias : List ℕ) → get_by_text result.aliases alias ≡ None }
    {
        Doors {
            opens: Items::new(alloc),
            aliases: HashMap::new(alloc),
            reach: Reach::EMPTY,
        }
    }

    /// Adds an open that leads to an instance, beyond which the opens that aren't private lead to others.
    pub fn add(
        &mut self,
        alloc: Global,
        opened: Opened,
        beyond: InstanceSet,
        is_private: bool,
    ) -> Result<(), AllocError>
        ensures { OnOk result (self.new.opens ≡ self.old.opens ++ opened ∷ []) }
    {
        self.note(alloc, &opened, beyond, is_private)?;
        self.opens.push(opened)?;
        Ok(())
    }

    /// Notes where an open leads, and isn't among the opens after.
    pub fn note(
        &mut self,
        alloc: Global,
        opened: &Opened,
        beyond: InstanceSet,
        is_private: bool,
    ) -> Result<(), AllocError>
        ensures opens { self.new.opens ≡ self.old.opens }
        ensures noted { OnOk result (IsNoted opened.now.alias opened.now.instance beyond is_private
            self.old.reach self.new.reach (get_by_text self.old.aliases)
            (get_by_text self.new.aliases)) }
    {
        note_alias(alloc, &mut self.aliases, opened, is_private)?;
        self.reach.add(beyond.adding(opened.instance), is_private);
        Ok(())
    }
}

impl Loading {
    /// Nothing.
    pub fn new(alloc: Global) -> Loading
        ensures asked { result.asked.items ≡ [] }
        ensures sources { result.sources.items ≡ [] }
        ensures keys { result.keys.items ≡ [] }
        ensures finished { result.finished.items ≡ [] }
    {
        Loading {
            asked: Vec::new(alloc),
            sources: Vec::new(alloc),
            keys: Vec::new(alloc),
            finished: Vec::new(alloc),
        }
    }
}

/// Notes to which instance an open with an alias leads.
fn note_alias(
    alloc: Global,
    aliases: &mut HashMap<String, Reach>,
    opened: &Opened,
    is_private: bool,
) -> Result<(), AllocError>
    ensures { OnOk result (IsAliased opened.now.alias opened.now.instance is_private
        (get_by_text aliases.old) (get_by_text aliases.new)) }
{
    let mut reach = aliased(aliases, opened.alias.text());
    reach.add(InstanceSet::EMPTY.adding(opened.instance), is_private);
    put_alias(alloc, aliases, opened.alias.text(), reach)?;
    Ok(())
}

/// The instances to which the opens with an alias lead.
pub fn aliased(aliases: &HashMap<String, Reach>, alias: &str) -> Reach
    ensures { result ≡ reach_or (get_by_text aliases.now alias.now) }
{
    match aliases.get(alias) {
        Some(reach) => *reach,
        None => Reach::EMPTY,
    }
}

/// Puts the instances of an alias.
fn put_alias(
    alloc: Global,
    aliases: &mut HashMap<String, Reach>,
    alias: &str,
    reach: Reach,
) -> Result<(), AllocError>
    ensures { OnOk result ((other : List ℕ) → get_by_text aliases.new other
        ≡ update bytes_eq (get_by_text aliases.old) alias.now (Some reach) other) }
{
    let key = String::from_str(alloc, alias)?;
    aliases.insert(key, reach)?;
    Ok(())
}

/// The answer for a name, where the libraries were asked for it.
pub fn answer_to(asked: &[Asked], name: &str) -> Option<Option<u32>>
    ensures { result ≡ answer_in asked.now name.now }
{
    for answer in asked {
        if answer.name.text() == name {
            return Some(answer.text);
        }
    }
    None
}

/// Whether the opens of the instance are all followed.
pub fn is_finished(finished: &[Finished], instance: usize) -> bool
    ensures { result ≡ is_followed finished.now instance }
{
    finished.iter().any(|f| f.instance as usize == instance)
}

/// Whether some instance of the text has opens that aren't all followed: then it stands on the chain of opens from the root.
pub fn is_being_opened(keys: &[Key], finished: &[Finished], text: u32) -> bool
    ensures { result ≡ is_open_from finished.now text 0 keys.now }
{
    for (instance, key) in keys.iter().enumerate() {
        if key.text == text && !is_finished(finished, instance) {
            return true;
        }
    }
    false
}

/// The instance with this text and these arguments.
pub fn instance_with(keys: &[Key], text: u32, arguments: &ArgumentList) -> Option<usize>
    ensures { MatchOption result (Lacks keys.now (text, arguments.now))
        (λ n. IsAt keys.now n (text, arguments.now)) }
{
    for instance in 0..keys.len() {
        if has_pair(&keys[instance], text, arguments.as_slice()) {
            return Some(instance);
        }
    }
    None
}

/// Whether an instance has this text and these arguments.
fn has_pair(key: &Key, text: u32, arguments: &[Option<SigRef>]) -> bool
    ensures { Decides result (pair_of key.now ≡ (text, arguments.now)) }
{
    key.text == text && are_same(key.arguments.as_slice(), arguments)
}

/// Whether two lists of arguments are equal.
fn are_same(a: &[Option<SigRef>], b: &[Option<SigRef>]) -> bool
    ensures { Decides result (a.now ≡ b.now) }
{
    a == b
}

/// The item of this place.
pub fn item_at<T>(items: &[T], place: usize) -> Option<&T>
    ensures some { IfSome result (λ item. slice_get items.now place ≡ Some item.now) }
    ensures none { IfNone result (slice_get items.now place ≡ None) }
{
    match items.get(place) {
        Some(item) => Some(item),
        None => None,
    }
}

/// The opens of this instance, where they are all followed.
pub fn finished_at(finished: &[Finished], instance: usize) -> Option<&Finished>
    ensures { IfSome result (λ f. Contains finished.now f.now × (f.now.instance ≡ instance)) }
{
    for f in finished {
        if f.instance as usize == instance {
            return Some(f);
        }
    }
    None
}

/// The instances that are reached from this one by opens that aren't private.
pub fn public_reach(finished: &[Finished], instance: usize) -> InstanceSet {
    match finished_at(finished, instance) {
        Some(f) => f.doors.reach.public,
        None => InstanceSet::EMPTY,
    }
}

/// The numbers of the texts of instances.
pub fn numbers_of(alloc: Global, keys: &[Key]) -> Result<Vec<u32>, AllocError>
    ensures { IfOk result (λ numbers. numbers.items ≡ map (λ k. k.text) keys.now) }
{
    let mut numbers = Vec::new(alloc);
    for key in keys {
        numbers.push(key.text)?;
    }
    Ok(numbers)
}

/// The instance of this number.
pub fn key_at(keys: &[Key], instance: usize) -> Result<&Key, AllocError>
    ensures { IfOk result (λ key. slice_get keys.now instance ≡ Some key.now) }
{
    keys.get(instance).ok_or(AllocError)
}

/// The text of the instance of this number.
pub fn source_of(loading: &Loading, instance: usize) -> Result<&Source, AllocError>
    ensures { IfOk result (λ source. instance_text loading.now instance ≡ Some source.now.text) }
{
    let key = key_at(&loading.keys, instance)?;
    loading.sources.get(key.text as usize).ok_or(AllocError)
}
