//! Loads a model: a file, or a text with a name, and all that it opens.
#![tactic(auto, using(crate::proofs::Placed::refuses_memory, crate::proofs::Placed::refuses_unread, crate::proofs::Placed::refuses_later, crate::proofs::Placed::refuses_open, crate::proofs::Placed::refuses_start, crate::proofs::Placed::refuses_same, crate::proofs::Placed::refuses_path, load_state::proofs::Faults::quiet_causes, load_state::proofs::Faults::later_causes, load_state::proofs::Faults::memory_is_quiet, load_state::proofs::Faults::later_fault, load_state::proofs::Faults::quiet_fault, load_state::proofs::Faults::memory_fault, load_state::proofs::Faults::refusal_is_quiet, crate::proofs::Known::keeps_itself, crate::proofs::Known::keeps_same, crate::proofs::Known::keeps_on, crate::proofs::Known::keeps_path, crate::proofs::Known::stays_itself, crate::proofs::Known::stays_same, crate::proofs::Known::stays_on, crate::proofs::Known::stays_plain))]

ghost use Rattle.std.specs.Prelude.{◌≡◌, ◌≤◌, ◌++◌, ◌∷◌, [], IfOk, IfErr, OnOk, length, map};
ghost use Rattle.syntax_tree.specs.Instances.{literals_of};
ghost use Rattle.load_state.specs.Causes.{Causes};
ghost use Rattle.load_state.specs.Keys.{pair_of, pairs_of, AreDistinct, Lacks};
ghost use Rattle.load_state.specs.Named.{AllNamed};
ghost use Rattle.load_modules.specs.Led.{OpensTold, OpensFrom};
ghost use Rattle.load_modules.specs.Numbered.{NumberedTold, NumberedFrom};
ghost use Rattle.load_modules.specs.Reached.{AreReached};
ghost use Rattle.load_modules.specs.Refused.{Refuses, RefusesTree, RefusesGiven, RefusesTold};
ghost use Rattle.load_modules.specs.Told.{Keeps, LoadsTold, LoadsGiven, LoadsTree, Follows, StaysDistinct};

use crate::order::order_all;
use crate::reach::reach_all;
use crate::source::with_tree;
use crate::walk::{fetch_text, open_all, take_in, text_of_path};
use base_lists::Items;
use base_types::limits::MODULE_INSTANCES;
use base_types::{Libraries, Name, Rule};
use load_state::{
    Key, LoadFault, Loading, finish, finished_model, instance_with, new_label, note,
    parameter_count, refused, start_of,
};
use std::alloc::{AllocError, Global};
use syntax_tree::{Loaded, Module};

/// The instances that count.
const LIMIT: usize = MODULE_INSTANCES as usize;

/// Loads the model of a file: its text, and those of all that it opens.
///
/// A path `p` is sought in the folder of the root's file first, then as it stands, each time with `.als` after it, and a name
/// has the text of the first library that holds it. `util/integer` is opened by every other module, where a library has it. A
/// model is refused by the first rule of loading that its texts break in the order of the walk: each open is followed to its
/// end before the next one, those that enums imply after the written ones.
#[tactic(auto, using(crate::proofs::Ends::refuses_told, crate::proofs::Ends::told_absent, crate::proofs::Ends::told_unread, crate::proofs::Led::opens_same, crate::proofs::Told::numbered_same, load_state::proofs::Faults::root_is_tried, load_state::proofs::Faults::quiet_fault, load_state::proofs::Faults::refusal_is_quiet, load_state::proofs::Faults::later_causes, crate::proofs::Known::loads_told))]
pub fn load<L: Libraries>(alloc: Global, libraries: &mut L, root: &str) -> Result<Loaded, LoadFault>
    ensures keeps { L.told libraries.new ≡ L.told libraries.old }
    ensures cause { Causes root.now (L.counts libraries.old) (L.counts libraries.new) result }
    ensures texts { IfOk result (λ m. LoadsTold (L.told libraries.old) root.now m.texts) }
    ensures opens { IfOk result (λ m. OpensTold (L.told libraries.old) root.now m.texts
        m.instances) }
    ensures refused { IfErr result (RefusesTold (L.told libraries.old) root.now) }
    ensures named { IfOk result (λ m. AllNamed m.instances m.texts) }
    ensures distinct { IfOk result (λ m. AreDistinct (pairs_of m.instances)) }
    ensures reached { IfOk result (λ m. AreReached m.instances) }
    ensures numbered { IfOk result (λ m. NumberedTold (L.told libraries.old) root.now m.texts
        m.instances) }
{
    match fetch_text(alloc, libraries, root, root)? {
        Some(bytes) => load_text(alloc, libraries, root, &bytes),
        None => Err(refused(alloc, Rule::NoModule, start_of(0), root)),
    }
}

/// The same for a root whose text is given. No library is asked for its name.
#[tactic(auto, using(load_state::proofs::Faults::quiet_causes, load_state::proofs::Faults::later_causes, load_state::proofs::Faults::quiet_fault, load_state::proofs::Faults::memory_fault, crate::proofs::Ends::given_memory, crate::proofs::Ends::breaks_given, crate::proofs::Ends::refuses_given, crate::proofs::Led::opens_given, crate::proofs::Told::numbered_given, crate::proofs::Known::loads_given))]
pub fn load_text<L: Libraries>(
    alloc: Global,
    libraries: &mut L,
    root: &str,
    text: &[u8],
) -> Result<Loaded, LoadFault>
    ensures keeps { L.told libraries.new ≡ L.told libraries.old }
    ensures cause { Causes root.now (L.counts libraries.old) (L.counts libraries.new) result }
    ensures texts { IfOk result (λ m. LoadsGiven (L.told libraries.old) root.now text.now m.texts) }
    ensures opens { IfOk result (λ m. OpensTold (L.told libraries.old) root.now m.texts
        m.instances) }
    ensures refused { IfErr result (RefusesGiven (L.told libraries.old) root.now text.now) }
    ensures named { IfOk result (λ m. AllNamed m.instances m.texts) }
    ensures distinct { IfOk result (λ m. AreDistinct (pairs_of m.instances)) }
    ensures reached { IfOk result (λ m. AreReached m.instances) }
    ensures numbered { IfOk result (λ m. NumberedTold (L.told libraries.old) root.now m.texts
        m.instances) }
{
    let mut loading = Loading::new(alloc);
    let number = take_in(alloc, &mut loading.sources, root, text)?;
    note(alloc, &mut loading.asked, root, Some(number))?;
    follow(alloc, libraries, loading, root)
}

/// The same for a root that was read: its tree, and how many tokens spell it.
#[tactic(auto, using(load_state::proofs::Faults::quiet_causes, load_state::proofs::Faults::later_causes, load_state::proofs::Faults::quiet_fault, load_state::proofs::Faults::memory_fault, crate::proofs::Ends::tree_memory, crate::proofs::Ends::refuses_tree, crate::proofs::Led::opens_tree, crate::proofs::Told::numbered_tree, crate::proofs::Known::loads_tree))]
pub fn load_tree<L: Libraries>(
    alloc: Global,
    libraries: &mut L,
    root: &str,
    tree: Module,
    tokens: usize,
) -> Result<Loaded, LoadFault>
    requires { length (literals_of tree) ≤ tokens }
    ensures keeps { L.told libraries.new ≡ L.told libraries.old }
    ensures cause { Causes root.now (L.counts libraries.old) (L.counts libraries.new) result }
    ensures texts { IfOk result (λ m. LoadsTree (L.told libraries.old) root.now tree m.texts) }
    ensures opens { IfOk result (λ m. OpensTold (L.told libraries.old) root.now m.texts
        m.instances) }
    ensures refused { IfErr result (RefusesTree (L.told libraries.old) root.now tree) }
    ensures named { IfOk result (λ m. AllNamed m.instances m.texts) }
    ensures distinct { IfOk result (λ m. AreDistinct (pairs_of m.instances)) }
    ensures reached { IfOk result (λ m. AreReached m.instances) }
    ensures numbered { IfOk result (λ m. NumberedTold (L.told libraries.old) root.now m.texts
        m.instances) }
{
    let mut loading = Loading::new(alloc);
    loading.sources.push(with_tree(alloc, root, tree, tokens)?)?;
    note(alloc, &mut loading.asked, root, Some(0))?;
    follow(alloc, libraries, loading, root)
}

/// Loads what a root opens.
#[tactic(auto, using(load_state::proofs::Faults::quiet_causes, load_state::proofs::Faults::later_causes, load_state::proofs::Faults::later_fault, load_state::proofs::Faults::quiet_fault, load_state::proofs::Faults::memory_fault, load_state::proofs::Faults::refusal_is_quiet, load_state::proofs::Faults::memory_is_quiet, crate::proofs::Placed::refuses_memory, crate::proofs::Placed::refuses_later, crate::proofs::Placed::refuses_same, crate::proofs::Placed::refuses_further, crate::proofs::Placed::refuses_start, crate::proofs::Led::opens_from, crate::proofs::Known::keeps_same, crate::proofs::Known::keeps_on, crate::proofs::Known::follows, crate::proofs::Known::distinct_end, crate::proofs::Known::stays_on, crate::proofs::Known::stays_same))]
fn follow<L: Libraries>(
    alloc: Global,
    libraries: &mut L,
    mut loading: Loading,
    root: &str,
) -> Result<Loaded, LoadFault>
    requires { loading.keys.items ≡ [] }
    ensures keeps { L.told libraries.new ≡ L.told libraries.old }
    ensures cause { Causes root.now (L.counts libraries.old) (L.counts libraries.new) result }
    ensures texts { IfOk result (λ m. Follows (L.told libraries.old) root.now loading m.texts) }
    ensures opens { IfOk result (λ m. OpensFrom (L.told libraries.old) root.now loading m.texts
        m.instances) }
    ensures refused { IfErr result (Refuses (L.told libraries.old) root.now loading) }
    ensures named { IfOk result (λ m. AllNamed m.instances m.texts) }
    ensures distinct { IfOk result (λ m. AreDistinct (pairs_of m.instances)) }
    ensures reached { IfOk result (λ m. AreReached m.instances) }
    ensures numbered { IfOk result (λ m. NumberedFrom (L.told libraries.old) root.now loading
        m.texts m.instances) }
{
    if parameter_count(&loading.sources, 0) != 0 {
        return Err(refused(alloc, Rule::ModuleArguments, start_of(0), root));
    }
    let first = add_plain(alloc, &mut loading.keys, 0, "")?;
    let doors = open_all(alloc, libraries, &mut loading, root, first, LIMIT)?;
    let integer = open_integer(alloc, libraries, &mut loading, root)?;
    finish(&mut loading, first, doors)?;
    // (this was answered before, so no library is asked)
    let integers = text_of_path(alloc, libraries, &mut loading, root, "util/integer")?;
    let loaded = finished_model(alloc, loading, integer, root)?;
    reach_all(alloc, loaded.instances.as_slice())?;
    order_all(alloc, &loaded, integers)?;
    Ok(loaded)
}

/// Adds an instance without arguments that no written open reaches.
fn add_plain(
    alloc: Global,
    keys: &mut Vec<Key>,
    text: u32,
    alias: &str,
) -> Result<usize, AllocError>
    ensures pairs { OnOk result (map pair_of keys.new.items ≡ map pair_of keys.old.items
        ++ (text, []) ∷ []) }
{
    let instance = keys.len();
    let arguments = Items::new(alloc);
    let path = Name::copy(alloc, alias)?;
    let label = new_label(alloc, keys, alias)?;
    keys.push(Key {
        text,
        arguments,
        path,
        label,
    })?;
    Ok(instance)
}

/// Opens `util/integer` for all others, where a library has it. The answer is its instance.
fn open_integer<L: Libraries>(
    alloc: Global,
    libraries: &mut L,
    loading: &mut Loading,
    root: &str,
) -> Result<Option<usize>, LoadFault>
    ensures keeps { L.told libraries.new ≡ L.told libraries.old }
    ensures cause { Causes root.now (L.counts libraries.old) (L.counts libraries.new) result }
    ensures texts { OnOk result (Keeps (L.told libraries.old) root.now loading.old loading.new) }
    ensures refused { IfErr result (Refuses (L.told libraries.old) root.now loading.old) }
    ensures distinct { OnOk result (StaysDistinct loading.old.keys.items loading.new.keys.items) }
{
    let Some(text) = text_of_path(alloc, libraries, loading, root, "util/integer")? else {
        return Ok(None);
    };
    if parameter_count(&loading.sources, text) != 0 {
        return Err(refused(alloc, Rule::ModuleArguments, start_of(0), root));
    }
    if let Some(instance) = instance_with(&loading.keys, text, &Items::new(alloc)) {
        return Ok(Some(instance));
    }
    let instance = open_plain(alloc, libraries, loading, root, text)?;
    Ok(Some(instance))
}

/// Adds the instance of the integers, and follows its opens.
fn open_plain<L: Libraries>(
    alloc: Global,
    libraries: &mut L,
    loading: &mut Loading,
    root: &str,
    text: u32,
) -> Result<usize, LoadFault>
    requires { Lacks loading.old.keys.items (text, []) }
    ensures keeps { L.told libraries.new ≡ L.told libraries.old }
    ensures cause { Causes root.now (L.counts libraries.old) (L.counts libraries.new) result }
    ensures texts { OnOk result (Keeps (L.told libraries.old) root.now loading.old loading.new) }
    ensures refused { IfErr result (Refuses (L.told libraries.old) root.now loading.old) }
    ensures distinct { OnOk result (StaysDistinct loading.old.keys.items loading.new.keys.items) }
{
    let instance = add_plain(alloc, &mut loading.keys, text, "integer")?;
    let doors = open_all(alloc, libraries, loading, root, instance, LIMIT + 1)?;
    finish(loading, instance, doors)?;
    Ok(instance)
}
