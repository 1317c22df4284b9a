//! A model is put together from its texts, its instances and their opens.

ghost use Rattle.std.specs.Prelude.{◌≡◌, IfOk, map};
ghost use Rattle.syntax_tree.specs.Instances.{sig_count};
ghost use Rattle.load_state.specs.Keys.{pair_of, pairs_of, texts_of};
ghost use Rattle.load_state.specs.Leads.{IsAnswered, AllLed};
ghost use Rattle.load_state.specs.Named.{AllNamed};
ghost use Rattle.load_state.specs.Weights.{Weighs};

use crate::check::are_closed;
use crate::count::{names_of, plus, sig_count, weight};
use crate::leads::all_led;
use crate::loading::{Asked, Finished, Key, Loading};
use crate::named::all_named;
use crate::refuse::small;
use crate::source::Source;
use base_lists::Items;
use base_types::Name;
use std::alloc::{AllocError, Global};
use syntax_tree::{Instance, InstanceList, Loaded, Opened, OpenedList, TextList};

/// The texts of a model, with what is counted of each.
#[derive(Drop)]
struct Counted {
    texts: TextList,
    /// How many sigs each text declares.
    sigs: Vec<usize>,
    /// At least as many as each text has paragraphs, declared names and literals.
    weights: Vec<usize>,
}

/// The model: each instance with its opens, the implicit one of the integers last. Where an open did not lead to the text
/// that was found for it, the answer would be want of memory.
#[tactic(auto, using(crate::proofs::Heavy::counted_at_most))]
pub fn finished_model(
    alloc: Global,
    loading: Loading,
    integer: Option<usize>,
    root: &str,
) -> Result<Loaded, AllocError>
    ensures texts { IfOk result (λ m. m.texts ≡ map (λ s. s.text) loading.sources.items) }
    ensures led { IfOk result (λ m. AllLed (IsAnswered loading.asked.items root.now) m.instances
        m.texts) }
    ensures named { IfOk result (λ m. AllNamed m.instances m.texts) }
    ensures instances { IfOk result (λ m. pairs_of m.instances ≡ map pair_of loading.keys.items) }
{
    let Loading {
        sources,
        keys,
        finished,
        asked,
    } = loading;
    let instances = led_instances(alloc, &asked, root, &sources, keys, finished, integer)?;
    let Counted {
        texts,
        sigs,
        weights,
    } = count_all(alloc, sources)?;
    let total = weight(&weights, instances.as_slice())?;
    if total >= u32::MAX as usize || !are_closed(texts.as_slice(), &sigs, instances.as_slice()) {
        return Err(AllocError);
    }
    Ok(Loaded { texts, instances })
}

/// Counts what the texts have.
#[tactic(auto, using(crate::proofs::Heavy::Weighs_push))]
fn count_all(alloc: Global, sources: Vec<Source>) -> Result<Counted, AllocError>
    ensures sigs { IfOk result (λ c. c.sigs.items ≡ map (λ t. sig_count t.tree) c.texts) }
    ensures weights { IfOk result (λ c. Weighs c.texts c.weights.items) }
    ensures texts { IfOk result (λ c. c.texts ≡ map (λ s. s.text) sources.items) }
{
    let mut texts = Items::new(alloc);
    let mut sigs = Vec::new(alloc);
    let mut weights = Vec::new(alloc);
    for source in sources {
        let Source {
            text,
            table: _,
            tokens,
        } = source;
        sigs.push(sig_count(&text.tree)?)?;
        weights.push(plus(names_of(&text.tree)?, tokens)?)?;
        texts.push(text)?;
    }
    Ok(Counted {
        texts,
        sigs,
        weights,
    })
}

/// The instances with their opens, which lead to the texts that were answered.
fn led_instances(
    alloc: Global,
    asked: &Vec<Asked>,
    root: &str,
    sources: &Vec<Source>,
    keys: Vec<Key>,
    finished: Vec<Finished>,
    integer: Option<usize>,
) -> Result<InstanceList, AllocError>
    ensures pairs { IfOk result (λ instances. pairs_of instances ≡ map pair_of keys.items) }
    ensures led { IfOk result (λ instances. AllLed (IsAnswered asked.now.items root.now) instances
        (texts_of sources.now.items)) }
    ensures named { IfOk result (λ instances. AllNamed instances (texts_of sources.now.items)) }
{
    let order = order_of(alloc, &finished)?;
    let instances = instances_of(alloc, keys, finished, integer)?;
    let led = all_led(alloc, asked, root, sources, instances.as_slice())?;
    if !led {
        return Err(AllocError);
    }
    let named = all_named(alloc, sources, instances.as_slice(), &order)?;
    if !named {
        return Err(AllocError);
    }
    Ok(instances)
}

/// The instances in the order in which their opens were all followed.
fn order_of(alloc: Global, finished: &[Finished]) -> Result<Vec<u32>, AllocError> {
    let mut order = Vec::new(alloc);
    for f in finished {
        order.push(f.instance)?;
    }
    Ok(order)
}

/// The text of the instance of this number.
fn text_of(keys: &[Key], instance: usize) -> Option<u32> {
    match keys.get(instance) {
        Some(key) => Some(key.text),
        None => None,
    }
}

/// The instances with their opens.
fn instances_of(
    alloc: Global,
    keys: Vec<Key>,
    mut finished: Vec<Finished>,
    integer: Option<usize>,
) -> Result<InstanceList, AllocError>
    ensures { IfOk result (λ instances. pairs_of instances ≡ map pair_of keys.items) }
{
    let integer_text = match integer {
        Some(instance) => text_of(&keys, instance),
        None => None,
    };
    let mut instances = Items::new(alloc);
    for key in keys {
        let implicit = if integer_text == Some(key.text) {
            None
        } else {
            integer
        };
        let opens = all_opens(alloc, &mut finished, instances.len(), implicit)?;
        instances.push(Instance {
            text: key.text,
            arguments: key.arguments,
            label: key.label,
            opens,
        })?;
    }
    Ok(instances)
}

/// The opens of an instance, the implicit one of the integers last, where there is one.
fn all_opens(
    alloc: Global,
    finished: &mut Vec<Finished>,
    instance: usize,
    integer: Option<usize>,
) -> Result<OpenedList, AllocError> {
    let mut opens = opens_of(finished, instance)?;
    if let Some(integer) = integer {
        opens.push(Opened {
            alias: Name::copy(alloc, "integer")?,
            instance: small(integer)?,
        })?;
    }
    Ok(opens)
}

/// Takes the opens of an instance out of the list.
fn opens_of(finished: &mut Vec<Finished>, instance: usize) -> Result<OpenedList, AllocError> {
    for place in 0..finished.len() {
        if finished[place].instance as usize == instance {
            return Ok(finished.swap_remove(place).doors.opens);
        }
    }
    Err(AllocError)
}
