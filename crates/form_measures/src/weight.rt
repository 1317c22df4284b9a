//! What a tree measures: a number of its own, and how deep the parameters of a body are used in it.
//! Counts end at the greatest 32-bit number.

ghost use Rattle.std.specs.Prelude.{◌≡◌, ◌<◌, max, length, get_or, slice_get, IfOk, IfSome, OnOk};
ghost use Rattle.core_tree.specs.Past.{Depths};
ghost use Rattle.form_measures.specs.Measured.{raised};
ghost use Rattle.form_measures.specs.Weights.{most_used, weight_at, arguments_at, weight_there};

use std::alloc::{AllocError, Global};

/// How deep a parameter is used.
#[derive(Clone, Copy, Debug, PartialEq, Eq, Drop)]
pub struct Use {
    pub parameter: u32,
    pub depth: u32,
}

/// What a tree measures.
#[derive(Drop)]
pub struct Weight {
    /// What it measures where parameters measure nothing.
    pub own: u32,
    /// How deep parameters are used.
    pub uses: Vec<Use>,
}

/// So many more.
pub(crate) fn raised(by: u32, count: u32) -> u32
    ensures { result ≡ raised by count }
{
    match by.checked_add(count) {
        Some(more) => more,
        None => u32::MAX,
    }
}

/// What a leaf measures.
pub fn nothing(alloc: Global) -> Weight
    ensures { (d : Depths) → weight_at d result ≡ 0 }
{
    Weight {
        own: 0,
        uses: Vec::new(alloc),
    }
}

/// What a parameter measures.
pub(crate) fn of_parameter(alloc: Global, parameter: u32) -> Result<Weight, AllocError>
    ensures { IfOk result (λ w. (d : Depths) → weight_at d w ≡ raised 0 (d parameter)) }
{
    let mut uses = Vec::new(alloc);
    uses.push(Use {
        parameter,
        depth: 0,
    })?;
    Ok(Weight { own: 0, uses })
}

/// Where a parameter stands among uses.
#[tactic(auto, using(std::proofs::lemmas::List::get_or_default))]
fn place_of(uses: &[Use], parameter: u32) -> Option<usize>
    ensures within { IfSome result (λ k. k < length uses.now) }
    ensures is { IfSome result (λ k. (u : Use) → (get_or uses.now k u).parameter ≡ parameter) }
{
    for place in 0..uses.len() {
        if uses[place].parameter == parameter {
            return Some(place);
        }
    }
    None
}

/// Adds a use of a parameter.
fn add_use(uses: &mut Vec<Use>, parameter: u32, depth: u32) -> Result<(), AllocError>
    ensures { OnOk result ((d : Depths) → most_used d uses.new.items
        ≡ max (most_used d uses.old.items) (raised depth (d parameter))) }
{
    match place_of(uses.as_slice(), parameter) {
        None => {
            uses.push(Use { parameter, depth })?;
            Ok(())
        }
        Some(place) => {
            let known = uses[place];
            uses[place] = Use {
                parameter,
                depth: known.depth.max(depth),
            };
            Ok(())
        }
    }
}

/// Adds uses, each so much deeper.
fn add_uses(uses: &mut Vec<Use>, by: u32, more: &[Use]) -> Result<(), AllocError>
    ensures { OnOk result ((d : Depths) → max (raised by 0) (most_used d uses.new.items)
        ≡ max (most_used d uses.old.items) (raised by (most_used d more.now))) }
{
    for used in more {
        add_use(uses, used.parameter, raised(by, used.depth))?;
    }
    Ok(())
}

/// The greater of what one tree measures and of what another does, so much deeper.
pub(crate) fn joined(first: Weight, by: u32, second: &Weight) -> Result<Weight, AllocError>
    ensures { IfOk result (λ w. (d : Depths) → weight_at d w
        ≡ max (weight_at d first) (raised by (weight_at d second.now))) }
{
    let deeper = raised(by, second.own);
    let Weight { own, mut uses } = first;
    add_uses(&mut uses, by, second.uses.as_slice())?;
    Ok(Weight {
        own: own.max(deeper),
        uses,
    })
}

/// What a body measures whose parameters measure what these arguments do.
pub(crate) fn called(
    alloc: Global,
    body: &Weight,
    arguments: &[Weight],
) -> Result<Weight, AllocError>
    ensures { IfOk result (λ w. (d : Depths) → weight_at d w
        ≡ weight_at (arguments_at d arguments.now) body.now) }
{
    let mut whole = Weight {
        own: body.own,
        uses: Vec::new(alloc),
    };
    let uses = body.uses.as_slice();
    for used in uses {
        whole = with_argument(whole, *used, arguments)?;
    }
    Ok(whole)
}

/// The greater of what a tree measures and of what an argument does at a use of its parameter.
fn with_argument(whole: Weight, used: Use, arguments: &[Weight]) -> Result<Weight, AllocError>
    ensures { IfOk result (λ w. (d : Depths) → weight_at d w ≡ max (weight_at d whole)
        (raised used.depth (weight_there d (slice_get arguments.now used.parameter)))) }
{
    match arguments.get(used.parameter as usize) {
        None => {
            let deeper = raised(used.depth, 0);
            let Weight { own, uses } = whole;
            Ok(Weight {
                own: own.max(deeper),
                uses,
            })
        }
        Some(argument) => {
            let both = joined(whole, used.depth, argument)?;
            Ok(both)
        }
    }
}
