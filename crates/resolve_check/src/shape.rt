//! What trees of a model may name, and which bodies they may call.

ghost use Rattle.std.specs.Prelude.{◌≡◌, slice_get, slice_index};
ghost use Rattle.resolve_check.specs.Fits as fits;

use crate::columns::{few, few_of, only};
use core_tree::ItemList;

/// What a call sees of a body.
#[derive(Drop)]
pub struct BodyShape {
    /// The columns of its parameters.
    pub parameters: ItemList<u32>,
    /// The columns of its result; a predicate has none.
    pub result: Option<u32>,
    /// Its call rank.
    pub rank: u32,
}

/// What trees of a model may name.
#[derive(Drop)]
pub struct Shape {
    /// How many sigs there are.
    pub sigs: usize,
    /// The columns of each field.
    pub fields: ItemList<u32>,
    /// A number for each field; a bound names only fields of lower numbers than its own field.
    pub order: ItemList<u32>,
    /// The bodies.
    pub bodies: ItemList<BodyShape>,
}

/// Which bodies a tree may call.
#[derive(Clone, Copy, Drop)]
pub enum Calls {
    /// Every body.
    Any,
    /// Those of a lower rank.
    Below(u32),
    /// Predicates alone.
    NoFunction,
}

/// What a tree may hold.
#[derive(Clone, Copy, Drop)]
pub struct Limits {
    /// The field whose bound it is: it may name fields below that one alone.
    pub below: Option<usize>,
    /// The bodies that it may call.
    pub calls: Calls,
    /// Whether the formulas in an expression are to be right too.
    pub look: bool,
}

/// The column of a sig, where it is there.
pub fn sig_columns(shape: &Shape, sig: u32) -> Option<u32>
    ensures { result ≡ fits.sig_columns shape.now sig }
{
    if (sig as usize) < shape.sigs {
        Some(1)
    } else {
        None
    }
}

/// The number of a field in the order.
fn place_in_order(shape: &Shape, field: usize) -> u32
    ensures { result ≡ slice_index shape.now.order field }
{
    if field < shape.order.len() {
        *shape.order.get(field)
    } else {
        0
    }
}

/// Whether a tree may name a field.
fn is_allowed_field(shape: &Shape, below: Option<usize>, field: usize) -> bool
    ensures { result ≡ fits.is_allowed_field shape.now below field }
{
    match below {
        None => true,
        Some(bound) => place_in_order(shape, field) < place_in_order(shape, bound),
    }
}

/// The columns of a field that a tree may name.
pub fn field_columns(shape: &Shape, limits: Limits, field: u32) -> Option<u32>
    ensures { result ≡ fits.field_columns shape.now limits field }
{
    let place = field as usize;
    if place >= shape.fields.len() {
        return None;
    }
    if !is_allowed_field(shape, limits.below, place) {
        return None;
    }
    few(*shape.fields.get(place) as u64)
}

fn is_allowed_body(calls: Calls, body: &BodyShape) -> bool
    ensures { result ≡ fits.is_allowed_body calls body.now }
{
    match calls {
        Calls::Any => true,
        Calls::Below(rank) => body.rank < rank,
        Calls::NoFunction => match body.result {
            None => true,
            Some(_) => false,
        },
    }
}

/// The columns of a call of a function, where its arguments fit.
pub fn function_columns(shape: &Shape, calls: Calls, body: u32, fit: bool) -> Option<u32>
    ensures { result ≡ fits.function_columns calls (slice_get shape.now.bodies body) fit }
{
    let place = body as usize;
    if place >= shape.bodies.len() {
        return None;
    }
    let there = shape.bodies.get(place);
    only(
        fit,
        only(is_allowed_body(calls, there), few_of(there.result)),
    )
}

/// Whether a call is one of a predicate, where its arguments fit.
pub fn is_predicate_call(shape: &Shape, calls: Calls, body: u32, fit: bool) -> bool
    ensures { result ≡ fits.is_predicate_call calls (slice_get shape.now.bodies body) fit }
{
    let place = body as usize;
    if place >= shape.bodies.len() {
        return false;
    }
    let there = shape.bodies.get(place);
    match there.result {
        None => fit && is_allowed_body(calls, there),
        Some(_) => false,
    }
}

/// The columns of the parameters of a body; none where there is no such body.
pub fn parameters_at(shape: &Shape, body: u32) -> &[u32]
    ensures { result.now ≡ fits.parameters_of_shape (slice_get shape.now.bodies body) }
{
    let place = body as usize;
    if place >= shape.bodies.len() {
        return &[];
    }
    shape.bodies.get(place).parameters.as_slice()
}
