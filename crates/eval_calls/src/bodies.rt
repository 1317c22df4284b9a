//! A weight for each body, from those of lower rank on.

ghost use Rattle.std.specs.Prelude.{◌≡◌, ◌<◌, ◌≤◌, IfOk, IfSome, IsTrue, length, slice_get, Some};
ghost use Rattle.core_tree.specs.declared.model.Body.{Body};
ghost use Rattle.eval_calls.specs.Weight.{weight_of_form, calls_below, IsWeighed, AreWeighed};

use crate::weight::{MOST, of_form};
use core_tree::BodyList;
use std::alloc::{AllocError, Global};

/// No body may weigh so much.
pub const MANY: u32 = 1_048_576;

/// A body's rank and its number.
#[derive(Clone, Copy, Debug, PartialEq, Eq, PartialOrd, Ord)]
struct Ranked {
    rank: u32,
    body: usize,
}

/// The bodies, those of lower rank first.
fn by_rank(alloc: Global, bodies: &BodyList) -> Result<Vec<Ranked>, AllocError> {
    let mut all: Vec<Ranked> = Vec::new(alloc);
    for body in 0..bodies.len() {
        all.push(Ranked {
            rank: bodies.get(body).rank,
            body,
        })?;
    }
    all.sort()?;
    Ok(all)
}

/// The weight of a body, which may call bodies of lower rank.
fn weight_at(bodies: &BodyList, weights: &[u32], body: usize) -> u32
    requires { body < length bodies.now }
    ensures { (b : Body) → slice_get bodies.now body ≡ Some b →
        result ≡ weight_of_form (calls_below bodies.now weights.now b.rank) b.form }
{
    let there = bodies.get(body);
    of_form(bodies, weights, there.rank, &there.form)
}

/// A weight for each body, from the lowest rank on.
fn weights_of(alloc: Global, bodies: &BodyList) -> Result<Vec<u32>, AllocError> {
    let mut weights: Vec<u32> = vec![in alloc; 0; bodies.len()]?;
    for ranked in by_rank(alloc, bodies)? {
        if ranked.body < weights.len() && ranked.body < bodies.len() {
            weights[ranked.body] = weight_at(bodies, &weights, ranked.body);
        }
    }
    Ok(weights)
}

/// Whether a body has its weight and a rank below the number of bodies.
fn is_weighed(bodies: &BodyList, weights: &[u32], body: usize) -> bool
    requires { body < length bodies.now }
    ensures { IsTrue result → (b : Body) → slice_get bodies.now body ≡ Some b →
        IsWeighed bodies.now weights.now body b }
{
    if body >= weights.len() || weights[body] != weight_at(bodies, weights, body) {
        return false;
    }
    weights[body] < MANY && (bodies.get(body).rank as usize) < bodies.len()
}

/// Whether each body has its weight and a rank below the number of bodies.
fn are_weighed(bodies: &BodyList, weights: &[u32]) -> bool
    ensures { IsTrue result → AreWeighed bodies.now weights.now }
{
    for body in 0..bodies.len() {
        if !is_weighed(bodies, weights, body) {
            return false;
        }
    }
    true
}

/// A weight for each body. None where a body's rank isn't above that of each body that it calls, or
/// isn't below the number of bodies, or where past operators nest more than a million deep.
pub fn weigh(alloc: Global, bodies: &BodyList) -> Result<Option<Vec<u32>>, AllocError>
    ensures { IfOk result (λ o. IfSome o (λ weights. AreWeighed bodies.now weights.items)) }
{
    let weights = weights_of(alloc, bodies)?;
    if are_weighed(bodies, &weights) {
        return Ok(Some(weights));
    }
    Ok(None)
}
