//! A binary heap of the variables that wait to be picked, one of greatest weight first.
//!
//! Not proved: that the first has the greatest weight. A search depends on none of it.

ghost use Rattle.std.specs.Prelude.{◌≡◌, ◌+◌, ◌-◌, ◌*◌, ◌/◌, ◌<◌, ◌≤◌, length, IfSome};

use crate::picks::MOST;
use std::alloc::{AllocError, Global};

/// The weight of a variable, or 0 where it has none.
#[inline]
fn weight_of(weights: &[u64], variable: usize) -> u64 {
    if variable < weights.len() {
        weights[variable]
    } else {
        0
    }
}

/// Puts a variable at a place of the order.
#[inline]
fn put(order: &mut [u32], places: &mut [u32], place: usize, variable: usize) {
    if place < order.len().min(MOST) && variable < places.len().min(MOST) {
        order[place] = variable as u32;
        places[variable] = place as u32;
    }
}

/// Moves the variable at a place up, as far as its weight is greater.
fn rise(weights: &[u64], order: &mut [u32], places: &mut [u32], start: usize) {
    if start >= order.len() {
        return;
    }
    let variable = order[start] as usize;
    let weight = weight_of(weights, variable);
    let mut place = start;
    'up: while place > 0 {
        let parent = (place - 1) / 2;
        let above = order[parent] as usize;
        if weight_of(weights, above) >= weight {
            break;
        }
        put(order, places, place, above);
        place = parent;
    }
    put(order, places, place, variable);
}

/// The one of the two places below a place whose variable has the greater weight.
#[inline]
fn greater_child(weights: &[u64], order: &[u32], place: usize, len: usize) -> usize
    requires in_order { len ≤ length order.now }
    requires has_child { place < len / 2 }
    ensures below { place < result }
    ensures within { result < len }
{
    let left = 2 * place + 1;
    let right = left + 1;
    if right < len
        && weight_of(weights, order[right] as usize) > weight_of(weights, order[left] as usize)
    {
        right
    } else {
        left
    }
}

/// Moves the first variable down, as far as its weight is smaller.
fn sink(weights: &[u64], order: &mut [u32], places: &mut [u32], len: usize)
    requires { len ≤ length order.old }
{
    if len == 0 {
        return;
    }
    let variable = order[0] as usize;
    let weight = weight_of(weights, variable);
    let mut place = 0;
    'down: while place < len / 2 {
        let child = greater_child(weights, order, place, len);
        let below = order[child] as usize;
        if weight_of(weights, below) <= weight {
            break;
        }
        put(order, places, place, below);
        place = child;
    }
    put(order, places, place, variable);
}

/// The variables that wait to be picked, numbered from 0, as a binary heap with one of greatest weight first.
#[derive(Drop)]
pub(crate) struct WeightHeap {
    weights: Vec<u64>,
    /// The waiting variables stand at the first `len` places.
    order: Vec<u32>,
    /// Where each waiting variable stands.
    places: Vec<u32>,
    pub len: usize,
    ghost within: { len ≤ length order.items },
}

impl WeightHeap {
    /// No variable.
    pub fn empty(alloc: Global) -> WeightHeap {
        WeightHeap {
            weights: Vec::new(alloc),
            order: Vec::new(alloc),
            places: Vec::new(alloc),
            len: 0,
        }
    }

    /// So many variables of weight 0, all waiting. The only error is want of memory, which is also that they are too many.
    pub fn new(alloc: Global, variables: usize) -> Result<WeightHeap, AllocError> {
        if variables >= MOST {
            return Err(AllocError);
        }
        let order: Vec<u32> = (0..variables as u32).collect(alloc)?;
        let places: Vec<u32> = (0..variables as u32).collect(alloc)?;
        let len = order.len();
        Ok(WeightHeap {
            weights: vec![in alloc; 0; variables]?,
            order,
            places,
            len,
        })
    }

    /// Where a variable stands, if it waits.
    fn place_of(&self, variable: usize) -> Option<usize> {
        if variable >= self.places.len() {
            return None;
        }
        let place = self.places[variable] as usize;
        if place < self.len && self.order[place] as usize == variable {
            Some(place)
        } else {
            None
        }
    }

    /// Lets a variable wait.
    pub fn insert(&mut self, variable: usize) {
        if self.place_of(variable).is_some() || self.len >= self.order.len() {
            return;
        }
        let place = self.len;
        self.len += 1;
        put(&mut self.order, &mut self.places, place, variable);
        rise(&self.weights, &mut self.order, &mut self.places, place);
    }

    /// Takes out a waiting variable of greatest weight.
    pub fn pop(&mut self) -> Option<usize>
        ensures { IfSome result (λ _. self.new.len + 1 ≡ self.old.len) }
    {
        if self.len == 0 {
            return None;
        }
        let first = self.order[0] as usize;
        self.len -= 1;
        let len = self.len;
        let last = self.order[len] as usize;
        put(&mut self.order, &mut self.places, 0, last);
        sink(&self.weights, &mut self.order, &mut self.places, len);
        Some(first)
    }

    /// Adds to the weight of a variable, and gives the new weight.
    pub fn raise(&mut self, variable: usize, step: u64) -> u64 {
        if variable >= self.weights.len() {
            return 0;
        }
        let weight = self.weights[variable].saturating_add(step);
        self.weights[variable] = weight;
        if let Some(place) = self.place_of(variable) {
            rise(&self.weights, &mut self.order, &mut self.places, place);
        }
        weight
    }

    /// Divides all weights by two to a power, which keeps their order.
    pub fn scale_down(&mut self, power: u32)
        requires { power < 64 }
    {
        for weight in self.weights.iter_mut() {
            *weight >>= power;
        }
    }
}
