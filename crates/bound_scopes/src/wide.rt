//! The rule on numbers outside the bitwidth.
//! They count in the trees that count and in the bodies that these call, directly or not.

ghost use Rattle.std.specs.Prelude.{◌≡◌, ◌≤◌, ◌-◌, ◌^◌, ◌++◌, map, IfOk, OnOk};
ghost use Rattle.bound_definitions.specs.Places.{first_from, each, Finds};
ghost use Rattle.bound_definitions.specs.Trees.{mentions_of_tree, mentions_by, distance, is_outside, IsWideAt};
ghost use Rattle.bound_scopes.specs.Roots.{counted_root, counted_tree};
ghost use Rattle.bound_scopes.specs.Wide.{wide_places, IsFollowed};

use crate::counted::{Root, Tree};
use bound_definitions::Mention;
use core_tree::{BodyList, Origin};
use form_measures::{add_body, add_expr, add_formula, with_place};
use std::alloc::{AllocError, Global};

/// How many numbers of a bitwidth aren't negative.
fn half_of(bits: u32) -> u64
    requires { (1 ≤ bits) × (bits ≤ 12) }
    ensures { result ≡ 2 ^ (bits - 1) }
{
    1 << (bits - 1)
}

/// How far a number is from 0, or from -1 where it is negative.
#[tactic(auto, using(crate::proofs::Ranges::far_above, crate::proofs::Ranges::far_below))]
fn distance(number: i64) -> u64
    ensures { result ≡ distance number }
{
    if number >= 0 {
        number.unsigned_abs()
    } else {
        number.unsigned_abs() - 1
    }
}

/// Whether a number isn't one of a bitwidth, of which so many aren't negative.
fn is_wide(half: u64, number: i64) -> bool
    ensures { result ≡ is_outside half number }
{
    distance(number) >= half
}

/// The first place so far, with that of a number outside the bitwidth.
fn with_wide(found: Option<Origin>, half: u64, mention: Mention) -> Option<Origin>
    ensures { result ≡ first_from found (wide_places half mention) }
{
    match mention {
        Mention::Number(number, at) => with_place(found, is_wide(half, number), at),
        Mention::Call(_) => found,
    }
}

/// Adds what a tree that counts mentions.
fn add_tree(all: &mut Vec<Mention>, instance: u32, tree: Tree<'_>) -> Result<(), AllocError>
    ensures { OnOk result
        (all.new.items ≡ all.old.items ++ mentions_by instance (counted_tree tree.entry)) }
{
    match tree {
        Tree::Formula(formula) => {
            add_formula(all, instance, formula)?;
            Ok(())
        }
        Tree::Expr(expr) => {
            add_expr(all, instance, expr)?;
            Ok(())
        }
    }
}

/// What the trees mention.
fn mentioned(alloc: Global, roots: &[Root<'_>]) -> Result<Vec<Mention>, AllocError>
    ensures { IfOk result (λ v. v.items ≡ each mentions_of_tree (map counted_root roots.now)) }
{
    let mut all = Vec::new(alloc);
    for place in 0..roots.len() {
        let Some(root) = roots.get(place) else {
            // There is one at each place.
            return Err(AllocError);
        };
        add_tree(&mut all, root.at.instance, root.tree)?;
    }
    Ok(all)
}

/// Adds what a mentioned body mentions, the first time that it is called.
fn follow(
    all: &mut Vec<Mention>,
    seen: &mut Vec<bool>,
    bodies: &BodyList,
    mention: Mention,
) -> Result<(), AllocError>
    ensures { OnOk result (IsFollowed bodies.now mention all.old.items all.new.items
        seen.old.items seen.new.items) }
{
    match mention {
        Mention::Number(_, _) => Ok(()),
        Mention::Call(called) => {
            let place = called as usize;
            if place >= bodies.len() {
                return Ok(());
            }
            if place >= seen.len() {
                return Err(AllocError);
            }
            if seen[place] {
                return Ok(());
            }
            seen[place] = true;
            let body = bodies.get(place);
            add_body(all, body)?;
            Ok(())
        }
    }
}

/// The first number outside the bitwidth that the trees mention, or a body that is mentioned.
pub(crate) fn wide_literal(
    alloc: Global,
    bodies: &BodyList,
    roots: &[Root<'_>],
    bits: u32,
) -> Result<Option<Origin>, AllocError>
    requires { (1 ≤ bits) × (bits ≤ 12) }
    ensures { IfOk result (Finds (IsWideAt bodies.now (map counted_root roots.now) bits)) }
{
    let half = half_of(bits);
    let mut all = mentioned(alloc, roots)?;
    let mut seen = vec![in alloc; false; bodies.len()]?;
    let mut first = None;
    for place in 0..usize::MAX {
        if place >= all.len() {
            return Ok(first);
        }
        let mention = all[place];
        first = with_wide(first, half, mention);
        follow(&mut all, &mut seen, bodies, mention)?;
    }
    Err(AllocError)
}
