//! The rules of formulas.

ghost use Rattle.std.specs.Prelude.{IfOk, OnOk, map};
ghost use Rattle.gate_trait.specs.Built.{Keeps, AllIn};
ghost use Rattle.core_tree.specs.Trees.{term_of, claim_of, claim_list, negation, inside as lies_in, equal as equals, test as asks_for, every, connect, choose_claim, temporal, temporal_pair};
ghost use Rattle.bmc_stack.specs.Stored.{AreStored};
ghost use Rattle.bmc_places.specs.Stores.{Extends, Stays};
ghost use Rattle.bmc_walk.specs.Walked.{HasRow, AddsFront};
ghost use Rattle.bmc_walk.specs.Walks.{Walks};

use crate::walk::{Answer, Ground, Known, Walk, Wanted, part_row, part_sets};
use bmc_leaves::loops::loop_choices;
use bmc_places::round_rows::{self, next_row};
use bmc_places::rows::{if_else, iff, opposite};
use bmc_places::{equal_row, inside_row, tested_row};
use bmc_stack::windows::{both, constantly, moving};
use bmc_stack::{Store, TimeOperator};
use core_tree::{Connective, Expr, Formula, Quantity, TemporalBinary, TemporalUnary};
use gate_trait::{Gates, NodeList};
use std::alloc::AllocError;

/// Where `not f` holds.
pub fn not_row<
    G: Gates,
    F: for<'j> Fn(
        &'j Ground<'j>,
        &mut G,
        &mut Store,
        Wanted<'_>,
        &Known<'_>,
        u32,
    ) -> Result<Answer, AllocError>,
>(
    walk: &Walk<'_, F>,
    gates: &mut G,
    store: &mut Store,
    f: &Formula,
    known: &Known<'_>,
) -> Result<NodeList, AllocError>
    requires walks { Walks G.belongs G.node_value walk.now.deep (F.pre walk.now.run)
        (F.post walk.now.run) }
    requires stored { AreStored (G.belongs gates.old) store.old }
    ensures keeps { Keeps G.belongs G.node_value gates.old gates.new }
    ensures stored { OnOk result (AreStored (G.belongs gates.new) store.new) }
    ensures stays { OnOk result (Stays store.old store.new) }
    ensures belongs { IfOk result (λ row. AllIn (G.belongs gates.new) row) }
    ensures right { IfOk result (λ row. HasRow walk.now.ground.now known.now
        (G.node_value gates.old) (G.node_value gates.new) store.old.matrices.items
        (negation (claim_of f.now)) row) }
{
    let first = part_row(walk, gates, store, f, known)?;
    let row = opposite(walk.ground.alloc, gates, &first)?;
    Ok(row)
}

/// Where `a in b` holds.
pub fn in_row<
    G: Gates,
    F: for<'j> Fn(
        &'j Ground<'j>,
        &mut G,
        &mut Store,
        Wanted<'_>,
        &Known<'_>,
        u32,
    ) -> Result<Answer, AllocError>,
>(
    walk: &Walk<'_, F>,
    gates: &mut G,
    store: &mut Store,
    a: &Expr,
    b: &Expr,
    known: &Known<'_>,
) -> Result<NodeList, AllocError>
    requires walks { Walks G.belongs G.node_value walk.now.deep (F.pre walk.now.run)
        (F.post walk.now.run) }
    requires stored { AreStored (G.belongs gates.old) store.old }
    ensures keeps { Keeps G.belongs G.node_value gates.old gates.new }
    ensures stored { OnOk result (AreStored (G.belongs gates.new) store.new) }
    ensures extends { OnOk result (Extends store.old store.new) }
    ensures belongs { IfOk result (λ row. AllIn (G.belongs gates.new) row) }
    ensures right { IfOk result (λ row. HasRow walk.now.ground.now known.now
        (G.node_value gates.old) (G.node_value gates.new) store.old.matrices.items
        (lies_in (term_of a.now) (term_of b.now)) row) }
{
    let first = part_sets(walk, gates, store, a, known)?;
    let second = part_sets(walk, gates, store, b, known)?;
    let row = inside_row(walk.ground.alloc, gates, store, &first, &second)?;
    Ok(row)
}

/// Where `a = b` holds.
pub fn same_row<
    G: Gates,
    F: for<'j> Fn(
        &'j Ground<'j>,
        &mut G,
        &mut Store,
        Wanted<'_>,
        &Known<'_>,
        u32,
    ) -> Result<Answer, AllocError>,
>(
    walk: &Walk<'_, F>,
    gates: &mut G,
    store: &mut Store,
    a: &Expr,
    b: &Expr,
    known: &Known<'_>,
) -> Result<NodeList, AllocError>
    requires walks { Walks G.belongs G.node_value walk.now.deep (F.pre walk.now.run)
        (F.post walk.now.run) }
    requires stored { AreStored (G.belongs gates.old) store.old }
    ensures keeps { Keeps G.belongs G.node_value gates.old gates.new }
    ensures stored { OnOk result (AreStored (G.belongs gates.new) store.new) }
    ensures extends { OnOk result (Extends store.old store.new) }
    ensures belongs { IfOk result (λ row. AllIn (G.belongs gates.new) row) }
    ensures right { IfOk result (λ row. HasRow walk.now.ground.now known.now
        (G.node_value gates.old) (G.node_value gates.new) store.old.matrices.items
        (equals (term_of a.now) (term_of b.now)) row) }
{
    let first = part_sets(walk, gates, store, a, known)?;
    let second = part_sets(walk, gates, store, b, known)?;
    let row = equal_row(walk.ground.alloc, gates, store, &first, &second)?;
    Ok(row)
}

/// Where a test of a set holds.
pub fn test_row<
    G: Gates,
    F: for<'j> Fn(
        &'j Ground<'j>,
        &mut G,
        &mut Store,
        Wanted<'_>,
        &Known<'_>,
        u32,
    ) -> Result<Answer, AllocError>,
>(
    walk: &Walk<'_, F>,
    gates: &mut G,
    store: &mut Store,
    quantity: Quantity,
    a: &Expr,
    known: &Known<'_>,
) -> Result<NodeList, AllocError>
    requires walks { Walks G.belongs G.node_value walk.now.deep (F.pre walk.now.run)
        (F.post walk.now.run) }
    requires stored { AreStored (G.belongs gates.old) store.old }
    ensures keeps { Keeps G.belongs G.node_value gates.old gates.new }
    ensures stored { OnOk result (AreStored (G.belongs gates.new) store.new) }
    ensures extends { OnOk result (Extends store.old store.new) }
    ensures belongs { IfOk result (λ row. AllIn (G.belongs gates.new) row) }
    ensures right { IfOk result (λ row. HasRow walk.now.ground.now known.now
        (G.node_value gates.old) (G.node_value gates.new) store.old.matrices.items
        (asks_for quantity (term_of a.now)) row) }
{
    let first = part_sets(walk, gates, store, a, known)?;
    let row = tested_row(walk.ground.alloc, gates, store, quantity, &first)?;
    Ok(row)
}

/// Where two rows and a formula before them hold: the next step of a list, whose later formulas say the row.
fn and_row<
    G: Gates,
    F: for<'j> Fn(
        &'j Ground<'j>,
        &mut G,
        &mut Store,
        Wanted<'_>,
        &Known<'_>,
        u32,
    ) -> Result<Answer, AllocError>,
>(
    walk: &Walk<'_, F>,
    gates: &mut G,
    store: &mut Store,
    f: &Formula,
    so_far: &NodeList,
    known: &Known<'_>,
) -> Result<NodeList, AllocError>
    requires walks { Walks G.belongs G.node_value walk.now.deep (F.pre walk.now.run)
        (F.post walk.now.run) }
    requires stored { AreStored (G.belongs gates.old) store.old }
    requires so_far { AllIn (G.belongs gates.old) so_far.now }
    ensures keeps { Keeps G.belongs G.node_value gates.old gates.new }
    ensures stored { OnOk result (AreStored (G.belongs gates.new) store.new) }
    ensures stays { OnOk result (Stays store.old store.new) }
    ensures belongs { IfOk result (λ row. AllIn (G.belongs gates.new) row) }
    ensures right { IfOk result (λ row. AddsFront walk.now.ground.now known.now
        (G.node_value gates.old) (G.node_value gates.new) store.old.matrices.items
        (claim_of f.now) so_far.now row) }
{
    let first = part_row(walk, gates, store, f, known)?;
    let row = both(walk.ground.alloc, gates, so_far, &first)?;
    Ok(row)
}

/// Where all formulas of a list hold.
pub fn every_row<
    G: Gates,
    F: for<'j> Fn(
        &'j Ground<'j>,
        &mut G,
        &mut Store,
        Wanted<'_>,
        &Known<'_>,
        u32,
    ) -> Result<Answer, AllocError>,
>(
    walk: &Walk<'_, F>,
    gates: &mut G,
    store: &mut Store,
    list: &[Formula],
    known: &Known<'_>,
) -> Result<NodeList, AllocError>
    requires walks { Walks G.belongs G.node_value walk.now.deep (F.pre walk.now.run)
        (F.post walk.now.run) }
    requires stored { AreStored (G.belongs gates.old) store.old }
    ensures keeps { Keeps G.belongs G.node_value gates.old gates.new }
    ensures stored { OnOk result (AreStored (G.belongs gates.new) store.new) }
    ensures stays { OnOk result (Stays store.old store.new) }
    ensures belongs { IfOk result (λ row. AllIn (G.belongs gates.new) row) }
    ensures right { IfOk result (λ row. HasRow walk.now.ground.now known.now
        (G.node_value gates.old) (G.node_value gates.new) store.old.matrices.items
        (every (claim_list (map claim_of list.now))) row) }
{
    let setting = walk.ground.setting;
    let frame = setting.frame;
    let count = frame.shown.len();
    let mut all = constantly(walk.ground.alloc, gates, count, true)?;
    for turn in 0..list.len() {
        let place = list.len() - 1 - turn;
        let formula = &list[place];
        let more = and_row(walk, gates, store, formula, &all, known)?;
        all = more;
    }
    Ok(all)
}

/// Where both formulas hold or neither does.
fn iff_row<
    G: Gates,
    F: for<'j> Fn(
        &'j Ground<'j>,
        &mut G,
        &mut Store,
        Wanted<'_>,
        &Known<'_>,
        u32,
    ) -> Result<Answer, AllocError>,
>(
    walk: &Walk<'_, F>,
    gates: &mut G,
    store: &mut Store,
    f: &Formula,
    g: &Formula,
    known: &Known<'_>,
) -> Result<NodeList, AllocError>
    requires walks { Walks G.belongs G.node_value walk.now.deep (F.pre walk.now.run)
        (F.post walk.now.run) }
    requires stored { AreStored (G.belongs gates.old) store.old }
    ensures keeps { Keeps G.belongs G.node_value gates.old gates.new }
    ensures stored { OnOk result (AreStored (G.belongs gates.new) store.new) }
    ensures stays { OnOk result (Stays store.old store.new) }
    ensures belongs { IfOk result (λ row. AllIn (G.belongs gates.new) row) }
    ensures right { IfOk result (λ row. HasRow walk.now.ground.now known.now
        (G.node_value gates.old) (G.node_value gates.new) store.old.matrices.items
        (connect Connective.Iff (claim_of f.now) (claim_of g.now)) row) }
{
    let first = part_row(walk, gates, store, f, known)?;
    let second = part_row(walk, gates, store, g, known)?;
    let row = iff(walk.ground.alloc, gates, &first, &second)?;
    Ok(row)
}

/// Where a connective of two formulas holds. Its error is want of memory, or that the kernel hasn't the connective.
pub fn connect_row<
    G: Gates,
    F: for<'j> Fn(
        &'j Ground<'j>,
        &mut G,
        &mut Store,
        Wanted<'_>,
        &Known<'_>,
        u32,
    ) -> Result<Answer, AllocError>,
>(
    walk: &Walk<'_, F>,
    gates: &mut G,
    store: &mut Store,
    op: Connective,
    f: &Formula,
    g: &Formula,
    known: &Known<'_>,
) -> Result<NodeList, AllocError>
    requires walks { Walks G.belongs G.node_value walk.now.deep (F.pre walk.now.run)
        (F.post walk.now.run) }
    requires stored { AreStored (G.belongs gates.old) store.old }
    ensures keeps { Keeps G.belongs G.node_value gates.old gates.new }
    ensures stored { OnOk result (AreStored (G.belongs gates.new) store.new) }
    ensures stays { OnOk result (Stays store.old store.new) }
    ensures belongs { IfOk result (λ row. AllIn (G.belongs gates.new) row) }
    ensures right { IfOk result (λ row. HasRow walk.now.ground.now known.now
        (G.node_value gates.old) (G.node_value gates.new) store.old.matrices.items
        (connect op (claim_of f.now) (claim_of g.now)) row) }
{
    match op {
        Connective::Iff => {
            let row = iff_row(walk, gates, store, f, g, known)?;
            Ok(row)
        }
        _ => Err(AllocError),
    }
}

/// Where the second formula holds where the first does, and the third elsewhere.
pub fn choice_row<
    G: Gates,
    F: for<'j> Fn(
        &'j Ground<'j>,
        &mut G,
        &mut Store,
        Wanted<'_>,
        &Known<'_>,
        u32,
    ) -> Result<Answer, AllocError>,
>(
    walk: &Walk<'_, F>,
    gates: &mut G,
    store: &mut Store,
    f: &Formula,
    g: &Formula,
    h: &Formula,
    known: &Known<'_>,
) -> Result<NodeList, AllocError>
    requires walks { Walks G.belongs G.node_value walk.now.deep (F.pre walk.now.run)
        (F.post walk.now.run) }
    requires stored { AreStored (G.belongs gates.old) store.old }
    ensures keeps { Keeps G.belongs G.node_value gates.old gates.new }
    ensures stored { OnOk result (AreStored (G.belongs gates.new) store.new) }
    ensures stays { OnOk result (Stays store.old store.new) }
    ensures belongs { IfOk result (λ row. AllIn (G.belongs gates.new) row) }
    ensures right { IfOk result (λ row. HasRow walk.now.ground.now known.now
        (G.node_value gates.old) (G.node_value gates.new) store.old.matrices.items
        (choose_claim (claim_of f.now) (claim_of g.now) (claim_of h.now)) row) }
{
    let first = part_row(walk, gates, store, f, known)?;
    let second = part_row(walk, gates, store, g, known)?;
    let third = part_row(walk, gates, store, h, known)?;
    let row = if_else(walk.ground.alloc, gates, &first, &second, &third)?;
    Ok(row)
}

/// Where a formula holds at the next position.
fn after_row<
    G: Gates,
    F: for<'j> Fn(
        &'j Ground<'j>,
        &mut G,
        &mut Store,
        Wanted<'_>,
        &Known<'_>,
        u32,
    ) -> Result<Answer, AllocError>,
>(
    walk: &Walk<'_, F>,
    gates: &mut G,
    store: &mut Store,
    f: &Formula,
    known: &Known<'_>,
) -> Result<NodeList, AllocError>
    requires walks { Walks G.belongs G.node_value walk.now.deep (F.pre walk.now.run)
        (F.post walk.now.run) }
    requires stored { AreStored (G.belongs gates.old) store.old }
    ensures keeps { Keeps G.belongs G.node_value gates.old gates.new }
    ensures stored { OnOk result (AreStored (G.belongs gates.new) store.new) }
    ensures stays { OnOk result (Stays store.old store.new) }
    ensures belongs { IfOk result (λ row. AllIn (G.belongs gates.new) row) }
    ensures right { IfOk result (λ row. HasRow walk.now.ground.now known.now
        (G.node_value gates.old) (G.node_value gates.new) store.old.matrices.items
        (temporal TemporalUnary.After (claim_of f.now)) row) }
{
    let first = part_row(walk, gates, store, f, known)?;
    let setting = walk.ground.setting;
    let frame = setting.frame;
    let choices = loop_choices(
        walk.ground.alloc,
        gates,
        setting.bounds.states,
        setting.layout.loops,
    )?;
    let row = next_row(walk.ground.alloc, gates, frame, &choices, &first)?;
    Ok(row)
}

/// Where there is a position before, and a formula held there.
fn before_row<
    G: Gates,
    F: for<'j> Fn(
        &'j Ground<'j>,
        &mut G,
        &mut Store,
        Wanted<'_>,
        &Known<'_>,
        u32,
    ) -> Result<Answer, AllocError>,
>(
    walk: &Walk<'_, F>,
    gates: &mut G,
    store: &mut Store,
    f: &Formula,
    known: &Known<'_>,
) -> Result<NodeList, AllocError>
    requires walks { Walks G.belongs G.node_value walk.now.deep (F.pre walk.now.run)
        (F.post walk.now.run) }
    requires stored { AreStored (G.belongs gates.old) store.old }
    ensures keeps { Keeps G.belongs G.node_value gates.old gates.new }
    ensures stored { OnOk result (AreStored (G.belongs gates.new) store.new) }
    ensures stays { OnOk result (Stays store.old store.new) }
    ensures belongs { IfOk result (λ row. AllIn (G.belongs gates.new) row) }
    ensures right { IfOk result (λ row. HasRow walk.now.ground.now known.now
        (G.node_value gates.old) (G.node_value gates.new) store.old.matrices.items
        (temporal TemporalUnary.Before (claim_of f.now)) row) }
{
    let setting = walk.ground.setting;
    let frame = setting.frame;
    let always = constantly(walk.ground.alloc, gates, frame.shown.len(), true)?;
    let first = part_row(walk, gates, store, f, known)?;
    let row = moving(
        walk.ground.alloc,
        gates,
        frame,
        TimeOperator::Before,
        &always,
        &first,
    )?;
    Ok(row)
}

/// Where a temporal operator on a formula holds. Its error is want of memory, or that the kernel hasn't the operator.
pub fn temporal_row<
    G: Gates,
    F: for<'j> Fn(
        &'j Ground<'j>,
        &mut G,
        &mut Store,
        Wanted<'_>,
        &Known<'_>,
        u32,
    ) -> Result<Answer, AllocError>,
>(
    walk: &Walk<'_, F>,
    gates: &mut G,
    store: &mut Store,
    op: TemporalUnary,
    f: &Formula,
    known: &Known<'_>,
) -> Result<NodeList, AllocError>
    requires walks { Walks G.belongs G.node_value walk.now.deep (F.pre walk.now.run)
        (F.post walk.now.run) }
    requires stored { AreStored (G.belongs gates.old) store.old }
    ensures keeps { Keeps G.belongs G.node_value gates.old gates.new }
    ensures stored { OnOk result (AreStored (G.belongs gates.new) store.new) }
    ensures stays { OnOk result (Stays store.old store.new) }
    ensures belongs { IfOk result (λ row. AllIn (G.belongs gates.new) row) }
    ensures right { IfOk result (λ row. HasRow walk.now.ground.now known.now
        (G.node_value gates.old) (G.node_value gates.new) store.old.matrices.items
        (temporal op (claim_of f.now)) row) }
{
    match op {
        TemporalUnary::After => {
            let row = after_row(walk, gates, store, f, known)?;
            Ok(row)
        }
        TemporalUnary::Before => {
            let row = before_row(walk, gates, store, f, known)?;
            Ok(row)
        }
        _ => Err(AllocError),
    }
}

/// Where the second formula will hold, and the first until then.
fn until_row<
    G: Gates,
    F: for<'j> Fn(
        &'j Ground<'j>,
        &mut G,
        &mut Store,
        Wanted<'_>,
        &Known<'_>,
        u32,
    ) -> Result<Answer, AllocError>,
>(
    walk: &Walk<'_, F>,
    gates: &mut G,
    store: &mut Store,
    f: &Formula,
    g: &Formula,
    known: &Known<'_>,
) -> Result<NodeList, AllocError>
    requires walks { Walks G.belongs G.node_value walk.now.deep (F.pre walk.now.run)
        (F.post walk.now.run) }
    requires stored { AreStored (G.belongs gates.old) store.old }
    ensures keeps { Keeps G.belongs G.node_value gates.old gates.new }
    ensures stored { OnOk result (AreStored (G.belongs gates.new) store.new) }
    ensures stays { OnOk result (Stays store.old store.new) }
    ensures belongs { IfOk result (λ row. AllIn (G.belongs gates.new) row) }
    ensures right { IfOk result (λ row. HasRow walk.now.ground.now known.now
        (G.node_value gates.old) (G.node_value gates.new) store.old.matrices.items
        (temporal_pair TemporalBinary.Until (claim_of f.now) (claim_of g.now)) row) }
{
    let first = part_row(walk, gates, store, f, known)?;
    let second = part_row(walk, gates, store, g, known)?;
    let setting = walk.ground.setting;
    let frame = setting.frame;
    let choices = loop_choices(
        walk.ground.alloc,
        gates,
        setting.bounds.states,
        setting.layout.loops,
    )?;
    let row = round_rows::until_row(walk.ground.alloc, gates, frame, &choices, &first, &second)?;
    Ok(row)
}

/// Where the second formula has held, and the first since then.
fn since_row<
    G: Gates,
    F: for<'j> Fn(
        &'j Ground<'j>,
        &mut G,
        &mut Store,
        Wanted<'_>,
        &Known<'_>,
        u32,
    ) -> Result<Answer, AllocError>,
>(
    walk: &Walk<'_, F>,
    gates: &mut G,
    store: &mut Store,
    f: &Formula,
    g: &Formula,
    known: &Known<'_>,
) -> Result<NodeList, AllocError>
    requires walks { Walks G.belongs G.node_value walk.now.deep (F.pre walk.now.run)
        (F.post walk.now.run) }
    requires stored { AreStored (G.belongs gates.old) store.old }
    ensures keeps { Keeps G.belongs G.node_value gates.old gates.new }
    ensures stored { OnOk result (AreStored (G.belongs gates.new) store.new) }
    ensures stays { OnOk result (Stays store.old store.new) }
    ensures belongs { IfOk result (λ row. AllIn (G.belongs gates.new) row) }
    ensures right { IfOk result (λ row. HasRow walk.now.ground.now known.now
        (G.node_value gates.old) (G.node_value gates.new) store.old.matrices.items
        (temporal_pair TemporalBinary.Since (claim_of f.now) (claim_of g.now)) row) }
{
    let first = part_row(walk, gates, store, f, known)?;
    let second = part_row(walk, gates, store, g, known)?;
    let setting = walk.ground.setting;
    let frame = setting.frame;
    let op = TimeOperator::Since;
    let row = moving(walk.ground.alloc, gates, frame, op, &first, &second)?;
    Ok(row)
}

/// Where a temporal operator on two formulas holds. Its error is want of memory, or that the kernel hasn't the operator.
pub fn pair_row<
    G: Gates,
    F: for<'j> Fn(
        &'j Ground<'j>,
        &mut G,
        &mut Store,
        Wanted<'_>,
        &Known<'_>,
        u32,
    ) -> Result<Answer, AllocError>,
>(
    walk: &Walk<'_, F>,
    gates: &mut G,
    store: &mut Store,
    op: TemporalBinary,
    f: &Formula,
    g: &Formula,
    known: &Known<'_>,
) -> Result<NodeList, AllocError>
    requires walks { Walks G.belongs G.node_value walk.now.deep (F.pre walk.now.run)
        (F.post walk.now.run) }
    requires stored { AreStored (G.belongs gates.old) store.old }
    ensures keeps { Keeps G.belongs G.node_value gates.old gates.new }
    ensures stored { OnOk result (AreStored (G.belongs gates.new) store.new) }
    ensures stays { OnOk result (Stays store.old store.new) }
    ensures belongs { IfOk result (λ row. AllIn (G.belongs gates.new) row) }
    ensures right { IfOk result (λ row. HasRow walk.now.ground.now known.now
        (G.node_value gates.old) (G.node_value gates.new) store.old.matrices.items
        (temporal_pair op (claim_of f.now) (claim_of g.now)) row) }
{
    match op {
        TemporalBinary::Until => {
            let row = until_row(walk, gates, store, f, g, known)?;
            Ok(row)
        }
        TemporalBinary::Since => {
            let row = since_row(walk, gates, store, f, g, known)?;
            Ok(row)
        }
        _ => Err(AllocError),
    }
}
