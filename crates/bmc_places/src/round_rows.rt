//! Rows at the next positions, and rows that go round. What comes after the last place of a window is the value at the place to
//! which one goes back, in the window of the loop that is chosen. So it is one node for all windows.

ghost use Rattle.std.specs.Prelude.{◌≡◌, ◌<◌, ◌++◌, ℕ, Bool, List, Some, slice_get, IfOk, OnOk};
ghost use Rattle.gate_trait.specs.Built.{Keeps, AllIn};
ghost use Rattle.gate_trait.specs.declared.node.Node.{Node as CircuitNode};
ghost use Rattle.gate_temporal.specs.Rows.{row_value};
ghost use Rattle.bmc_windows.specs.Frames.{IsFrame};
ghost use Rattle.bmc_windows.specs.declared.frame.Stretch.{Stretch as Window};
ghost use Rattle.bmc_leaves.specs.Loops.{IsChosen};
ghost use Rattle.bmc_places.specs.RoundRows.{AreBacks, TellsNext, IsRowAfter, IsNextRow, IsOnceIn, IsOnceRow, IsAgainIn, IsAgainRow, IsUntilRow};

use bmc_stack::node_or_false;
use bmc_stack::windows::{append, part};
use bmc_windows::{Frame, Stretch, found_at};
use gate_temporal::{chosen, until_again, until_once};
use gate_trait::{Gates, Node, NodeList};
use std::alloc::{AllocError, Global};

/// The place to which a window goes back, 0 where there is none of this number.
fn back_at(windows: &[Stretch], number: usize) -> usize
    ensures { (s : Window) → slice_get windows.now number ≡ Some s → result ≡ s.back }
{
    if number < windows.len() {
        return windows[number].back;
    }
    0
}

/// The nodes at the places to which the windows go back.
fn backs_of<G: Gates>(
    alloc: Global,
    gates: &G,
    frame: &Frame,
    row: &NodeList,
) -> Result<NodeList, AllocError>
    requires { AllIn (G.belongs gates.now) row.now }
    ensures belongs { IfOk result (λ backs. AllIn (G.belongs gates.now) backs) }
    ensures backs { IfOk result (λ backs. AreBacks (G.node_value gates.now)
        frame.now.windows.items row.now backs) }
{
    let mut backs = NodeList::new(alloc);
    for number in 0..frame.windows.len() {
        let back = back_at(&frame.windows, number);
        backs.push(node_or_false(gates, row, back))?;
    }
    Ok(backs)
}

/// The node at the place to which one goes back, in the window of the loop that is chosen. Its error is want of
/// memory, or that there isn't a window for each choice.
fn node_at_loop<G: Gates>(
    alloc: Global,
    gates: &mut G,
    frame: &Frame,
    choices: &NodeList,
    row: &NodeList,
) -> Result<Node, AllocError>
    requires choices { AllIn (G.belongs gates.old) choices.now }
    requires row { AllIn (G.belongs gates.old) row.now }
    ensures keeps { Keeps G.belongs G.node_value gates.old gates.new }
    ensures belongs { IfOk result (λ n. G.belongs gates.new n) }
    ensures value { IfOk result (λ n. (x : ℕ → Bool) (s : Window) →
        IsChosen (G.node_value gates.old) frame.now choices.now x s
        → G.node_value gates.new x n ≡ row_value (G.node_value gates.old x) row.now s.back) }
{
    let backs = backs_of(alloc, gates, frame, row)?;
    if choices.len() != backs.len() {
        return Err(AllocError);
    }
    let node = chosen(gates, choices, &backs)?;
    Ok(node)
}

/// The node of a row at the next place where that is a later one; else the node that is given.
fn node_after<G: Gates>(
    gates: &G,
    row: &NodeList,
    places: &[usize],
    back: Node,
    place: usize,
) -> Node
    requires row { AllIn (G.belongs gates.now) row.now }
    requires back { G.belongs gates.now back }
    ensures belongs { G.belongs gates.now result }
    ensures tells { (x : ℕ → Bool) → TellsNext (G.node_value gates.now x) places.now row.now back
        place (G.node_value gates.now x result) }
{
    let next = found_at(places, place);
    if next > place {
        return node_or_false(gates, row, next);
    }
    back
}

/// The nodes of a row at the next places where these are later ones; else the node that is given.
fn row_after<G: Gates>(
    alloc: Global,
    gates: &G,
    row: &NodeList,
    places: &[usize],
    back: Node,
) -> Result<NodeList, AllocError>
    requires row { AllIn (G.belongs gates.now) row.now }
    requires back { G.belongs gates.now back }
    ensures belongs { IfOk result (λ new. AllIn (G.belongs gates.now) new) }
    ensures after { IfOk result (λ new. IsRowAfter (G.node_value gates.now) places.now row.now
        back new) }
{
    let mut new = NodeList::new(alloc);
    for place in 0..places.len() {
        let node = node_after(gates, row, places, back, place);
        new.push(node)?;
    }
    Ok(new)
}

/// What a row says at the next positions. Its error is want of memory, or that there isn't a window for each choice.
pub fn next_row<G: Gates>(
    alloc: Global,
    gates: &mut G,
    frame: &Frame,
    choices: &NodeList,
    row: &NodeList,
) -> Result<NodeList, AllocError>
    requires choices { AllIn (G.belongs gates.old) choices.now }
    requires row { AllIn (G.belongs gates.old) row.now }
    ensures keeps { Keeps G.belongs G.node_value gates.old gates.new }
    ensures belongs { IfOk result (λ new. AllIn (G.belongs gates.new) new) }
    ensures next { IfOk result (λ new. IsNextRow (G.node_value gates.old) (G.node_value gates.new)
        frame.now choices.now row.now new) }
{
    let back = node_at_loop(alloc, gates, frame, choices, row)?;
    let new = row_after(alloc, gates, row, &frame.next, back)?;
    Ok(new)
}

/// The first pass of `until` in a window.
fn once_in<G: Gates>(
    alloc: Global,
    gates: &mut G,
    window: Stretch,
    f: &NodeList,
    g: &NodeList,
) -> Result<NodeList, AllocError>
    requires f_belongs { AllIn (G.belongs gates.old) f.now }
    requires g_belongs { AllIn (G.belongs gates.old) g.now }
    ensures keeps { Keeps G.belongs G.node_value gates.old gates.new }
    ensures belongs { IfOk result (λ row. AllIn (G.belongs gates.new) row) }
    ensures once { IfOk result (λ row. IsOnceIn (G.node_value gates.old) (G.node_value gates.new)
        window f.now g.now row) }
{
    let first = part(alloc, gates, f, window.start, window.end)?;
    let second = part(alloc, gates, g, window.start, window.end)?;
    let once = until_once(alloc, gates, &first, &second)?;
    Ok(once)
}

/// Adds the first pass of `until` in a window.
fn add_once<G: Gates>(
    alloc: Global,
    gates: &mut G,
    window: Stretch,
    f: &NodeList,
    g: &NodeList,
    row: &mut NodeList,
) -> Result<(), AllocError>
    requires f_belongs { AllIn (G.belongs gates.old) f.now }
    requires g_belongs { AllIn (G.belongs gates.old) g.now }
    requires row { AllIn (G.belongs gates.old) row.old }
    ensures keeps { Keeps G.belongs G.node_value gates.old gates.new }
    ensures belongs { AllIn (G.belongs gates.new) row.new }
    ensures added { OnOk result ((more : List CircuitNode) × (row.new ≡ row.old ++ more)
        × IsOnceIn (G.node_value gates.old) (G.node_value gates.new) window f.now g.now more) }
{
    let new = once_in(alloc, gates, window, f, g)?;
    append(gates, row, &new)
}

/// The first passes of `until` in all windows.
fn once_row<G: Gates>(
    alloc: Global,
    gates: &mut G,
    frame: &Frame,
    f: &NodeList,
    g: &NodeList,
) -> Result<NodeList, AllocError>
    requires f_belongs { AllIn (G.belongs gates.old) f.now }
    requires g_belongs { AllIn (G.belongs gates.old) g.now }
    ensures keeps { Keeps G.belongs G.node_value gates.old gates.new }
    ensures belongs { IfOk result (λ row. AllIn (G.belongs gates.new) row) }
    ensures once { IfOk result (λ row. (states rounds : ℕ) → IsFrame states rounds frame.now
        → IsOnceRow (G.node_value gates.old) (G.node_value gates.new) frame.now f.now g.now row) }
{
    let mut row = NodeList::new(alloc);
    for number in 0..frame.windows.len() {
        add_once(alloc, gates, frame.windows[number], f, g, &mut row)?;
    }
    Ok(row)
}

/// The second pass of `until` in a window, where `round` is the value at the place to which one goes back. Its error is
/// want of memory, or that the window has no place.
fn again_in<G: Gates>(
    alloc: Global,
    gates: &mut G,
    window: Stretch,
    f: &NodeList,
    g: &NodeList,
    onces: &NodeList,
    round: Node,
) -> Result<NodeList, AllocError>
    requires f_belongs { AllIn (G.belongs gates.old) f.now }
    requires g_belongs { AllIn (G.belongs gates.old) g.now }
    requires onces_belong { AllIn (G.belongs gates.old) onces.now }
    requires round_belongs { G.belongs gates.old round }
    ensures keeps { Keeps G.belongs G.node_value gates.old gates.new }
    ensures belongs { IfOk result (λ row. AllIn (G.belongs gates.new) row) }
    ensures again { IfOk result (λ row. IsAgainIn (G.node_value gates.old) (G.node_value gates.new)
        window f.now g.now onces.now round row) }
{
    let first = part(alloc, gates, f, window.start, window.end)?;
    let second = part(alloc, gates, g, window.start, window.end)?;
    let once = part(alloc, gates, onces, window.start, window.end)?;
    if first.len() == 0 {
        return Err(AllocError);
    }
    let again = until_again(alloc, gates, &first, &second, &once, round)?;
    Ok(again)
}

/// Adds the second pass of `until` in a window.
fn add_again<G: Gates>(
    alloc: Global,
    gates: &mut G,
    window: Stretch,
    f: &NodeList,
    g: &NodeList,
    onces: &NodeList,
    round: Node,
    row: &mut NodeList,
) -> Result<(), AllocError>
    requires f_belongs { AllIn (G.belongs gates.old) f.now }
    requires g_belongs { AllIn (G.belongs gates.old) g.now }
    requires onces_belong { AllIn (G.belongs gates.old) onces.now }
    requires round_belongs { G.belongs gates.old round }
    requires row { AllIn (G.belongs gates.old) row.old }
    ensures keeps { Keeps G.belongs G.node_value gates.old gates.new }
    ensures belongs { AllIn (G.belongs gates.new) row.new }
    ensures added { OnOk result ((more : List CircuitNode) × (row.new ≡ row.old ++ more)
        × IsAgainIn (G.node_value gates.old) (G.node_value gates.new) window f.now g.now onces.now
        round more) }
{
    let new = again_in(alloc, gates, window, f, g, onces, round)?;
    append(gates, row, &new)
}

/// The second passes of `until` in all windows.
fn again_row<G: Gates>(
    alloc: Global,
    gates: &mut G,
    frame: &Frame,
    f: &NodeList,
    g: &NodeList,
    onces: &NodeList,
    round: Node,
) -> Result<NodeList, AllocError>
    requires f_belongs { AllIn (G.belongs gates.old) f.now }
    requires g_belongs { AllIn (G.belongs gates.old) g.now }
    requires onces_belong { AllIn (G.belongs gates.old) onces.now }
    requires round_belongs { G.belongs gates.old round }
    ensures keeps { Keeps G.belongs G.node_value gates.old gates.new }
    ensures belongs { IfOk result (λ row. AllIn (G.belongs gates.new) row) }
    ensures again { IfOk result (λ row. (states rounds : ℕ) → IsFrame states rounds frame.now
        → IsAgainRow (G.node_value gates.old) (G.node_value gates.new) frame.now f.now g.now
        onces.now round row) }
{
    let mut row = NodeList::new(alloc);
    for number in 0..frame.windows.len() {
        let window = frame.windows[number];
        add_again(alloc, gates, window, f, g, onces, round, &mut row)?;
    }
    Ok(row)
}

/// Where the second row will hold, and the first until then: what one finds going round is one node for all windows. Its error
/// is want of memory, or that there isn't a window for each choice.
pub fn until_row<G: Gates>(
    alloc: Global,
    gates: &mut G,
    frame: &Frame,
    choices: &NodeList,
    f: &NodeList,
    g: &NodeList,
) -> Result<NodeList, AllocError>
    requires choices { AllIn (G.belongs gates.old) choices.now }
    requires f_belongs { AllIn (G.belongs gates.old) f.now }
    requires g_belongs { AllIn (G.belongs gates.old) g.now }
    ensures keeps { Keeps G.belongs G.node_value gates.old gates.new }
    ensures belongs { IfOk result (λ row. AllIn (G.belongs gates.new) row) }
    ensures until { IfOk result (λ row. (states rounds : ℕ) → 0 < rounds →
        IsFrame states rounds frame.now → IsUntilRow (G.node_value gates.old)
        (G.node_value gates.new) frame.now choices.now f.now g.now row) }
{
    let onces = once_row(alloc, gates, frame, f, g)?;
    let round = node_at_loop(alloc, gates, frame, choices, &onces)?;
    let row = again_row(alloc, gates, frame, f, g, &onces, round)?;
    Ok(row)
}
