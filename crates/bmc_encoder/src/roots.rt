//! The roots of a target, and the run that makes them: layout, choices of the loop, formulas.

ghost use Rattle.std.specs.Prelude.{◌≡◌, ◌<◌, ◌+◌, ℕ, Bool, IfOk, OnOk, Some, length, slice_get};
ghost use Rattle.core_tree.specs.declared.tree.Formula.{Formula as FormulaTree};
ghost use Rattle.bmc_windows.specs.declared.frame.Stretch.{Stretch as Window};
ghost use Rattle.gate_temporal.specs.Rows.{row_value, IsOnly};
ghost use Rattle.bmc_encoder.specs.Firsts.{AreFirsts, SaysRoot};
ghost use Rattle.gate_trait.specs.Built.{Keeps, AllIn};
ghost use Rattle.gate_trait.specs.declared.node.Node.{Node as CircuitNode};
ghost use Rattle.bmc_leaves.specs.Loops.{AreChoices};
ghost use Rattle.bmc_leaves.specs.Shown.{IsUniverseOf};
ghost use Rattle.bmc_encoder.specs.Encodes.{IsEncoded};

use crate::letless::is_letless;
use crate::past_depth::depth_of;
use bmc_leaves::loops::loop_choices;
use bmc_leaves::scopes::keeps_numbers;
use bmc_leaves::setting::Setting;
use bmc_stack::node_or_false;
use bmc_walk::whole::formula_row;
use bmc_windows::{Frame, Stretch, frame_of};
use bound_uppers::numbers::spans_of;
use bound_uppers::{Bounds, Layout};
use core_meaning::{Scopes, Target};
use core_tree::Formula;
use core_tuples::Universe;
use gate_temporal::{chosen, only_one};
use gate_trait::{Gates, Node, NodeList};
use std::alloc::{AllocError, Global};

/// The circuit of a target.
#[derive(Drop)]
pub struct Encoded {
    /// Whether the assignment is a lasso.
    pub sure: Node,
    /// Whether that lasso keeps the numbers of the scopes; then, for each formula of the target in
    /// order, whether it holds at position 0.
    pub roots: NodeList,
}

/// The universe of some scopes. Its error is want of memory, or that the scopes give more numbers than a
/// universe has, or no bitwidth from 1 to 12.
fn universe_of(alloc: Global, scopes: &Scopes) -> Result<Universe, AllocError>
    ensures { IfOk result (λ u. IsUniverseOf scopes.now u) }
{
    let bits = scopes.bits;
    if bits < 1 || bits > 12 {
        return Err(AllocError);
    }
    let spans = spans_of(alloc, scopes)?;
    let atoms = spans.integers.first;
    Ok(Universe { atoms, bits })
}

/// The first place of a window, 0 where there is none of this number.
fn start_at(windows: &[Stretch], number: usize) -> usize
    ensures { (s : Window) → slice_get windows.now number ≡ Some s → result ≡ s.start }
{
    if number < windows.len() {
        return windows[number].start;
    }
    0
}

/// The nodes at the first places of the windows.
fn beginnings<G: Gates>(
    alloc: Global,
    gates: &G,
    frame: &Frame,
    all: &NodeList,
) -> Result<NodeList, AllocError>
    requires { AllIn (G.belongs gates.now) all.now }
    ensures belongs { IfOk result (λ firsts. AllIn (G.belongs gates.now) firsts) }
    ensures firsts { IfOk result (λ firsts. AreFirsts (G.node_value gates.now)
        frame.now.windows.items all.now firsts) }
{
    let mut firsts = NodeList::new(alloc);
    for number in 0..frame.windows.len() {
        let start = start_at(&frame.windows, number);
        firsts.push(node_or_false(gates, all, start))?;
    }
    Ok(firsts)
}

/// The value at position 0 of the lasso whose loop is chosen. Its error is want of memory, or that there
/// isn't a value for each loop.
fn value_at_loop<G: Gates>(
    alloc: Global,
    gates: &mut G,
    choices: &NodeList,
    frame: &Frame,
    all: &NodeList,
) -> Result<Node, AllocError>
    requires choices { AllIn (G.belongs gates.old) choices.now }
    requires all { AllIn (G.belongs gates.old) all.now }
    ensures keeps { Keeps G.belongs G.node_value gates.old gates.new }
    ensures belongs { IfOk result (λ n. G.belongs gates.new n) }
    ensures value { IfOk result (λ n. (x : ℕ → Bool) (loop : ℕ) (s : Window) →
        slice_get frame.now.windows.items loop ≡ Some s →
        IsOnly (G.node_value gates.old x) choices.now loop
        → G.node_value gates.new x n ≡ row_value (G.node_value gates.old x) all.now s.start) }
{
    let firsts = beginnings(alloc, gates, frame, all)?;
    if choices.len() != firsts.len() {
        return Err(AllocError);
    }
    let node = chosen(gates, choices, &firsts)?;
    Ok(node)
}

/// Whether the formula holds at position 0 of the lasso whose loop is chosen. Its error is want of memory, or that
/// the formula is no form of the kernel or nests more than eight past operators.
fn root_of<G: Gates>(
    alloc: Global,
    gates: &mut G,
    choices: &NodeList,
    bounds: &Bounds,
    table: &Layout,
    scopes: &Scopes,
    universe: Universe,
    formula: &Formula,
) -> Result<Node, AllocError>
    requires choices { AllIn (G.belongs gates.old) choices.now }
    requires universe { IsUniverseOf scopes.now universe }
    ensures keeps { Keeps G.belongs G.node_value gates.old gates.new }
    ensures belongs { IfOk result (λ n. G.belongs gates.new n) }
    ensures says { IfOk result (λ n. AreChoices (G.node_value gates.old) bounds.now.states
        table.now.loops choices.now
        → SaysRoot (G.node_value gates.new) bounds.now table.now scopes.now formula.now n) }
{
    let plain = is_letless(formula);
    if !plain {
        return Err(AllocError);
    }
    let depth = depth_of(formula);
    // S48: a formula nests at most eight past operators.
    let high = depth > 8;
    if high {
        return Err(AllocError);
    }
    let frame = frame_of(alloc, bounds.states, depth)?;
    let setting = Setting {
        bounds,
        layout: table,
        scopes,
        universe,
        frame: &frame,
    };
    let all = formula_row(alloc, gates, &setting, formula)?;
    let node = value_at_loop(alloc, gates, choices, &frame, &all)?;
    Ok(node)
}

/// Adds the roots of the formulas, in order.
#[tactic(auto, using(bmc_windows::proofs::PushLemmas::push_kept))]
fn add_roots<G: Gates>(
    alloc: Global,
    gates: &mut G,
    choices: &NodeList,
    target: &Target,
    bounds: &Bounds,
    table: &Layout,
    universe: Universe,
    roots: &mut NodeList,
) -> Result<(), AllocError>
    requires choices { AllIn (G.belongs gates.old) choices.now }
    requires universe { IsUniverseOf target.now.scopes universe }
    requires roots { AllIn (G.belongs gates.old) roots.old }
    ensures keeps { Keeps G.belongs G.node_value gates.old gates.new }
    ensures belongs { AllIn (G.belongs gates.new) roots.new }
    ensures count { OnOk result (length roots.new ≡ length roots.old + length target.now.formulas) }
    ensures kept { OnOk result ((k : ℕ) (n : CircuitNode) → slice_get roots.old k ≡ Some n →
        slice_get roots.new k ≡ Some n) }
    ensures says { OnOk result (AreChoices (G.node_value gates.old) bounds.now.states
        table.now.loops choices.now
        → (k : ℕ) (f : FormulaTree) (n : CircuitNode) → slice_get target.now.formulas k ≡ Some f →
        slice_get roots.new (length roots.old + k) ≡ Some n
        → SaysRoot (G.node_value gates.new) bounds.now table.now target.now.scopes f n) }
{
    let formulas = target.formulas.as_slice();
    for place in 0..formulas.len() {
        let formula = &formulas[place];
        let root = root_of(
            alloc,
            gates,
            choices,
            bounds,
            table,
            &target.scopes,
            universe,
            formula,
        )?;
        roots.push(root)?;
    }
    Ok(())
}

/// The circuit of a target over the table of its bounds, whose variables have these numbers. Its error is want of memory,
/// or that a formula is no form of the kernel or nests more than eight past operators.
pub fn encode<G: Gates>(
    alloc: Global,
    target: &Target,
    bounds: &Bounds,
    table: &Layout,
    gates: &mut G,
) -> Result<Encoded, AllocError>
    ensures keeps { Keeps G.belongs G.node_value gates.old gates.new }
    ensures belongs { IfOk result (λ e. G.belongs gates.new e.sure) }
    ensures roots { IfOk result (λ e. AllIn (G.belongs gates.new) e.roots) }
    ensures count { IfOk result (λ e. length e.roots ≡ length target.now.formulas + 1) }
    ensures says { IfOk result (λ e. IsEncoded bounds.now target.now.scopes target.now.formulas
        table.now (G.node_value gates.new) e.sure e.roots) }
{
    let choices = loop_choices(alloc, gates, bounds.states, table.loops)?;
    let first = keeps_numbers(alloc, gates, bounds, table, &target.scopes)?;
    let mut roots = NodeList::new(alloc);
    roots.push(first)?;
    let universe = universe_of(alloc, &target.scopes)?;
    add_roots(
        alloc, gates, &choices, target, bounds, table, universe, &mut roots,
    )?;
    let sure = only_one(gates, &choices)?;
    Ok(Encoded { sure, roots })
}
