//! The choice of the loop, as nodes.

ghost use Rattle.std.specs.Prelude.{◌<◌, IfOk, OnOk};
ghost use Rattle.gate_trait.specs.Built.{Keeps, AllIn};
ghost use Rattle.bmc_leaves.specs.Loops.{AreChoices};

use gate_trait::{Gates, NodeList};
use std::alloc::{AllocError, Global};

/// For each state, whether the loop begins there: the variables of the loop indices. With one state there
/// is no choice. Its error is want of memory, or that there is no state or a variable's number would be too
/// great.
pub fn loop_choices<G: Gates>(
    alloc: Global,
    gates: &mut G,
    states: u32,
    loops: u64,
) -> Result<NodeList, AllocError>
    ensures keeps { Keeps G.belongs G.node_value gates.old gates.new }
    ensures belongs { IfOk result (λ row. AllIn (G.belongs gates.new) row) }
    ensures some { OnOk result (0 < states) }
    ensures choices { IfOk result (λ row. AreChoices (G.node_value gates.new) states loops row) }
{
    if states == 0 || u64::MAX - loops < u64::from(states) {
        return Err(AllocError);
    }
    let mut row = NodeList::new(alloc);
    if states == 1 {
        row.push(gates.constant(true))?;
        return Ok(row);
    }
    for state in 0..states {
        let node = gates.input(loops + u64::from(state))?;
        row.push(node)?;
    }
    Ok(row)
}
