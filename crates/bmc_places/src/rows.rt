//! Rows that are made of rows: connectives.

ghost use Rattle.std.specs.Prelude.{IfOk, length};
ghost use Rattle.gate_trait.specs.Built.{Keeps, AllIn};
ghost use Rattle.bmc_stack.specs.Rows.{IsNegated};
ghost use Rattle.bmc_stack.specs.Logic.{IsImplied};
ghost use Rattle.bmc_places.specs.Rows.{IsBoth, IsIff, IsElse, IsHeld};

use bmc_stack::windows::{both, part};
use gate_trait::{Gates, NodeList};
use std::alloc::{AllocError, Global};

/// Where a row doesn't hold.
pub fn opposite<G: Gates>(alloc: Global, gates: &G, f: &NodeList) -> Result<NodeList, AllocError>
    requires { AllIn (G.belongs gates.now) f.now }
    ensures belongs { IfOk result (λ row. AllIn (G.belongs gates.now) row) }
    ensures negated { IfOk result (λ row. IsNegated (G.node_value gates.now) f.now row) }
{
    let row = gate_temporal::negated(alloc, gates, f)?;
    Ok(row)
}

/// Where the second row holds wherever the first does. Its error is want of memory, or that the rows are of
/// different lengths.
pub fn implied<G: Gates>(
    alloc: Global,
    gates: &mut G,
    f: &NodeList,
    g: &NodeList,
) -> Result<NodeList, AllocError>
    requires f_belongs { AllIn (G.belongs gates.old) f.now }
    requires g_belongs { AllIn (G.belongs gates.old) g.now }
    ensures keeps { Keeps G.belongs G.node_value gates.old gates.new }
    ensures belongs { IfOk result (λ row. AllIn (G.belongs gates.new) row) }
    ensures implied { IfOk result (λ row. IsImplied (G.node_value gates.old)
        (G.node_value gates.new) f.now g.now (length f.now) row) }
{
    let other = opposite(alloc, gates, g)?;
    let fails = both(alloc, gates, f, &other)?;
    let row = opposite(alloc, gates, &fails)?;
    Ok(row)
}

/// Where both rows hold or neither does. Its error is want of memory, or that the rows are of different
/// lengths.
pub fn iff<G: Gates>(
    alloc: Global,
    gates: &mut G,
    f: &NodeList,
    g: &NodeList,
) -> Result<NodeList, AllocError>
    requires f_belongs { AllIn (G.belongs gates.old) f.now }
    requires g_belongs { AllIn (G.belongs gates.old) g.now }
    ensures keeps { Keeps G.belongs G.node_value gates.old gates.new }
    ensures belongs { IfOk result (λ row. AllIn (G.belongs gates.new) row) }
    ensures iff { IfOk result (λ row. IsIff (G.node_value gates.old) (G.node_value gates.new) f.now
        g.now row) }
{
    let first = implied(alloc, gates, f, g)?;
    let second = implied(alloc, gates, g, f)?;
    let row = both(alloc, gates, &first, &second)?;
    Ok(row)
}

/// Where the second row holds at the places of the first, and the third at the others. Its error is want of
/// memory, or that the rows are of different lengths.
pub fn if_else<G: Gates>(
    alloc: Global,
    gates: &mut G,
    f: &NodeList,
    g: &NodeList,
    h: &NodeList,
) -> Result<NodeList, AllocError>
    requires f_belongs { AllIn (G.belongs gates.old) f.now }
    requires g_belongs { AllIn (G.belongs gates.old) g.now }
    requires h_belongs { AllIn (G.belongs gates.old) h.now }
    ensures keeps { Keeps G.belongs G.node_value gates.old gates.new }
    ensures belongs { IfOk result (λ row. AllIn (G.belongs gates.new) row) }
    ensures chooses { IfOk result (λ row. IsElse (G.node_value gates.old) (G.node_value gates.new)
        f.now g.now h.now row) }
{
    let first = implied(alloc, gates, f, g)?;
    let other = opposite(alloc, gates, f)?;
    let second = implied(alloc, gates, &other, h)?;
    let row = both(alloc, gates, &first, &second)?;
    Ok(row)
}

/// Where the first row holds and, at the places of the part of this number of the third, the second. Its
/// error is want of memory, or that the rows are of different lengths.
pub fn held_where<G: Gates>(
    alloc: Global,
    gates: &mut G,
    f: &NodeList,
    g: &NodeList,
    nodes: &NodeList,
    from: usize,
    count: usize,
) -> Result<NodeList, AllocError>
    requires f_belongs { AllIn (G.belongs gates.old) f.now }
    requires g_belongs { AllIn (G.belongs gates.old) g.now }
    requires nodes_belongs { AllIn (G.belongs gates.old) nodes.now }
    ensures keeps { Keeps G.belongs G.node_value gates.old gates.new }
    ensures belongs { IfOk result (λ row. AllIn (G.belongs gates.new) row) }
    ensures held { IfOk result (λ row. IsHeld (G.node_value gates.old) (G.node_value gates.new)
        f.now g.now nodes.now from row) }
{
    if usize::MAX - from < count {
        return Err(AllocError);
    }
    let other = opposite(alloc, gates, g)?;
    let there = part(alloc, gates, nodes, from, from + count)?;
    let fails = both(alloc, gates, &other, &there)?;
    let stays = opposite(alloc, gates, &fails)?;
    let row = both(alloc, gates, f, &stays)?;
    Ok(row)
}

/// Where the first row holds and the part of this number of the second. Its error is want of memory, or that the
/// parts are of different lengths.
pub fn both_part<G: Gates>(
    alloc: Global,
    gates: &mut G,
    f: &NodeList,
    nodes: &NodeList,
    from: usize,
    count: usize,
) -> Result<NodeList, AllocError>
    requires f_belongs { AllIn (G.belongs gates.old) f.now }
    requires nodes_belongs { AllIn (G.belongs gates.old) nodes.now }
    ensures keeps { Keeps G.belongs G.node_value gates.old gates.new }
    ensures belongs { IfOk result (λ row. AllIn (G.belongs gates.new) row) }
    ensures both { IfOk result (λ row. IsBoth (G.node_value gates.old) (G.node_value gates.new)
        f.now nodes.now from row) }
{
    if usize::MAX - from < count {
        return Err(AllocError);
    }
    let there = part(alloc, gates, nodes, from, from + count)?;
    let row = both(alloc, gates, f, &there)?;
    Ok(row)
}
