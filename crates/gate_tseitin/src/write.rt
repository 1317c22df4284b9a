//! The clauses of a circuit: definitions, then one unit for each root.

ghost use Rattle.std.specs.Prelude.{◌≡◌, ◌+◌, ◌<◌, ◌≤◌, ◌++◌, Bool, List, All, map, length, IfOk, OnOk};
ghost use Rattle.gate_trait.specs.NodeWords.{number_of};
ghost use Rattle.gate_trait.specs.Circuit.{BelongsTo, IsLayered};
ghost use Rattle.gate_tseitin.specs.Folded.{AreKept};
ghost use Rattle.gate_tseitin.specs.Named.{unit_of, names_from, input_count, variable_count};
ghost use Rattle.gate_tseitin.specs.Reached.{AreReached};
ghost use Rattle.gate_tseitin.specs.Written.{AreNumbered, IsWritten};

use crate::define::{add_clause, define_all};
use crate::fold::kept_of;
use crate::names::{Names, names_of};
use crate::reach::reached;
use gate_store::CircuitStore;
use gate_trait::{Node, NodeList};
use sat_dimacs::{ClauseList, Cnf};
use std::alloc::{AllocError, Global};

/// Adds for each node the clause that it is true.
fn add_units(alloc: Global, cnf: &mut Cnf, names: &Names, roots: &[Node]) -> Result<(), AllocError>
    requires room { names.now.count ≤ cnf.old.variables }
    requires there { All (λ n. number_of n < length names.now.list.items) roots.now }
    ensures variables { OnOk result (cnf.new.variables ≡ cnf.old.variables) }
    ensures units { OnOk result (cnf.new.clauses ≡ cnf.old.clauses
        ++ map (unit_of names.now.list.items) roots.now) }
{
    for root in roots {
        add_clause(alloc, cnf, names, &[*root])?;
    }
    Ok(())
}

/// The clauses that define the kept gates, by these variables, and say that `sure` is true; and
/// then the units.
fn clauses_with(
    alloc: Global,
    store: &CircuitStore,
    names: &Names,
    marks: &[bool],
    kept: &[bool],
    sure: Node,
    roots: &[Node],
) -> Result<Cnf, AllocError>
    requires named { names.now.list.items ≡ names_from kept.now (input_count store.now + 1) 0
        store.now }
    requires counted { names.now.count ≡ variable_count kept.now store.now }
    requires reached { AreReached store.now sure roots.now marks.now }
    requires kept { AreKept store.now sure roots.now marks.now kept.now }
    requires layered { IsLayered store.now }
    requires sure_there { BelongsTo store.now sure }
    requires roots_there { All (λ n. BelongsTo store.now n) roots.now }
    requires inputs { AreNumbered store.now }
    ensures written { IfOk result (λ cnf. IsWritten store.now sure roots.now cnf.variables
        cnf.clauses) }
    ensures variables { IfOk result (λ cnf. cnf.variables ≡ names.now.count) }
{
    let mut cnf = Cnf {
        variables: names.count,
        clauses: ClauseList::new(alloc),
    };
    define_all(alloc, &mut cnf, names, store, marks, kept)?;
    add_clause(alloc, &mut cnf, names, &[sure])?;
    add_units(alloc, &mut cnf, names, roots)?;
    Ok(cnf)
}

/// The circuit as clauses (the encoding of Tseitin). The first define the gates that `sure` or a
/// root reaches and say that `sure` is true; the last are one for each root in order, which say
/// that it is true by its literal alone.
///
/// The inputs are the first variables, under their own numbers, and each other gate that is reached
/// has one of the numbers after them, but for an `and` that stands only once, as an operand of
/// another that isn't negated: that one is defined by all leaves. For each assignment of the inputs
/// under which `sure` is true, one and only one assignment of the first clauses extends it, and
/// there each root's literal has the root's value. No assignment of the first clauses has `sure`
/// false. There are no more variables than the inputs and the gates that are reached and not folded
/// have. The only error is want of memory.
pub fn write_clauses(
    alloc: Global,
    store: &CircuitStore,
    sure: Node,
    roots: &NodeList,
) -> Result<Cnf, AllocError>
    requires sure_there { BelongsTo store.now sure }
    requires roots_there { All (λ n. BelongsTo store.now n) roots.now }
    requires inputs { AreNumbered store.now }
    ensures written { IfOk result (λ cnf. IsWritten store.now sure roots.now cnf.variables
        cnf.clauses) }
    ensures fewest { IfOk result (λ cnf. (marks : List Bool) →
        AreReached store.now sure roots.now marks
        → cnf.variables ≤ variable_count marks store.now) }
    ensures folded { IfOk result (λ cnf. (marks kept : List Bool) →
        AreReached store.now sure roots.now marks → AreKept store.now sure roots.now marks kept
        → cnf.variables ≤ variable_count kept store.now) }
{
    let nodes = roots.as_slice();
    let marks = reached(alloc, store, sure, nodes)?;
    let kept = kept_of(alloc, store, sure, nodes, &marks)?;
    let names = names_of(alloc, store, sure, &kept)?;
    let cnf = clauses_with(alloc, store, &names, &marks, &kept, sure, nodes)?;
    Ok(cnf)
}
