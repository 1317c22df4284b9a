//! Circuits over pairs of variables, each built from the last pair to the first.

ghost use Rattle.std.specs.Prelude.{◌≡◌, ℕ, Bool, IfOk};
ghost use Rattle.gate_trait.specs.Built.{Keeps, Computes};
ghost use Rattle.bound_naming.specs.Naming.{decides, favours, favours_all};

use bound_naming::{Pair, PairList};
use gate_trait::{Gates, Node};
use std::alloc::AllocError;

/// A node with the value of the first of two nodes where these differ, and else that of the rest.
#[tactic(auto, using(crate::proofs::Choosing::decides_by))]
fn decision<G: Gates>(
    gates: &mut G,
    first: Node,
    second: Node,
    rest: Node,
) -> Result<Node, AllocError>
    requires first_belongs { G.belongs gates.old first }
    requires second_belongs { G.belongs gates.old second }
    requires rest_belongs { G.belongs gates.old rest }
    ensures keeps { Keeps G.belongs G.node_value gates.old gates.new }
    ensures ok { IfOk result (λ n. Computes G.belongs G.node_value gates.new n
        (λ x. decides (G.node_value gates.old x first) (G.node_value gates.old x second)
        (G.node_value gates.old x rest))) }
{
    let differ = gates.xor(first, second)?;
    let node = gates.choose(differ, first, rest)?;
    Ok(node)
}

/// A node that says whether a pair has the earlier tuple, where it has just one of the two, and else
/// what the rest says.
fn with_pair<G: Gates>(gates: &mut G, pair: Pair, rest: Node) -> Result<Node, AllocError>
    requires { G.belongs gates.old rest }
    ensures keeps { Keeps G.belongs G.node_value gates.old gates.new }
    ensures ok { IfOk result (λ n. Computes G.belongs G.node_value gates.new n
        (λ x. decides (x pair.earlier) (x pair.later) (G.node_value gates.old x rest))) }
{
    let first = gates.input(pair.earlier)?;
    let second = gates.input(pair.later)?;
    let node = decision(gates, first, second, rest)?;
    Ok(node)
}

/// A node that says whether the first of the pairs that has just one of its two tuples, if there is
/// one, has the earlier.
#[tactic(auto, using(crate::proofs::Choosing::favours_none, crate::proofs::Choosing::favours_more, gate_trait::proofs::KeptLemmas::keeps_trans))]
fn favouring<G: Gates>(gates: &mut G, pairs: &[Pair]) -> Result<Node, AllocError>
    ensures keeps { Keeps G.belongs G.node_value gates.old gates.new }
    ensures ok { IfOk result (λ n. Computes G.belongs G.node_value gates.new n
        (λ x. favours x pairs.now)) }
{
    let mut node = gates.constant(true);
    let mut place = pairs.len();
    while place > 0 {
        place -= 1;
        node = with_pair(gates, pairs[place], node)?;
    }
    Ok(node)
}

/// A node that says whether each list of pairs favours the earlier: of an assignment that tells of a
/// lasso, whether that lasso is canonical.
#[tactic(auto, using(crate::proofs::Choosing::all_none, crate::proofs::Choosing::all_more, gate_trait::proofs::KeptLemmas::keeps_trans))]
pub fn naming<G: Gates>(gates: &mut G, all: &[PairList]) -> Result<Node, AllocError>
    ensures keeps { Keeps G.belongs G.node_value gates.old gates.new }
    ensures ok { IfOk result (λ n. Computes G.belongs G.node_value gates.new n
        (λ x. favours_all x all.now)) }
{
    let mut node = gates.constant(true);
    let mut place = all.len();
    while place > 0 {
        place -= 1;
        let one = favouring(gates, all[place].as_slice())?;
        node = gates.and(one, node)?;
    }
    Ok(node)
}
