//! The model of a leader election in a ring.

ghost use Rattle.std.specs.Prelude.{◌≡◌, IfOk, string_bytes};
ghost use Rattle.answer_texts.specs.Ring.{elect_line, ring_text};

use std::alloc::{AllocError, Global};

/// The model, up to the numbers of its command.
pub const MODEL: &[u8] = b"open util/ordering[Id]
sig Id {}
sig Node { id: one Id, succ: one Node, var inbox: set Id, var outbox: set Id }
var sig Elected in Node {}
fact identities { all i: Id | lone id.i }
fact ring { all n: Node | Node in n.^succ }
pred start { no Elected no inbox outbox = id }
pred send[n: Node] {
  some i: n.outbox { outbox' = outbox - n->i inbox' = inbox + n.succ->i }
  Elected' = Elected
}
pred process[n: Node] {
  some i: n.inbox {
    inbox' = inbox - n->i
    outbox' = (gt[i, n.id] => outbox + n->i else outbox)
    Elected' = (i = n.id => Elected + n else Elected)
  }
}
pred stutter { outbox' = outbox inbox' = inbox Elected' = Elected }
fact transitions { start always (stutter or some n: Node | send[n] or process[n]) }
pred elect { eventually some Elected }
assert safe { always lone Elected }
";

/// The line of its command, which asks for a node that is elected within just as many steps as that takes.
fn elect_line(alloc: Global, nodes: u32) -> Result<String, AllocError>
    ensures { IfOk result (λ line. string_bytes line ≡ elect_line nodes) }
{
    let steps = 2 * u64::from(nodes) + 1;
    format!(in alloc; "run elect for exactly {nodes} Id, exactly {nodes} Node, {steps} steps\n")
}

/// A model of a ring of so many nodes, each of which passes on the greatest identifier that it knows, and its command.
///
/// Chang and Roberts, "An improved algorithm for decentralized extrema-finding in circular configurations of processes"
/// (1979).
pub fn ring_text(alloc: Global, nodes: u32) -> Result<Vec<u8>, AllocError>
    ensures { IfOk result (λ text. text.items ≡ ring_text nodes) }
{
    let line = elect_line(alloc, nodes)?;
    let mut text = Vec::new(alloc);
    text.extend_from_slice(MODEL)?;
    text.extend_from_slice(line.as_bytes())?;
    Ok(text)
}
