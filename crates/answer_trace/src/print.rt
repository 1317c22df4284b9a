//! Writing a trace: its first line, and each state with a line for each relation.

ghost use Rattle.std.specs.Prelude.{◌≡◌, ◌++◌, ◌<◌, length, OnOk, IfOk, flat_map, codes, decimal, slice_get};
ghost use Rattle.answer_trace.specs.Text.{atom_text, tuple_text, tuples_text, set_text, relation_text, state_text, nth_state_text, header_text, states_text, trace_text};

use crate::label::{Labels, RelationLabel, Shown, TextList};
use core_meaning::{Lasso, State};
use core_tuples::Keyed;
use itoa::Buffer;
use std::alloc::{AllocError, Global};

/// Writes an arrow and an atom.
fn push_next(out: &mut Vec<u8>, atoms: &TextList, number: u32) -> Result<(), AllocError>
    ensures { OnOk result (out.new.items ≡ out.old.items ++ codes "->"
        ++ atom_text atoms.now number) }
{
    out.extend_from_slice(b"->")?;
    push_atom(out, atoms, number)
}

/// Writes an atom.
#[tactic(auto, using(std::proofs::lemmas::List::get_or_past))]
fn push_atom(out: &mut Vec<u8>, atoms: &TextList, number: u32) -> Result<(), AllocError>
    ensures { OnOk result (out.new.items ≡ out.old.items ++ atom_text atoms.now number) }
{
    if number as usize >= atoms.len() {
        return Ok(());
    }
    out.extend_from_slice(atoms.get(number as usize).text().as_bytes())
}

/// Writes a tuple: its atoms joined by arrows.
pub fn push_tuple(out: &mut Vec<u8>, atoms: &TextList, tuple: &[u32]) -> Result<(), AllocError>
    ensures { OnOk result (out.new.items ≡ out.old.items ++ tuple_text atoms.now tuple.now) }
{
    let [first, rest @ ..] = tuple else {
        return Ok(())
    };
    push_atom(out, atoms, *first)?;
    for number in rest {
        push_next(out, atoms, *number)?;
    }
    Ok(())
}

/// Writes a comma, a blank and a tuple.
fn push_next_tuple(out: &mut Vec<u8>, atoms: &TextList, tuple: &[u32]) -> Result<(), AllocError>
    ensures { OnOk result (out.new.items ≡ out.old.items ++ codes ", "
        ++ tuple_text atoms.now tuple.now) }
{
    out.extend_from_slice(b", ")?;
    push_tuple(out, atoms, tuple)
}

/// Writes a blank and a tuple.
fn push_first_tuple(out: &mut Vec<u8>, atoms: &TextList, tuple: &[u32]) -> Result<(), AllocError>
    ensures { OnOk result (out.new.items ≡ out.old.items ++ codes " "
        ++ tuple_text atoms.now tuple.now) }
{
    out.extend_from_slice(b" ")?;
    push_tuple(out, atoms, tuple)
}

/// Writes tuples with a comma and a blank before each.
fn push_further_tuples(
    out: &mut Vec<u8>,
    atoms: &TextList,
    tuples: &[Keyed],
) -> Result<(), AllocError>
    ensures { OnOk result (out.new.items ≡ out.old.items ++ flat_map (λ u.
        codes ", " ++ tuple_text atoms.now u) tuples.now) }
{
    for tuple in tuples {
        push_next_tuple(out, atoms, tuple.numbers())?;
    }
    Ok(())
}

/// Writes tuples: a blank before each, and a comma after each but the last.
pub fn push_tuples(out: &mut Vec<u8>, atoms: &TextList, tuples: &[Keyed]) -> Result<(), AllocError>
    ensures { OnOk result (out.new.items ≡ out.old.items ++ tuples_text atoms.now tuples.now) }
{
    let [first, rest @ ..] = tuples else {
        return Ok(())
    };
    push_first_tuple(out, atoms, first.numbers())?;
    push_further_tuples(out, atoms, rest)
}

/// Writes the tuples of the set at a place of a state, where there is one.
#[tactic(auto, using(std::proofs::lemmas::Option::slice_get_past))]
fn push_set(
    out: &mut Vec<u8>,
    atoms: &TextList,
    state: &State,
    place: usize,
) -> Result<(), AllocError>
    ensures { OnOk result (out.new.items ≡ out.old.items
        ++ set_text atoms.now (slice_get state.now place)) }
{
    if place >= state.len() {
        return Ok(());
    }
    push_tuples(out, atoms, state.get(place).keyed())
}

/// Writes the line of a relation, where it has one.
fn push_relation(
    out: &mut Vec<u8>,
    atoms: &TextList,
    state: &State,
    relation: &RelationLabel,
) -> Result<(), AllocError>
    ensures { OnOk result (out.new.items ≡ out.old.items
        ++ relation_text atoms.now state.now relation.now) }
{
    match relation.shown {
        Shown::Line => {
            out.extend_from_slice(relation.label.text().as_bytes())?;
            out.extend_from_slice(b" =")?;
            push_set(out, atoms, state, relation.place as usize)?;
            out.push(b'\n')?;
            Ok(())
        }
        Shown::Nothing => Ok(()),
        Shown::Just(_) => Ok(()),
    }
}

/// Writes the lines of relations.
fn push_relations(
    out: &mut Vec<u8>,
    atoms: &TextList,
    state: &State,
    relations: &[RelationLabel],
) -> Result<(), AllocError>
    ensures { OnOk result (out.new.items ≡ out.old.items
        ++ flat_map (λ r. relation_text atoms.now state.now r) relations.now) }
{
    for relation in relations {
        push_relation(out, atoms, state, relation)?;
    }
    Ok(())
}

/// Writes a number.
fn push_decimal(out: &mut Vec<u8>, number: u32) -> Result<(), AllocError>
    ensures { OnOk result (out.new.items ≡ out.old.items ++ decimal number) }
{
    let mut buffer = Buffer::new();
    out.extend_from_slice(buffer.format(number).as_bytes())
}

/// Writes a state with its number.
fn push_state(
    out: &mut Vec<u8>,
    labels: &Labels,
    number: u32,
    state: &State,
) -> Result<(), AllocError>
    ensures { OnOk result (out.new.items ≡ out.old.items
        ++ state_text labels.now number state.now) }
{
    out.extend_from_slice(b"state ")?;
    push_decimal(out, number)?;
    out.push(b'\n')?;
    push_relations(out, &labels.atoms, state, labels.relations.as_slice())
}

/// Writes the first line.
fn push_header(out: &mut Vec<u8>, count: u32, loop_start: u32) -> Result<(), AllocError>
    ensures { OnOk result (out.new.items ≡ out.old.items ++ header_text count loop_start) }
{
    out.extend_from_slice(b"trace states ")?;
    push_decimal(out, count)?;
    out.extend_from_slice(b" loop ")?;
    push_decimal(out, loop_start)?;
    out.push(b'\n')?;
    Ok(())
}

/// Writes the states.
fn push_states(out: &mut Vec<u8>, labels: &Labels, lasso: &Lasso) -> Result<(), AllocError>
    ensures { OnOk result (out.new.items ≡ out.old.items
        ++ states_text labels.now lasso.now.states (length lasso.now.states)) }
{
    for number in 0..lasso.states() {
        push_nth(out, labels, lasso, number)?;
    }
    Ok(())
}

/// Writes the state at a place.
#[tactic(auto, using(crate::proofs::Places::shown_at))]
fn push_nth(
    out: &mut Vec<u8>,
    labels: &Labels,
    lasso: &Lasso,
    number: u32,
) -> Result<(), AllocError>
    requires { number < length lasso.now.states }
    ensures { OnOk result (out.new.items ≡ out.old.items
        ++ nth_state_text labels.now number (slice_get lasso.now.states number)) }
{
    push_state(out, labels, number, lasso.at(u64::from(number)))
}

/// The text of a lasso under labels: its number of states and loop index, then for each
/// state a line for each relation that has one, then `end`.
pub fn print_trace(alloc: Global, labels: &Labels, lasso: &Lasso) -> Result<Vec<u8>, AllocError>
    ensures { IfOk result (λ text. text.items ≡ trace_text labels.now lasso.now) }
{
    let mut out = Vec::new(alloc);
    push_header(&mut out, lasso.states(), lasso.loop_start())?;
    push_states(&mut out, labels, lasso)?;
    out.extend_from_slice(b"end\n")?;
    Ok(out)
}
