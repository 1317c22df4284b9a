//! The atoms of a state as nodes of a graph, with the sets that they are in as words below their names.

use crate::change::{Change, Shown};
use std::alloc::{AllocError, Global};
use view_quotes::{push_entities, push_number};
use view_trace::{Trace, owner_of};

/// Something that a node has to show.
#[derive(Clone, Copy, Debug, PartialEq, Eq)]
pub struct Word {
    /// The atom of the node.
    pub atom: u32,
    /// The relation in which the atom alone is a tuple. Without it there is only the node.
    pub relation: Option<usize>,
    /// What the tuple is next to the state before.
    pub change: Change,
}

/// Writes the name of the node of an atom in a state.
pub fn push_node_name(out: &mut Vec<u8>, state: usize, atom: u32) -> Result<(), AllocError> {
    out.extend_from_slice(b"s")?;
    push_number(out, state as u64)?;
    out.extend_from_slice(b"_")?;
    push_number(out, u64::from(atom))
}

/// Adds what a tuple asks of the nodes of its ends.
fn push_ends(words: &mut Vec<Word>, relation: usize, tuple: &Shown<'_>) -> Result<(), AllocError> {
    let change = tuple.change;
    match tuple.tuple {
        [] => {}
        [atom] => {
            words.push(Word {
                atom: *atom,
                relation: Some(relation),
                change,
            })?;
        }
        [first, .., last] => {
            words.push(Word {
                atom: *first,
                relation: None,
                change,
            })?;
            words.push(Word {
                atom: *last,
                relation: None,
                change,
            })?;
        }
    }
    Ok(())
}

/// What the nodes of a state have to show, atom by atom.
pub fn words_of(alloc: Global, tables: &[Vec<Shown<'_>>]) -> Result<Vec<Word>, AllocError> {
    let mut words: Vec<Word> = Vec::new(alloc);
    for (relation, table) in tables.iter().enumerate() {
        for tuple in table.iter() {
            push_ends(&mut words, relation, tuple)?;
        }
    }
    words.sort_by_key(|word| word.atom)?;
    Ok(words)
}

/// The label of the relation that a word names, and whether it is the sig that gives the atom its name.
fn label_of<'a>(trace: &Trace<'a>, word: &Word) -> Option<(&'a [u8], bool)> {
    let relation = trace.relations.get(word.relation?)?;
    let owner = owner_of(trace.names.name(word.atom));
    Some((relation.label, relation.label == owner))
}

/// How the label of a set begins and ends below the name of an atom.
fn marks_of(change: Change) -> (&'static [u8], &'static [u8]) {
    match change {
        Change::Same => (b"".as_slice(), b"".as_slice()),
        Change::New => (
            b"<font color=\"#1a7f37\"><b>+ ".as_slice(),
            b"</b></font>".as_slice(),
        ),
        Change::Gone => (
            b"<font color=\"#cf222e\"><s>- ".as_slice(),
            b"</s></font>".as_slice(),
        ),
    }
}

/// Writes the label of a set below the name of an atom.
fn push_word(out: &mut Vec<u8>, trace: &Trace, word: &Word) -> Result<(), AllocError> {
    let Some((label, is_owner)) = label_of(trace, word) else {
        return Ok(());
    };
    if is_owner {
        return Ok(());
    }
    let (begin, end) = marks_of(word.change);
    out.extend_from_slice(b"<br/>")?;
    out.extend_from_slice(begin)?;
    push_entities(out, label)?;
    out.extend_from_slice(end)
}

/// Begins the node of an atom.
fn push_begin(out: &mut Vec<u8>, trace: &Trace, state: usize, atom: u32) -> Result<(), AllocError> {
    out.extend_from_slice(b"    ")?;
    push_node_name(out, state, atom)?;
    out.extend_from_slice(b" [label=<")?;
    push_entities(out, trace.names.name(atom))
}

/// Writes the nodes of a state, each with its words.
fn push_labels(
    out: &mut Vec<u8>,
    trace: &Trace,
    state: usize,
    words: &[Word],
) -> Result<(), AllocError> {
    let mut current: Option<u32> = None;
    for word in words {
        if current != Some(word.atom) {
            if current.is_some() {
                out.extend_from_slice(b">];\n")?;
            }
            push_begin(out, trace, state, word.atom)?;
            current = Some(word.atom);
        }
        push_word(out, trace, word)?;
    }
    if current.is_some() {
        out.extend_from_slice(b">];\n")?;
    }
    Ok(())
}

/// The attributes of a node whose atom is new or gone.
fn style_of(change: Change) -> &'static [u8] {
    match change {
        Change::Same => b"".as_slice(),
        Change::New => b" [color=\"#1a7f37\", penwidth=2];\n".as_slice(),
        Change::Gone => {
            b" [color=\"#cf222e\", fontcolor=\"#cf222e\", style=\"rounded,dashed\"];\n".as_slice()
        }
    }
}

/// Writes that an atom is new or gone, where a word says so.
fn push_style(
    out: &mut Vec<u8>,
    trace: &Trace,
    state: usize,
    word: &Word,
) -> Result<(), AllocError> {
    let Some((_, is_owner)) = label_of(trace, word) else {
        return Ok(());
    };
    if !is_owner || word.change == Change::Same {
        return Ok(());
    }
    out.extend_from_slice(b"    ")?;
    push_node_name(out, state, word.atom)?;
    out.extend_from_slice(style_of(word.change))
}

/// Writes the nodes of a state.
pub fn push_nodes(
    out: &mut Vec<u8>,
    trace: &Trace,
    state: usize,
    words: &[Word],
) -> Result<(), AllocError> {
    push_labels(out, trace, state, words)?;
    for word in words {
        push_style(out, trace, state, word)?;
    }
    Ok(())
}
