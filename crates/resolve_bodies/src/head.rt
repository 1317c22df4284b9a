//! The head of a body: its parameters, which become its first locals, and its result bound.

use base_lists::Items;
use base_types::Name;
use core_tree::{Bound, Expr, Parameter};
use resolve_context::meanings::int_type;
use resolve_expr::candidates::name_draft;
use resolve_expr::expression::prepare;
use resolve_expr::forms::bound_multiplicity;
use resolve_expr::locals::{add_local, number_of};
use resolve_expr::pieces::settle_bound;
use resolve_expr::roots::{Piece, Resolved};
use resolve_expr::state::{Setting, State, new_root};
use resolve_types::Columns;
use std::alloc::{AllocError, Global};
use syntax_tree::{
    Bound as Written, Decl, Expr as Tree, Multiplicity as Word, Paragraph, Parameters, QualName,
    SigName,
};

/// The parameters of a body, and the types that are known of it.
#[derive(Drop)]
pub(crate) struct Head {
    pub parameters: Vec<Parameter>,
    pub types: Items<Columns>,
    /// The result bound of a function.
    pub result: Option<Resolved>,
    pub result_word: Option<Word>,
    /// Whether all bounds have a reading.
    pub is_right: bool,
}

fn parameter_of(
    alloc: Global,
    name: &str,
    apart: u32,
    word: Option<Word>,
    bound: &Resolved,
) -> Result<Parameter, AllocError> {
    Ok(Parameter {
        label: Name::copy(alloc, name)?,
        apart,
        bound: Bound {
            multiplicity: bound_multiplicity(word, bound.columns.count),
            expr: bound.tree.copy(alloc)?,
        },
    })
}

fn add_right(
    alloc: Global,
    state: &mut State,
    name: &str,
    apart: u32,
    word: Option<Word>,
    bound: &Resolved,
    head: &mut Head,
) -> Result<(), AllocError> {
    let columns = bound.columns.copy(alloc)?;
    add_local(alloc, &mut state.locals, name, Some(columns))?;
    head.types.push(bound.columns.copy(alloc)?)?;
    let parameter = parameter_of(alloc, name, apart, word, bound)?;
    head.parameters.push(parameter)?;
    Ok(())
}

fn add_parameter(
    alloc: Global,
    state: &mut State,
    name: &str,
    apart: u32,
    word: Option<Word>,
    bound: &Option<Resolved>,
    head: &mut Head,
) -> Result<(), AllocError> {
    match bound {
        None => {
            head.is_right = false;
            add_local(alloc, &mut state.locals, name, None)?;
            Ok(())
        }
        Some(bound) => add_right(alloc, state, name, apart, word, bound, head),
    }
}

/// From how many of the names before it a name of a list differs.
fn apart_of(is_disjoint: bool, place: usize) -> u32 {
    if is_disjoint { number_of(place) } else { 0 }
}

fn add_parameters(
    alloc: Global,
    state: &mut State,
    decl: &Decl<Tree>,
    bound: &Option<Resolved>,
    head: &mut Head,
) -> Result<(), AllocError> {
    let names = decl.names.as_slice();
    for place in 0..names.len() {
        let apart = apart_of(decl.is_disjoint, place);
        let name = names[place].name.text();
        add_parameter(alloc, state, name, apart, decl.word, bound, head)?;
    }
    Ok(())
}

fn named_bound(
    alloc: Global,
    setting: &Setting<'_>,
    state: &mut State,
    name: &QualName,
) -> Result<Option<Resolved>, AllocError> {
    let mut root = new_root();
    let draft = name_draft(alloc, setting, state, &mut root, name)?;
    let piece = Piece::Part(draft);
    settle_bound(alloc, setting, state, root, name.place, None, piece, 0)
}

/// The bound of the receiver: the sig before the dot.
fn receiver_bound(
    alloc: Global,
    setting: &Setting<'_>,
    state: &mut State,
    receiver: &SigName,
) -> Result<Option<Resolved>, AllocError> {
    match receiver {
        SigName::Int(_) => Ok(Some(Resolved {
            tree: Expr::Int,
            columns: int_type(alloc)?,
        })),
        SigName::Name(name) => named_bound(alloc, setting, state, name),
    }
}

fn add_receiver(
    alloc: Global,
    setting: &Setting<'_>,
    state: &mut State,
    receiver: &Option<SigName>,
    head: &mut Head,
) -> Result<(), AllocError> {
    match receiver {
        None => Ok(()),
        Some(receiver) => {
            let bound = receiver_bound(alloc, setting, state, receiver)?;
            add_parameter(alloc, state, "this", 0, None, &bound, head)
        }
    }
}

fn add_decl(
    alloc: Global,
    setting: &Setting<'_>,
    state: &mut State,
    decl: &Decl<Tree>,
    head: &mut Head,
) -> Result<(), AllocError> {
    let mut root = new_root();
    let piece = prepare(alloc, setting, state, &mut root, false, &decl.bound)?;
    let start = decl.bound_place;
    let bound = settle_bound(alloc, setting, state, root, start, decl.word, piece, 0)?;
    add_parameters(alloc, state, decl, &bound, head)
}

fn add_decls(
    alloc: Global,
    setting: &Setting<'_>,
    state: &mut State,
    decls: &[Decl<Tree>],
    head: &mut Head,
) -> Result<(), AllocError> {
    for decl in decls {
        add_decl(alloc, setting, state, decl, head)?;
    }
    Ok(())
}

fn add_result(
    alloc: Global,
    setting: &Setting<'_>,
    state: &mut State,
    written: &Written,
    head: &mut Head,
) -> Result<(), AllocError> {
    let mut root = new_root();
    let piece = prepare(alloc, setting, state, &mut root, false, &written.tree)?;
    let start = written.place;
    let bound = settle_bound(alloc, setting, state, root, start, written.word, piece, 0)?;
    if bound.is_none() {
        head.is_right = false;
    }
    head.result_word = written.word;
    head.result = bound;
    Ok(())
}

fn new_head(alloc: Global) -> Head {
    Head {
        parameters: Vec::new(alloc),
        types: Items::new(alloc),
        result: None,
        result_word: None,
        is_right: true,
    }
}

fn add_written(
    alloc: Global,
    setting: &Setting<'_>,
    state: &mut State,
    receiver: &Option<SigName>,
    parameters: &Option<Parameters>,
    head: &mut Head,
) -> Result<(), AllocError> {
    add_receiver(alloc, setting, state, receiver, head)?;
    match parameters {
        None => Ok(()),
        Some(parameters) => add_decls(alloc, setting, state, parameters.decls.as_slice(), head),
    }
}

fn fill(
    alloc: Global,
    setting: &Setting<'_>,
    state: &mut State,
    paragraph: &Paragraph,
    head: &mut Head,
) -> Result<(), AllocError> {
    match paragraph {
        Paragraph::Pred(pred) => {
            add_written(
                alloc,
                setting,
                state,
                &pred.receiver,
                &pred.parameters,
                head,
            )
        }
        Paragraph::Fun(fun) => {
            add_written(alloc, setting, state, &fun.receiver, &fun.parameters, head)?;
            add_result(alloc, setting, state, &fun.result, head)
        }
        _ => Ok(()),
    }
}

/// The parameters of a body, which become its first locals, and its result bound.
pub(crate) fn head_of(
    alloc: Global,
    setting: &Setting<'_>,
    state: &mut State,
    paragraph: &Paragraph,
) -> Result<Head, AllocError> {
    state.locals.truncate(0);
    let mut head = new_head(alloc);
    fill(alloc, setting, state, paragraph, &mut head)?;
    Ok(head)
}
