//! Makes the predicates and functions of a model, and gathers the calls in them.

use crate::Edge;
use crate::head::{Head, head_of};
use crate::inside::{Inside, inside_of};
use core_tree::{Body, BodyForm, BodyList, Bound, Expr, Formula, Multiplicity, ParameterList};
use resolve_drafts::CallSite;
use resolve_expr::forms::bound_multiplicity;
use resolve_expr::known::Known;
use resolve_expr::locals::number_of;
use resolve_expr::roots::Resolved;
use resolve_expr::state::{Ground, Setting, State};
use resolve_hierarchy::Hierarchy;
use resolve_names::{BodyEntry, Names, paragraph_at};
use std::alloc::{AllocError, Global};
use syntax_tree::{Loaded, Multiplicity as Word, Paragraph};

fn always_true(alloc: Global) -> Formula {
    Formula::Every(Vec::new(alloc))
}

fn result_of(bound: Option<Resolved>, word: Option<Word>) -> Bound {
    match bound {
        None => Bound {
            multiplicity: Multiplicity::Set,
            expr: Expr::Empty,
        },
        Some(bound) => {
            let Resolved { tree, columns } = bound;
            Bound {
                multiplicity: bound_multiplicity(word, columns.count),
                expr: tree,
            }
        }
    }
}

fn form_of(alloc: Global, inside: Inside, bound: Option<Resolved>, word: Option<Word>) -> BodyForm {
    match inside {
        Inside::Test(formula) => BodyForm::Test(formula),
        Inside::Term(tree) => BodyForm::Term(tree, result_of(bound, word)),
        Inside::Nothing => BodyForm::Test(always_true(alloc)),
    }
}

/// The setting of a body's bounds, or of its inside.
fn setting_of<'a>(
    loaded: &'a Loaded,
    names: &'a Names,
    hierarchy: &'a Hierarchy,
    known: &'a Known,
    instance: u32,
    ground: Ground,
) -> Setting<'a> {
    Setting {
        loaded,
        names,
        hierarchy,
        known,
        instance,
        ground,
        above: &[],
        is_quiet: false,
    }
}

fn body_of(alloc: Global, instance: u32, inside: Inside, head: Head) -> Body {
    let Head {
        parameters,
        types: _,
        result: bound,
        result_word: word,
        is_right: _,
    } = head;
    Body {
        instance,
        parameters: ParameterList::from_vec(parameters),
        form: form_of(alloc, inside, bound, word),
        rank: 0,
    }
}

fn written_body(
    alloc: Global,
    bounds: &Setting<'_>,
    inner: &Setting<'_>,
    state: &mut State,
    paragraph: &Paragraph,
) -> Result<Body, AllocError> {
    let head = head_of(alloc, bounds, state, paragraph)?;
    let inside = inside_of(alloc, inner, state, paragraph, &head)?;
    Ok(body_of(alloc, bounds.instance, inside, head))
}

fn no_body(alloc: Global, instance: u32) -> Body {
    Body {
        instance,
        parameters: ParameterList::new(alloc),
        form: BodyForm::Test(always_true(alloc)),
        rank: 0,
    }
}

/// A predicate or a function; its rank is put in later.
fn model_body(
    alloc: Global,
    loaded: &Loaded,
    names: &Names,
    hierarchy: &Hierarchy,
    known: &Known,
    entry: &BodyEntry,
    state: &mut State,
) -> Result<Body, AllocError> {
    let instance = entry.instance;
    let bounds = setting_of(loaded, names, hierarchy, known, instance, Ground::BodyBound);
    let inner = setting_of(loaded, names, hierarchy, known, instance, Ground::Anywhere);
    match paragraph_at(loaded, instance, entry.paragraph) {
        None => Ok(no_body(alloc, instance)),
        Some(paragraph) => written_body(alloc, &bounds, &inner, state, paragraph),
    }
}

fn add_edges(
    edges: &mut Vec<Edge>,
    from: u32,
    instance: u32,
    calls: &[CallSite],
) -> Result<(), AllocError> {
    for call in calls {
        edges.push(Edge {
            from,
            to: call.body,
            instance,
            place: call.place,
        })?;
    }
    Ok(())
}

/// All predicates and functions, and the calls in them, in the order of their bodies.
pub fn model_bodies(
    alloc: Global,
    loaded: &Loaded,
    names: &Names,
    hierarchy: &Hierarchy,
    known: &Known,
    state: &mut State,
    edges: &mut Vec<Edge>,
) -> Result<Vec<Body>, AllocError> {
    let mut all = Vec::new(alloc);
    let entries = names.bodies.as_slice();
    for place in 0..entries.len() {
        let entry = &entries[place];
        state.calls.truncate(0);
        let body = model_body(alloc, loaded, names, hierarchy, known, entry, state)?;
        state.locals.truncate(0);
        all.push(body)?;
        add_edges(
            edges,
            number_of(place),
            entry.instance,
            state.calls.as_slice(),
        )?;
    }
    state.calls.truncate(0);
    Ok(all)
}

fn with_rank(body: Body, rank: u32) -> Body {
    let Body {
        instance,
        parameters,
        form,
        rank: _,
    } = body;
    Body {
        instance,
        parameters,
        form,
        rank,
    }
}

fn rank_at(ranks: &[u32], place: usize) -> u32 {
    match ranks.get(place) {
        None => 0,
        Some(rank) => *rank,
    }
}

/// The bodies with their call ranks.
pub fn ranked(alloc: Global, bodies: Vec<Body>, ranks: &[u32]) -> Result<BodyList, AllocError> {
    let mut all = BodyList::new(alloc);
    let mut place = 0usize;
    for body in bodies {
        all.push(with_rank(body, rank_at(ranks, place)))?;
        place = place.saturating_add(1);
    }
    Ok(all)
}
