//! Settles a root, and gives its resolved tree with its type.

use base_types::Position;
use core_tree::{Expr, Formula};
use resolve_context::faults::Broken;
use resolve_context::meanings::formula_meaning;
use resolve_context::state::{PickAt, Root, Setting, State, note_at};
use resolve_drafts::{Built, CallSite, Draft, Pick, Reading, Settled, part_of, settle};
use resolve_readings::{Meaning, RootPlace, Unary, What};
use resolve_types::Columns;
use std::alloc::{AllocError, Global};

/// What a part of a text is: a part of a root, or a formula that has its own roots. A formula is
/// none where something in it was refused.
#[derive(Drop)]
pub enum Piece {
    Part(Draft),
    Claim(Option<Formula>),
}

/// A resolved expression with its type.
#[derive(Drop)]
pub struct Resolved {
    pub tree: Expr,
    pub columns: Columns,
}

/// An operator on a draft.
pub fn single(alloc: Global, operator: Unary, inner: Draft) -> Result<Draft, AllocError> {
    Ok(Draft::Single(operator, Box::new(alloc, inner)?))
}

/// The piece in an expression's place. There a formula is never right, not even before an empty box:
/// it stands as in the body of a `let`, where only a set is right.
pub fn draft_of(alloc: Global, piece: Piece) -> Result<Draft, AllocError> {
    match piece {
        Piece::Part(draft) => Ok(draft),
        Piece::Claim(_) => {
            let claim = Draft::Known(formula_meaning(false), Expr::Empty);
            single(alloc, Unary::Body, claim)
        }
    }
}

/// Adds the calls of a reading; none where types alone are wanted.
fn add_calls(
    setting: &Setting<'_>,
    state: &mut State,
    calls: &[CallSite],
) -> Result<(), AllocError> {
    if setting.is_quiet {
        return Ok(());
    }
    for call in calls {
        state.calls.push(*call)?;
    }
    Ok(())
}

/// The sig in whose appended fact, or in the bound of whose field, a root stands.
fn sig_of(setting: &Setting<'_>) -> Option<u32> {
    match setting.above {
        [] => None,
        [own, ..] => Some(*own),
    }
}

/// Adds what the names of a reading stand for.
fn add_picks(setting: &Setting<'_>, state: &mut State, picks: &[Pick]) -> Result<(), AllocError> {
    if setting.is_quiet {
        return Ok(());
    }
    let sig = sig_of(setting);
    for pick in picks {
        state.picks.push(PickAt {
            instance: setting.instance,
            sig,
            pick: *pick,
        })?;
    }
    Ok(())
}

/// The columns of what a root means, and so many more.
fn width(meaning: &Meaning, more: u32) -> u32 {
    match &meaning.what {
        What::Set(columns) => columns.count.saturating_add(more),
        _ => 0,
    }
}

/// The tree and the meaning of a reading; too many columns are noted.
fn taken(
    setting: &Setting<'_>,
    state: &mut State,
    at: Position,
    reading: Reading,
    more: u32,
) -> Option<(Built, Meaning)> {
    let Reading {
        choice: _,
        built,
        meaning,
        calls: _,
        picks: _,
    } = reading;
    let Some(meaning) = meaning else {
        return None;
    };
    // ArityLimit, S47: a relation has at most nine columns.
    if meaning.widest > 9 || width(&meaning, more) > 9 {
        note_at(setting, state, at, Broken::ArityLimit);
    }
    Some((built, meaning))
}

/// Whether something on which the reading of a root depends was refused.
fn is_unjudged(root: &Root, place: RootPlace) -> bool {
    root.is_spoilt || root.is_spoilt_formula && matches!(place, RootPlace::Formula)
}

/// What becomes of a root in its place.
fn outcome_of(
    alloc: Global,
    setting: &Setting<'_>,
    draft: Draft,
    place: RootPlace,
) -> Result<Settled, AllocError> {
    let draft = single(alloc, Unary::Fits(place), draft)?;
    let part = part_of(alloc, &draft)?;
    let outcome = settle(alloc, &setting.known.typing, &draft, &part)?;
    part.put_away();
    draft.put_away();
    Ok(outcome)
}

/// The reading in an outcome, with its calls added.
fn read(
    setting: &Setting<'_>,
    state: &mut State,
    at: Position,
    reading: Reading,
    more: u32,
) -> Result<Option<(Built, Meaning)>, AllocError> {
    add_calls(setting, state, reading.calls.as_slice())?;
    add_picks(setting, state, reading.picks.as_slice())?;
    Ok(taken(setting, state, at, reading, more))
}

/// The reading in an outcome; the refusal is noted where there is none.
fn noted(
    setting: &Setting<'_>,
    state: &mut State,
    at: Position,
    outcome: Settled,
    more: u32,
) -> Result<Option<(Built, Meaning)>, AllocError> {
    let broken = match outcome {
        Settled::Read(reading) => return read(setting, state, at, reading, more),
        Settled::NoReading => Broken::NoReading,
        Settled::Ambiguous => Broken::Ambiguous,
        Settled::TooMany => Broken::TooManyReadings,
    };
    note_at(setting, state, at, broken);
    Ok(None)
}

/// The reading of a root in its place; the refusal is noted where it has none. A root in which something
/// was refused is refused itself only where it has too many readings. Where it is a field's bound, the field
/// has one column more.
fn settled(
    alloc: Global,
    setting: &Setting<'_>,
    state: &mut State,
    root: Root,
    start: Position,
    draft: Draft,
    place: RootPlace,
    more: u32,
) -> Result<Option<(Built, Meaning)>, AllocError> {
    let at = match root.first {
        Some(first) => first,
        None => start,
    };
    if root.is_unknown {
        note_at(setting, state, at, Broken::NoReading);
        return Ok(None);
    }
    let outcome = outcome_of(alloc, setting, draft, place)?;
    if is_unjudged(&root, place) && !matches!(outcome, Settled::TooMany) {
        return Ok(None);
    }
    noted(setting, state, at, outcome, more)
}

/// The expression of a reading, with its type; none where it is none.
fn term_of(found: (Built, Meaning)) -> Option<Resolved> {
    let (built, meaning) = found;
    let Built::Term(tree) = built else {
        return None;
    };
    let Some(columns) = columns_of(meaning) else {
        return None;
    };
    Some(Resolved { tree, columns })
}

/// The type of what a reading means; none where it is no set.
fn columns_of(meaning: Meaning) -> Option<Columns> {
    let Meaning {
        what,
        marked: _,
        relevant: _,
        integer: _,
        widest: _,
    } = meaning;
    match what {
        What::Set(columns) => Some(columns),
        _ => None,
    }
}

/// The formula of a reading; none where it is none.
fn claimed(found: (Built, Meaning)) -> Option<Formula> {
    let (built, _meaning) = found;
    match built {
        Built::Test(formula) => Some(formula),
        _ => None,
    }
}

/// An expression by its reading, in a place where one is wanted.
pub fn settle_term(
    alloc: Global,
    setting: &Setting<'_>,
    state: &mut State,
    root: Root,
    start: Position,
    draft: Draft,
    place: RootPlace,
    more: u32,
) -> Result<Option<Resolved>, AllocError> {
    let found = settled(alloc, setting, state, root, start, draft, place, more)?;
    let Some(found) = found else {
        return Ok(None);
    };
    Ok(term_of(found))
}

/// A comparison or a call of a predicate by its reading.
pub fn settle_test(
    alloc: Global,
    setting: &Setting<'_>,
    state: &mut State,
    root: Root,
    start: Position,
    draft: Draft,
) -> Result<Option<Formula>, AllocError> {
    let place = RootPlace::Formula;
    let found = settled(alloc, setting, state, root, start, draft, place, 0)?;
    let Some(found) = found else {
        return Ok(None);
    };
    Ok(claimed(found))
}

/// The piece in a formula's place: an expression there is read as a call of a predicate.
pub fn formula_of(
    alloc: Global,
    setting: &Setting<'_>,
    state: &mut State,
    root: Root,
    start: Position,
    piece: Piece,
) -> Result<Option<Formula>, AllocError> {
    match piece {
        Piece::Claim(formula) => Ok(formula),
        Piece::Part(draft) => settle_test(alloc, setting, state, root, start, draft),
    }
}
