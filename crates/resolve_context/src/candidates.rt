//! Gathers the candidates of a name, by where its root stands.

use crate::faults::Broken;
use crate::known::{Known, is_integer, literal_number, sig_type};
use crate::locals::{find_local, number_of};
use crate::meanings::{column_of, formula_meaning, int_type, no_rows, set_meaning};
use crate::state::{Ground, Root, Setting, State, note_at, see};
use base_lists::Items;
use base_types::{Name, Position};
use core_tree::Expr;
use resolve_drafts::{Candidate, Draft, Target};
use resolve_names::Decl;
use resolve_readings::{Meaning, What};
use resolve_types::{Columns, Member};
use std::alloc::{AllocError, Global};
use syntax_tree::{Constant, QualName, SigRef};

/// The only name's text and whether it has no path; of `this/n` and `a/n` it has one.
fn is_simple(name: &QualName) -> bool {
    !name.is_own && name.parts.len() == 1
}

fn last_text(name: &QualName) -> &str {
    match name.parts.as_slice().last() {
        None => "",
        Some(part) => part.text(),
    }
}

fn holds(list: &[u32], number: u32) -> bool {
    for other in list {
        if *other == number {
            return true;
        }
    }
    false
}

/// Whether the field may stand in the bound of a field of that list of the first sig.
fn may_stand(setting: &Setting<'_>, group: u32, field: u32) -> bool {
    match setting.names.fields.as_slice().get(field as usize) {
        None => false,
        Some(entry) => match setting.above {
            [] => false,
            [own, ancestors @ ..] => {
                entry.sig == *own && entry.group < group || holds(ancestors, entry.sig)
            }
        },
    }
}

/// Whether the field may stand where the root stands.
fn is_allowed(setting: &Setting<'_>, field: u32) -> bool {
    match setting.ground {
        Ground::FieldBound(group) => may_stand(setting, group, field),
        _ => true,
    }
}

fn field_instance(setting: &Setting<'_>, field: u32) -> u32 {
    match setting.names.fields.as_slice().get(field as usize) {
        None => u32::MAX,
        Some(entry) => entry.instance,
    }
}

/// Whether the field of that number is one of `this`, with that name.
fn is_own_field(setting: &Setting<'_>, name: &str, number: usize) -> bool {
    let entry = match setting.names.fields.as_slice().get(number) {
        None => return false,
        Some(entry) => entry,
    };
    let field = match setting.known.field_names.as_slice().get(number) {
        None => return false,
        Some(field) => field,
    };
    if field.0.text() != name || field.1 && entry.instance != setting.instance {
        return false;
    }
    match setting.ground {
        Ground::Appended => holds(setting.above, entry.sig),
        Ground::FieldBound(group) => may_stand(setting, group, number_of(number)),
        _ => false,
    }
}

/// The type of a field; where it isn't known the root is spoilt.
fn field_type(
    alloc: Global,
    setting: &Setting<'_>,
    root: &mut Root,
    field: usize,
) -> Result<Option<Columns>, AllocError> {
    match setting.known.fields.as_slice().get(field) {
        Some(Some(columns)) => Ok(Some(columns.copy(alloc)?)),
        _ => {
            root.is_spoilt = true;
            Ok(None)
        }
    }
}

/// The type of `this`.
fn this_type(alloc: Global, setting: &Setting<'_>) -> Result<Columns, AllocError> {
    match setting.above {
        [] => sig_type(alloc, setting.hierarchy, u32::MAX),
        [own, ..] => sig_type(alloc, setting.hierarchy, *own),
    }
}

/// A field joined to `this`.
fn own_field(
    alloc: Global,
    setting: &Setting<'_>,
    root: &mut Root,
    field: usize,
) -> Result<Candidate, AllocError> {
    let number = number_of(field);
    let integer = is_integer(setting.known, field_instance(setting, number));
    let meaning = match field_type(alloc, setting, root, field)? {
        None => formula_meaning(integer),
        Some(columns) => {
            let this = this_type(alloc, setting)?;
            set_meaning(join_types(alloc, setting.known, &this, &columns)?, integer)
        }
    };
    Ok(Candidate {
        target: Target::OwnField(number),
        meaning,
    })
}

/// The join of the type of `this` and that of a field, which has at least two columns.
fn join_types(
    alloc: Global,
    known: &Known,
    left: &Columns,
    right: &Columns,
) -> Result<Columns, AllocError> {
    if left.count < 1 || right.count < 2 {
        return right.copy(alloc);
    }
    left.join(alloc, &known.typing.lines, right)
}

/// The fields of `this` with a name, joined to it.
fn own_fields(
    alloc: Global,
    setting: &Setting<'_>,
    root: &mut Root,
    name: &str,
) -> Result<Items<Candidate>, AllocError> {
    let mut all = Items::new(alloc);
    for number in 0..setting.names.fields.len() {
        if is_own_field(setting, name, number) {
            all.push(own_field(alloc, setting, root, number)?)?;
        }
    }
    Ok(all)
}

fn sig_candidate(
    alloc: Global,
    setting: &Setting<'_>,
    sig: SigRef,
) -> Result<Option<Candidate>, AllocError> {
    let number = match setting.names.sig_number(sig) {
        None => return Ok(None),
        Some(number) => number,
    };
    let columns = sig_type(alloc, setting.hierarchy, number)?;
    let integer = is_integer(setting.known, sig.instance);
    Ok(Some(Candidate {
        target: Target::Sig(number),
        meaning: set_meaning(columns, integer),
    }))
}

fn parameter_candidate(
    alloc: Global,
    setting: &Setting<'_>,
    argument: Option<SigRef>,
) -> Result<Option<Candidate>, AllocError> {
    match argument {
        Some(sig) => sig_candidate(alloc, setting, sig),
        None => Ok(Some(Candidate {
            target: Target::Int,
            meaning: set_meaning(int_type(alloc)?, false),
        })),
    }
}

fn field_candidate(
    alloc: Global,
    setting: &Setting<'_>,
    root: &mut Root,
    field: u32,
) -> Result<Option<Candidate>, AllocError> {
    if !is_allowed(setting, field) {
        return Ok(None);
    }
    let integer = is_integer(setting.known, field_instance(setting, field));
    let meaning = match field_type(alloc, setting, root, field as usize)? {
        Some(columns) => set_meaning(columns, integer),
        None => formula_meaning(integer),
    };
    Ok(Some(Candidate {
        target: Target::Field(field),
        meaning,
    }))
}

fn is_function(known: &Known, body: u32) -> bool {
    match known.functions.as_slice().get(body as usize) {
        None => false,
        Some(is) => *is,
    }
}

fn copy_types(alloc: Global, types: &[Columns]) -> Result<Items<Columns>, AllocError> {
    let mut all = Items::new(alloc);
    for columns in types {
        all.push(columns.copy(alloc)?)?;
    }
    Ok(all)
}

fn copy_type(alloc: Global, columns: &Option<Columns>) -> Result<Option<Columns>, AllocError> {
    match columns {
        None => Ok(None),
        Some(columns) => Ok(Some(columns.copy(alloc)?)),
    }
}

/// What the bare name of a body means.
fn body_what(alloc: Global, known: &Known, body: u32) -> Result<Option<What>, AllocError> {
    let signature = match known.bodies.as_slice().get(body as usize) {
        Some(Some(signature)) => signature,
        _ => return Ok(None),
    };
    let result = copy_type(alloc, &signature.result)?;
    if signature.parameters.is_empty() {
        return match result {
            None => Ok(Some(What::Formula)),
            Some(columns) => Ok(Some(What::Set(columns))),
        };
    }
    let parameters = copy_types(alloc, signature.parameters.as_slice())?;
    Ok(Some(What::Waiting(parameters, result)))
}

fn widest_of(what: &What) -> u32 {
    match what {
        What::Set(columns) => columns.count,
        _ => 0,
    }
}

/// The root names a body whose types aren't known, since a bound of it was refused. In the bound of
/// a parameter or a result that body is a predicate. It is no set whatever its types are, so there
/// it spoils only a root in a formula's place: any other is judged.
fn spoil(setting: &Setting<'_>, root: &mut Root) {
    if setting.is_quiet {
        return;
    }
    match setting.ground {
        Ground::BodyBound => root.is_spoilt_formula = true,
        _ => root.is_spoilt = true,
    }
}

/// What the bare name of a body means; none where its types aren't known.
pub fn body_meaning(
    alloc: Global,
    known: &Known,
    body: u32,
    integer: bool,
) -> Result<Option<Meaning>, AllocError> {
    let Some(what) = body_what(alloc, known, body)? else {
        return Ok(None);
    };
    let widest = widest_of(&what);
    Ok(Some(Meaning {
        what,
        marked: false,
        relevant: true,
        integer,
        widest,
    }))
}

fn body_candidate(
    alloc: Global,
    setting: &Setting<'_>,
    root: &mut Root,
    body: u32,
) -> Result<Option<Candidate>, AllocError> {
    let stands = match setting.ground {
        Ground::FieldBound(_) => false,
        Ground::BodyBound => !is_function(setting.known, body),
        _ => true,
    };
    if !stands {
        return Ok(None);
    }
    let instance = match setting.names.bodies.as_slice().get(body as usize) {
        None => u32::MAX,
        Some(entry) => entry.instance,
    };
    let integer = is_integer(setting.known, instance);
    let meaning = match body_meaning(alloc, setting.known, body, integer)? {
        None => {
            spoil(setting, root);
            formula_meaning(integer)
        }
        Some(meaning) => meaning,
    };
    Ok(Some(Candidate {
        target: Target::Body(body),
        meaning,
    }))
}

/// What a visible declaration is as a candidate.
fn candidate(
    alloc: Global,
    setting: &Setting<'_>,
    root: &mut Root,
    fields_alone: bool,
    decl: Decl,
) -> Result<Option<Candidate>, AllocError> {
    match decl {
        Decl::Field(field) => field_candidate(alloc, setting, root, field),
        _ if fields_alone => Ok(None),
        Decl::Sig(sig) => sig_candidate(alloc, setting, sig),
        // In a field's bound the parameters of other modules don't count.
        Decl::Parameter(argument) => match setting.ground {
            Ground::FieldBound(_) => Ok(None),
            _ => parameter_candidate(alloc, setting, argument),
        },
        Decl::Body(body) => body_candidate(alloc, setting, root, body),
    }
}

/// The parameter of the module with the name, in a field's bound.
fn add_own_parameter(
    alloc: Global,
    setting: &Setting<'_>,
    name: &str,
    all: &mut Items<Candidate>,
) -> Result<(), AllocError> {
    let scope = match setting
        .names
        .scopes
        .as_slice()
        .get(setting.instance as usize)
    {
        None => return Ok(()),
        Some(scope) => scope,
    };
    let mut found = Vec::new(alloc);
    scope.declared.add_seen(true, name, &mut found)?;
    for one in &found {
        if let Decl::Parameter(argument) = *one {
            all.push_some(parameter_candidate(alloc, setting, argument)?)?;
        }
    }
    Ok(())
}

/// The candidates among the visible declarations.
fn declared(
    alloc: Global,
    setting: &Setting<'_>,
    root: &mut Root,
    fields_alone: bool,
    name: &QualName,
) -> Result<Items<Candidate>, AllocError> {
    let mut all = Items::new(alloc);
    if setting.instance as usize >= setting.names.scopes.len() {
        return Ok(all);
    }
    let found = setting.names.candidates(alloc, setting.instance, name)?;
    for decl in found.as_slice() {
        all.push_some(candidate(alloc, setting, root, fields_alone, *decl)?)?;
    }
    let is_bound = matches!(setting.ground, Ground::FieldBound(_));
    if is_bound && !fields_alone && name.parts.len() == 1 {
        add_own_parameter(alloc, setting, last_text(name), &mut all)?;
    }
    Ok(all)
}

/// The one candidate of a local's name.
fn local_candidate(
    alloc: Global,
    state: &State,
    root: &mut Root,
    place: usize,
) -> Result<Items<Candidate>, AllocError> {
    let mut all = Items::new(alloc);
    let meaning = match state.locals.as_slice().get(place) {
        Some(local) => match &local.columns {
            Some(columns) => set_meaning(columns.copy(alloc)?, false),
            None => {
                root.is_spoilt = true;
                formula_meaning(false)
            }
        },
        None => formula_meaning(false),
    };
    all.push(Candidate {
        target: Target::Name(number_of(place)),
        meaning,
    })?;
    Ok(all)
}

/// What a name without a path stands for before the visible declarations are asked.
fn hidden(
    alloc: Global,
    setting: &Setting<'_>,
    state: &State,
    root: &mut Root,
    name: &str,
) -> Result<Items<Candidate>, AllocError> {
    match find_local(state.locals.as_slice(), name) {
        Some(place) => local_candidate(alloc, state, root, place),
        None => own_fields(alloc, setting, root, name),
    }
}

/// Whether fields are joined to `this` there.
fn has_this(ground: Ground) -> bool {
    matches!(ground, Ground::Appended | Ground::FieldBound(_))
}

/// Whether the name is that of a local or a field of `this`.
fn is_hidden(setting: &Setting<'_>, state: &State, name: &str) -> bool {
    if find_local(state.locals.as_slice(), name).is_some() {
        return true;
    }
    if !has_this(setting.ground) {
        return false;
    }
    for number in 0..setting.names.fields.len() {
        if is_own_field(setting, name, number) {
            return true;
        }
    }
    false
}

/// The draft of a name; where it names nothing, that is noted.
fn drafted(
    setting: &Setting<'_>,
    state: &mut State,
    root: &mut Root,
    place: Position,
    all: Items<Candidate>,
) -> Draft {
    if all.is_empty() {
        note_at(setting, state, place, Broken::UnknownName);
        root.is_unknown = true;
    }
    Draft::Name(place, all)
}

/// A name.
pub fn name_draft(
    alloc: Global,
    setting: &Setting<'_>,
    state: &mut State,
    root: &mut Root,
    name: &QualName,
) -> Result<Draft, AllocError> {
    see(root, name.place);
    let text = last_text(name);
    if is_simple(name) && is_hidden(setting, state, text) {
        let all = hidden(alloc, setting, state, root, text)?;
        return Ok(drafted(setting, state, root, name.place, all));
    }
    let all = declared(alloc, setting, root, false, name)?;
    Ok(drafted(setting, state, root, name.place, all))
}

/// A field's name after `@`.
pub fn field_draft(
    alloc: Global,
    setting: &Setting<'_>,
    state: &mut State,
    root: &mut Root,
    name: &QualName,
) -> Result<Draft, AllocError> {
    see(root, name.place);
    let all = declared(alloc, setting, root, true, name)?;
    Ok(drafted(setting, state, root, name.place, all))
}

fn this_draft(
    alloc: Global,
    setting: &Setting<'_>,
    state: &mut State,
    root: &mut Root,
    place: Position,
) -> Result<Draft, AllocError> {
    match find_local(state.locals.as_slice(), "this") {
        Some(local) => {
            let all = local_candidate(alloc, state, root, local)?;
            Ok(Draft::Name(place, all))
        }
        None => {
            note_at(setting, state, place, Broken::UnknownName);
            root.is_unknown = true;
            Ok(Draft::Known(formula_meaning(false), Expr::Empty))
        }
    }
}

/// A word that stands for a set by itself.
pub fn constant_draft(
    alloc: Global,
    setting: &Setting<'_>,
    state: &mut State,
    root: &mut Root,
    place: Position,
    constant: Constant,
) -> Result<Draft, AllocError> {
    see(root, place);
    let known = setting.known;
    match constant {
        Constant::This => this_draft(alloc, setting, state, root, place),
        Constant::Univ => Ok(Draft::Known(set_meaning(known.univ.copy(alloc)?, false), Expr::Univ)),
        Constant::Iden => Ok(Draft::Known(
            set_meaning(known.typing.iden.copy(alloc)?, false),
            Expr::Iden,
        )),
        Constant::None => Ok(Draft::Known(set_meaning(no_rows(alloc, 1), false), Expr::Empty)),
        Constant::Int => Ok(Draft::Known(set_meaning(int_type(alloc)?, false), Expr::Int)),
        Constant::String => Ok(Draft::Known(
            set_meaning(string_type(alloc, known)?, false),
            Expr::Sig(known.string),
        )),
    }
}

fn string_type(alloc: Global, known: &Known) -> Result<Columns, AllocError> {
    column_of(alloc, &[Member::Sig(known.string)])
}

/// A number.
pub fn number_draft(
    alloc: Global,
    root: &mut Root,
    place: Position,
    value: i64,
) -> Result<Draft, AllocError> {
    see(root, place);
    Ok(Draft::Known(
        set_meaning(int_type(alloc)?, false),
        Expr::Number(value, place),
    ))
}

/// A string literal.
pub fn literal_draft(
    alloc: Global,
    setting: &Setting<'_>,
    state: &mut State,
    root: &mut Root,
    place: Position,
    text: &Name,
) -> Result<Draft, AllocError> {
    see(root, place);
    let sig = match literal_number(setting.known, text) {
        None => None,
        Some(number) => after_string(setting.known, number),
    };
    match sig {
        Some(sig) => Ok(Draft::Known(
            set_meaning(string_type(alloc, setting.known)?, false),
            Expr::Sig(sig),
        )),
        None => {
            note_at(setting, state, place, Broken::UnknownName);
            root.is_unknown = true;
            Ok(Draft::Known(formula_meaning(false), Expr::Empty))
        }
    }
}

/// The number of a literal's sig.
fn after_string(known: &Known, number: u32) -> Option<u32> {
    known.string.checked_add(number)?.checked_add(1)
}
