//! What a name says: a name in scope, a field of `this`, or a declaration that is seen.

ghost use Rattle.std.specs.Prelude.{◌≡◌, ℕ, [], true, Contains, IfOk, IfSome, IfNone, Some, None};
ghost use Rattle.core_tree.specs.Trees.{claim_of, combine, field, int, name, sig as sig_of, term_of};
ghost use Rattle.core_tree.specs.declared.operators.RelationOp.TheVariants as relation;
ghost use Rattle.resolve_names.specs.declared.table.Decl.{Decl};
ghost use Rattle.resolve_names.specs.declared.table.Decl.TheVariants as decl;
ghost use Rattle.resolve_names.specs.Visible.{Declaration, Sees};
ghost use Rattle.resolve_picks.specs.declared.target.Target.TheVariants as target;
ghost use Rattle.resolve_picks.specs.Picks.{picked_in};
ghost use Rattle.resolve_said.specs.declared.place.OwnField.{OwnField};
ghost use Rattle.resolve_said.specs.Locals.{number_of, scope_of};
ghost use Rattle.resolve_said.specs.Operators.{IsCall, a_call, a_formula, a_set};
ghost use Rattle.resolve_said.specs.Parts.{said_by};
ghost use Rattle.resolve_names.specs.Gathered.{number_in};
ghost use Rattle.resolve_said.specs.Said.{FieldSays, NameSays, Stands, has_own, standing_of, target_of, text_alone};

use crate::part::{Part, has_value, is_tested, waits};
use crate::place::{OwnField, Site};
use crate::scope::{Locals, find, same_text};
use base_types::Position;
use core_tree::{Expr, Formula, Model, RelationOp};
use resolve_names::{Decl, Names};
use resolve_picks::{Picks, Target};
use std::alloc::{AllocError, Global};
use syntax_tree::{QualName, SigRef};

/// The text of a name that has no path.
pub fn text_alone(name: &QualName) -> Option<&str>
    ensures some { IfSome result (λ t. text_alone name.now ≡ Some t.now) }
    ensures none { IfNone result (text_alone name.now ≡ None) }
{
    if name.is_own {
        return None;
    }
    match name.parts.as_slice() {
        [part] => Some(part.text()),
        _ => None,
    }
}

/// Whether the part is the name of that number.
pub fn is_name(part: &Part<'_>, number: u64) -> bool
    ensures { result ≡ true → said_by part.now ≡ a_set (name number) }
{
    match part {
        Part::Set(expr) => match *expr {
            Expr::Name(found) => *found as u64 == number,
            _ => false,
        },
        _ => false,
    }
}

/// Whether the part is the sig.
fn is_sig(names: &Names, sig: SigRef, part: &Part<'_>) -> bool
    ensures { result ≡ true → said_by part.now ≡ a_set (sig_of (number_in names.now.scopes sig)) }
{
    match part {
        Part::Set(expr) => match *expr {
            Expr::Sig(found) => *found as u64 == sig_number(names, sig),
            _ => false,
        },
        _ => false,
    }
}

/// The number of a sig over all instances.
fn sig_number(names: &Names, sig: SigRef) -> u64
    ensures { result ≡ number_in names.now.scopes sig }
{
    let place = sig.instance as usize;
    if place >= names.scopes.len() {
        return sig.sig as u64;
    }
    names.scopes.get(place).first_sig as u64 + sig.sig as u64
}

/// Whether the part is `Int`.
fn is_int(part: &Part<'_>) -> bool
    ensures { result ≡ true → said_by part.now ≡ a_set int }
{
    match part {
        Part::Set(expr) => match *expr {
            Expr::Int => true,
            _ => false,
        },
        _ => false,
    }
}

/// Whether the part is the field.
fn is_field(number: u32, part: &Part<'_>) -> bool
    ensures { result ≡ true → said_by part.now ≡ a_set (field number) }
{
    match part {
        Part::Set(expr) => match *expr {
            Expr::Field(found) => *found == number,
            _ => false,
        },
        _ => false,
    }
}

/// Whether it is the body, and there is no argument.
fn is_bare(found: u32, body: u32, arguments: &[Expr]) -> bool
    ensures { result ≡ true → (found ≡ body) × (arguments.now ≡ []) }
{
    found == body && arguments.is_empty()
}

/// Whether the expression is the value of the function, which has no parameters.
fn is_value(model: &Model, body: u32, expr: &Expr) -> bool
    ensures { result ≡ true → IsCall model.now.bodies body [] (a_set (term_of expr.now)) }
{
    match expr {
        Expr::Call(found, list) => {
            if !is_bare(*found, body, list.as_slice()) {
                return false;
            }
            has_value(model, body, 0)
        }
        _ => false,
    }
}

/// Whether the formula is that of the predicate, which has no parameters.
fn is_test(model: &Model, body: u32, formula: &Formula) -> bool
    ensures { result ≡ true → IsCall model.now.bodies body []
        (a_formula (claim_of formula.now)) }
{
    match formula {
        Formula::Call(found, list) => {
            if !is_bare(*found, body, list.as_slice()) {
                return false;
            }
            is_tested(model, body, 0)
        }
        _ => false,
    }
}

/// Whether the part is the body without arguments.
fn is_body(model: &Model, body: u32, part: &Part<'_>) -> bool
    ensures { result ≡ true → IsCall model.now.bodies body [] (said_by part.now) }
{
    match part {
        Part::Set(expr) => is_value(model, body, *expr),
        Part::Formula(formula) => is_test(model, body, *formula),
        Part::Call(found, arguments) => {
            if !is_bare(*found, body, *arguments) {
                return false;
            }
            waits(model, body, 0)
        }
    }
}

/// Whether the part is what the declaration says by its name.
fn stands(site: &Site<'_>, decl: Decl, part: &Part<'_>) -> bool
    ensures { result ≡ true → Stands (standing_of site.now) decl (said_by part.now) }
{
    match decl {
        Decl::Sig(sig) => is_sig(site.names, sig, part),
        Decl::Parameter(None) => is_int(part),
        Decl::Parameter(Some(sig)) => is_sig(site.names, sig, part),
        Decl::Field(field) => is_field(field, part),
        Decl::Body(body) => is_body(site.model, body, part),
    }
}

/// Whether the target is the sig.
fn is_sig_target(names: &Names, sig: SigRef, picked: Target) -> bool
    ensures { result ≡ true → picked ≡ target.Sig (number_in names.now.scopes sig) }
{
    match picked {
        Target::Sig(number) => number as u64 == sig_number(names, sig),
        _ => false,
    }
}

/// Whether the target is the integers.
fn is_int_target(picked: Target) -> bool
    ensures { result ≡ true → picked ≡ target.Int }
{
    match picked {
        Target::Int => true,
        _ => false,
    }
}

/// Whether the target is the field.
fn is_field_target(field: u32, picked: Target) -> bool
    ensures { result ≡ true → picked ≡ target.Field field }
{
    match picked {
        Target::Field(number) => number == field,
        _ => false,
    }
}

/// Whether the target is the body.
fn is_body_target(body: u32, picked: Target) -> bool
    ensures { result ≡ true → picked ≡ target.Body body }
{
    match picked {
        Target::Body(number) => number == body,
        _ => false,
    }
}

/// Whether the target is what the declaration is in the model.
pub fn is_target(names: &Names, decl: Decl, picked: Target) -> bool
    ensures { result ≡ true → picked ≡ target_of names.now.scopes decl }
{
    match decl {
        Decl::Sig(sig) => is_sig_target(names, sig, picked),
        Decl::Parameter(None) => is_int_target(picked),
        Decl::Parameter(Some(sig)) => is_sig_target(names, sig, picked),
        Decl::Field(field) => is_field_target(field, picked),
        Decl::Body(body) => is_body_target(body, picked),
    }
}

/// Whether the target is the declaration, and the part is what that says by its name.
fn is_picked(site: &Site<'_>, decl: Decl, picked: Target, part: &Part<'_>) -> bool
    ensures { result ≡ true → Stands (standing_of site.now) decl (said_by part.now)
        × (picked ≡ target_of site.now.names.now.scopes decl) }
{
    is_target(site.names, decl, picked) && stands(site, decl, part)
}

/// Whether the target is one of the declarations, and the part is what that says by its name.
fn any_picked(site: &Site<'_>, decls: &[Decl], picked: Target, part: &Part<'_>) -> bool
    ensures { result ≡ true → (d : Decl) × Contains decls.now d
        × Stands (standing_of site.now) d (said_by part.now)
        × (picked ≡ target_of site.now.names.now.scopes d) }
{
    for decl in decls {
        if is_picked(site, *decl, picked, part) {
            return true;
        }
    }
    false
}

/// Whether the part is what the declaration says that the name is taken to stand for.
fn is_declared(
    alloc: Global,
    site: &Site<'_>,
    name: &QualName,
    part: &Part<'_>,
) -> Result<bool, AllocError>
    ensures { IfOk result (λ b. b ≡ true → (d : Declaration)
        × Sees site.now.names.now.scopes site.now.instance name.now d
        × Stands (standing_of site.now) d.1.what (said_by part.now)
        × (picked_in site.now.picks.now name.now.place
        ≡ Some (target_of site.now.names.now.scopes d.1.what))) }
{
    if site.instance as usize >= site.names.scopes.len() {
        return Ok(false);
    }
    match site.picks.picked(name.place) {
        None => Ok(false),
        Some(picked) => {
            let found = site.names.candidates(alloc, site.instance, name)?;
            Ok(any_picked(site, found.as_slice(), picked, part))
        }
    }
}

/// Whether one of the declarations is the field.
fn has_field(decls: &[Decl], number: u32) -> bool
    ensures { result ≡ true → (d : Decl) × Contains decls.now d × (d ≡ decl.Field number) }
{
    for decl in decls {
        match *decl {
            Decl::Field(found) if found == number => return true,
            _ => {}
        }
    }
    false
}

/// The field that the part is.
fn field_of(part: &Part<'_>) -> Option<u32>
    ensures { IfSome result (λ f. said_by part.now ≡ a_set (field f)) }
{
    match part {
        Part::Set(expr) => match *expr {
            Expr::Field(found) => Some(*found),
            _ => None,
        },
        _ => None,
    }
}

/// Whether the name at this place is taken to stand for the field.
fn is_picked_field(picks: &Picks, place: Position, field: u32) -> bool
    ensures { result ≡ true → picked_in picks.now place ≡ Some (target.Field field) }
{
    match picks.picked(place) {
        None => false,
        Some(picked) => is_field_target(field, picked),
    }
}

/// Whether the part is the field that the name behind `@` is taken to stand for.
pub fn says_field(
    alloc: Global,
    site: &Site<'_>,
    name: &QualName,
    part: &Part<'_>,
) -> Result<bool, AllocError>
    ensures { IfOk result (λ b. b ≡ true → (f : ℕ)
        × FieldSays (standing_of site.now) name.now f × (said_by part.now ≡ a_set (field f))) }
{
    if site.instance as usize >= site.names.scopes.len() {
        return Ok(false);
    }
    match field_of(part) {
        None => Ok(false),
        Some(number) => {
            if !is_picked_field(site.picks, name.place, number) {
                return Ok(false);
            }
            let found = site.names.candidates(alloc, site.instance, name)?;
            Ok(has_field(found.as_slice(), number))
        }
    }
}

/// Whether a field of that name is joined to `this`.
fn has_own(own: &[OwnField], text: &str) -> bool
    ensures { result ≡ has_own own.now text.now }
{
    for one in own {
        if same_text(one.name.text(), text) {
            return true;
        }
    }
    false
}

/// Whether that field is joined to `this` by that name.
fn is_own(own: &[OwnField], text: &str, number: u32) -> bool
    ensures { result ≡ true → (o : OwnField) × Contains own.now o × (o.name ≡ text.now)
        × (o.field ≡ number) }
{
    for one in own {
        if one.field == number && same_text(one.name.text(), text) {
            return true;
        }
    }
    false
}

/// Whether it is the name 0, which is that of `this`.
fn is_this(expr: &Expr) -> bool
    ensures { result ≡ true → term_of expr.now ≡ name 0 }
{
    match expr {
        Expr::Name(number) => *number == 0,
        _ => false,
    }
}

/// The number of a field.
fn number_of_field(expr: &Expr) -> Option<u32>
    ensures { IfSome result (λ f. term_of expr.now ≡ field f) }
{
    match expr {
        Expr::Field(number) => Some(*number),
        _ => None,
    }
}

/// The field in an expression, joined to `this`.
fn joined_field(expr: &Expr) -> Option<u32>
    ensures { IfSome result (λ f. term_of expr.now
        ≡ combine relation.Join (name 0) (field f)) }
{
    match expr {
        Expr::Combine(RelationOp::Join, this, field) => {
            if !is_this(&**this) {
                return None;
            }
            number_of_field(&**field)
        }
        _ => None,
    }
}

/// The field in the part, joined to `this`.
fn own_field_of(part: &Part<'_>) -> Option<u32>
    ensures { IfSome result (λ f. said_by part.now
        ≡ a_set (combine relation.Join (name 0) (field f))) }
{
    match part {
        Part::Set(expr) => joined_field(*expr),
        _ => None,
    }
}

/// Whether the part is the field of that name that the name at this place is taken to stand for,
/// joined to `this`.
fn says_own(site: &Site<'_>, place: Position, text: &str, part: &Part<'_>) -> bool
    ensures { result ≡ true → (o : OwnField) × Contains site.now.own.now o
        × (o.name ≡ text.now)
        × (picked_in site.now.picks.now place ≡ Some (target.Field o.field))
        × (said_by part.now ≡ a_set (combine relation.Join (name 0) (field o.field))) }
{
    match own_field_of(part) {
        None => false,
        Some(number) => is_own(site.own, text, number)
            && is_picked_field(site.picks, place, number),
    }
}

/// Whether the part is what a name without a path says that is none in scope.
fn says_outer(
    alloc: Global,
    site: &Site<'_>,
    locals: &Locals<'_>,
    name: &QualName,
    text: &str,
    part: &Part<'_>,
) -> Result<bool, AllocError>
    ensures { IfOk result (λ b. b ≡ true → text_alone name.now ≡ Some text.now
        → number_of text.now (scope_of locals.now) ≡ None
        → NameSays (standing_of site.now) (scope_of locals.now) name.now (said_by part.now)) }
{
    let _ = locals;
    if has_own(site.own, text) {
        return Ok(says_own(site, name.place, text, part));
    }
    let said = is_declared(alloc, site, name, part)?;
    Ok(said)
}

/// Whether the part is what a name without a path says.
fn says_alone(
    alloc: Global,
    site: &Site<'_>,
    locals: &Locals<'_>,
    name: &QualName,
    text: &str,
    part: &Part<'_>,
) -> Result<bool, AllocError>
    ensures { IfOk result (λ b. b ≡ true → text_alone name.now ≡ Some text.now
        → NameSays (standing_of site.now) (scope_of locals.now) name.now (said_by part.now)) }
{
    let found = find(locals, text)?;
    match found.number {
        Some(number) => Ok(is_name(part, number)),
        None => {
            let said = says_outer(alloc, site, locals, name, text, part)?;
            Ok(said)
        }
    }
}

/// Whether the part is what the name says.
pub fn says_name(
    alloc: Global,
    site: &Site<'_>,
    locals: &Locals<'_>,
    name: &QualName,
    part: &Part<'_>,
) -> Result<bool, AllocError>
    ensures { IfOk result (λ b. b ≡ true
        → NameSays (standing_of site.now) (scope_of locals.now) name.now (said_by part.now)) }
{
    match text_alone(name) {
        None => {
            let said = is_declared(alloc, site, name, part)?;
            Ok(said)
        }
        Some(text) => {
            let said = says_alone(alloc, site, locals, name, text, part)?;
            Ok(said)
        }
    }
}
