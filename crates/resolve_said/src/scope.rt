//! The names in scope: variables, parameters and `let` names.

ghost use Rattle.std.specs.Prelude.{◌≡◌, ◌∷◌, IfOk};
ghost use Rattle.std.specs.Str.{bytes_eq};
ghost use Rattle.resolve_said.specs.Locals.{IsFound, Scope, scope_of, under_decls, under_names, under_values};

use std::alloc::AllocError;
use syntax_tree::{Binding, Decl, Expr, Named};

/// The names in scope. What stands in a list stands in it from the outside in.
#[derive(Clone, Copy)]
pub enum Locals<'a> {
    /// No names.
    Empty,
    /// A name inside the others.
    One(&'a str, &'a Locals<'a>),
    /// The names of declarations inside the others.
    Declared(&'a [Decl<Expr>], &'a Locals<'a>),
    /// The names of a `let` inside the others.
    Bound(&'a [Binding<Expr>], &'a Locals<'a>),
}

/// What was found of a text among names.
#[derive(Clone, Copy, Debug, Drop)]
pub struct Found {
    /// The number of the innermost name of that text.
    pub number: Option<u64>,
    /// How many names there are.
    pub count: u64,
}

/// Whether two texts are the same.
pub fn same_text(a: &str, b: &str) -> bool
    ensures { result ≡ bytes_eq a.now b.now }
{
    a.as_bytes() == b.as_bytes()
}

/// What is found with a name more inside the others.
fn with_name(found: Found, name: &str, text: &str) -> Result<Found, AllocError>
    ensures { IfOk result (λ f. (outer : Scope) → IsFound text.now outer found
        → IsFound text.now (name.now ∷ outer) f) }
{
    let Found { number, count } = found;
    if count >= u64::MAX {
        // So many names don't fit into any text.
        return Err(AllocError);
    }
    if same_text(name, text) {
        return Ok(Found {
            number: Some(count),
            count: count + 1,
        });
    }
    Ok(Found {
        number,
        count: count + 1,
    })
}

/// What is found with a list of names inside the others.
fn with_names(found: Found, names: &[Named], text: &str) -> Result<Found, AllocError>
    ensures { IfOk result (λ f. (outer : Scope) → IsFound text.now outer found
        → IsFound text.now (under_names outer names.now) f) }
{
    let mut all = found;
    for one in names {
        all = with_name(all, one.name.text(), text)?;
    }
    Ok(all)
}

/// What is found with the names of declarations inside the others.
fn with_decls(found: Found, decls: &[Decl<Expr>], text: &str) -> Result<Found, AllocError>
    ensures { IfOk result (λ f. (outer : Scope) → IsFound text.now outer found
        → IsFound text.now (under_decls outer decls.now) f) }
{
    let mut all = found;
    for decl in decls {
        all = with_names(all, decl.names.as_slice(), text)?;
    }
    Ok(all)
}

/// What is found with the names of a `let` inside the others.
fn with_values(found: Found, bindings: &[Binding<Expr>], text: &str) -> Result<Found, AllocError>
    ensures { IfOk result (λ f. (outer : Scope) → IsFound text.now outer found
        → IsFound text.now (under_values outer bindings.now) f) }
{
    let mut all = found;
    for binding in bindings {
        all = with_name(all, binding.name.text(), text)?;
    }
    Ok(all)
}

/// What is found of a text among the names in scope.
pub fn find(locals: &Locals<'_>, text: &str) -> Result<Found, AllocError>
    ensures { IfOk result (λ f. IsFound text.now (scope_of locals.now) f) }
{
    match locals {
        Locals::Empty => Ok(Found {
            number: None,
            count: 0,
        }),
        Locals::One(name, outer) => {
            let found = find(outer, text)?;
            let found = with_name(found, name, text)?;
            Ok(found)
        }
        Locals::Declared(decls, outer) => {
            let found = find(outer, text)?;
            let found = with_decls(found, decls, text)?;
            Ok(found)
        }
        Locals::Bound(bindings, outer) => {
            let found = find(outer, text)?;
            let found = with_values(found, bindings, text)?;
            Ok(found)
        }
    }
}
