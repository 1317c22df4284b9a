//! The names in scope, with their types: variables, parameters and `let` names.

ghost use Rattle.std.specs.Prelude.{◌≡◌, ◌<◌, ◌≤◌, IfSome, IfNone, Some, None};
ghost use Rattle.std.specs.Option.{option_copied};
ghost use Rattle.std.specs.Str.{bytes_eq};
ghost use Rattle.resolve_read.specs.At.{Scope, scope_of, type_of, with_decls, with_name, with_names, with_values};

use resolve_types::Columns;
use syntax_tree::{Binding, Decl, Expr, Named};

/// The names in scope, with their types. What stands in a list stands in it from the outside in.
#[derive(Clone, Copy)]
pub enum Locals<'a> {
    /// No names.
    Empty,
    /// A name inside the others.
    One(&'a str, &'a Columns, &'a Locals<'a>),
    /// The names of declarations inside the others, and the type of each bound.
    Declared(&'a [Decl<Expr>], &'a [Columns], &'a Locals<'a>),
    /// The names of a `let` inside the others, and the type of each value.
    Bound(&'a [Binding<Expr>], &'a [Columns], &'a Locals<'a>),
}

/// Whether two texts are the same.
pub fn same_text(a: &str, b: &str) -> bool
    ensures { result ≡ bytes_eq a.now b.now }
{
    a.as_bytes() == b.as_bytes()
}

/// The type that is found with a name more inside the others.
fn with_name<'a>(
    found: Option<&'a Columns>,
    name: &str,
    columns: &'a Columns,
    text: &str,
) -> Option<&'a Columns>
    ensures { (outer : Scope) → option_copied found.entry ≡ type_of text.now outer
        → option_copied result ≡ type_of text.now (with_name outer name.now columns.now) }
{
    if same_text(name, text) {
        return Some(columns);
    }
    found
}

/// The type that is found with a list of names inside the others, which have one type.
fn with_names<'a>(
    found: Option<&'a Columns>,
    names: &[Named],
    columns: &'a Columns,
    text: &str,
) -> Option<&'a Columns>
    ensures { (outer : Scope) → option_copied found.entry ≡ type_of text.now outer
        → option_copied result ≡ type_of text.now (with_names outer names.now columns.now) }
{
    let mut all = found;
    for one in names {
        all = with_name(all, one.name.text(), columns, text);
    }
    all
}

/// The lesser of two numbers.
fn least(a: usize, b: usize) -> usize
    ensures first { result ≤ a }
    ensures second { result ≤ b }
    ensures whole { result < a → result < b → ⊥ }
{
    if a < b { a } else { b }
}

/// The type that is found with the names of declarations inside the others.
fn with_decls<'a>(
    found: Option<&'a Columns>,
    decls: &[Decl<Expr>],
    types: &'a [Columns],
    text: &str,
) -> Option<&'a Columns>
    ensures { (outer : Scope) → option_copied found.entry ≡ type_of text.now outer
        → option_copied result ≡ type_of text.now (with_decls outer decls.now types.now) }
{
    let mut all = found;
    for place in 0..least(decls.len(), types.len()) {
        all = with_names(all, decls[place].names.as_slice(), &types[place], text);
    }
    all
}

/// The type that is found with the names of a `let` inside the others.
fn with_values<'a>(
    found: Option<&'a Columns>,
    bindings: &[Binding<Expr>],
    types: &'a [Columns],
    text: &str,
) -> Option<&'a Columns>
    ensures { (outer : Scope) → option_copied found.entry ≡ type_of text.now outer
        → option_copied result ≡ type_of text.now (with_values outer bindings.now types.now) }
{
    let mut all = found;
    for place in 0..least(bindings.len(), types.len()) {
        all = with_name(all, bindings[place].name.text(), &types[place], text);
    }
    all
}

/// The type of the innermost name in scope that is written so, as an option.
fn found_in<'a>(locals: &Locals<'a>, text: &str) -> Option<&'a Columns>
    ensures { option_copied result ≡ type_of text.now (scope_of locals.now) }
{
    match locals {
        Locals::Empty => None,
        Locals::One(name, columns, outer) => {
            let found = found_in(outer, text);
            with_name(found, name, columns, text)
        }
        Locals::Declared(decls, types, outer) => {
            let found = found_in(outer, text);
            with_decls(found, decls, types, text)
        }
        Locals::Bound(bindings, types, outer) => {
            let found = found_in(outer, text);
            with_values(found, bindings, types, text)
        }
    }
}

/// The type of the innermost name in scope that is written so.
pub fn type_of<'a>(locals: &Locals<'a>, text: &str) -> Option<&'a Columns>
    ensures some { IfSome result (λ c. type_of text.now (scope_of locals.now) ≡ Some c.now) }
    ensures none { IfNone result (type_of text.now (scope_of locals.now) ≡ None) }
{
    found_in(locals, text)
}
