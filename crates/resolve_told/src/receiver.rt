//! What stands before the dot of a predicate or function, and in its brackets.

ghost use Rattle.std.specs.Prelude.{◌≡◌, option_map, IfOk};
ghost use Rattle.syntax_tree.specs.declared.expr.Expr.TheVariants as trees;
ghost use Rattle.resolve_told.specs.Parameters.{as_expr, decls_of};

use base_lists::Items;
use base_types::Name;
use std::alloc::{AllocError, Global};
use syntax_tree::{Constant, Decl, Expr as Tree, Parameters, QualName, SigName};

fn copied_parts(alloc: Global, parts: &[Name]) -> Result<Items<Name>, AllocError>
    ensures { IfOk result (λ all. all ≡ parts.now) }
{
    let mut all = Items::new(alloc);
    for part in parts {
        let copy = Name::copy(alloc, part.text())?;
        all.push(copy)?;
    }
    Ok(all)
}

/// A name as an expression.
fn name_tree(alloc: Global, name: &QualName) -> Result<Tree, AllocError>
    ensures { IfOk result (λ t. t ≡ trees.Name name.now) }
{
    let parts = copied_parts(alloc, name.parts.as_slice())?;
    Ok(Tree::Name(QualName {
        place: name.place,
        is_own: name.is_own,
        parts,
    }))
}

/// The name of a sig as an expression.
fn sig_tree(alloc: Global, name: &SigName) -> Result<Tree, AllocError>
    ensures { IfOk result (λ t. t ≡ as_expr name.now) }
{
    match name {
        SigName::Int(place) => Ok(Tree::Constant(*place, Constant::Int)),
        SigName::Name(name) => {
            let tree = name_tree(alloc, name)?;
            Ok(tree)
        }
    }
}

/// What stands before the dot, as an expression.
pub fn receiver_tree(alloc: Global, receiver: &Option<SigName>) -> Result<Option<Tree>, AllocError>
    ensures { IfOk result (λ t. t ≡ option_map as_expr receiver.now) }
{
    match receiver {
        None => Ok(None),
        Some(name) => {
            let tree = sig_tree(alloc, name)?;
            Ok(Some(tree))
        }
    }
}

/// What stands in brackets.
pub fn decls_of(parameters: &Option<Parameters>) -> &[Decl<Tree>]
    ensures { result.now ≡ decls_of parameters.now }
{
    match parameters {
        None => &[],
        Some(parameters) => parameters.decls.as_slice(),
    }
}
