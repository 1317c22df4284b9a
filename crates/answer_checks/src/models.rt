//! Tests whether a model keeps what resolved models keep.

ghost use Rattle.std.specs.Prelude.{IfOk, IsTrue};
ghost use Rattle.core_tree.specs.Models.{IsModel};
ghost use Rattle.core_laws.specs.Typed.{ExtendsPlain};
ghost use Rattle.resolve_check.specs.Kept.{IsModelButTypes};
ghost use Rattle.answer_checks.specs.Parts.{ExtendsPlainSig, IsPlainKind, IsPlainAt};

use crate::laws::typed_models_are_models;
use core_tree::{Model, Sig, SigKind, SigList};
use resolve_type_check::keeps_types;
use std::alloc::{AllocError, Global};

/// Whether a sig is no `in` sig.
fn is_plain(kind: &SigKind) -> bool
    ensures { IsTrue result → IsPlainKind kind.now }
{
    match kind {
        SigKind::Top => true,
        SigKind::Extends(_) => true,
        SigKind::Subset(_) => false,
    }
}

/// Whether the sig of this number, if there is one, is no `in` sig.
fn is_plain_at(sigs: &[Sig], number: usize) -> bool
    ensures { IsTrue result → IsPlainAt sigs.now number }
{
    if number >= sigs.len() {
        return true;
    }
    is_plain(&sigs[number].kind)
}

/// Whether a sig extends no `in` sig.
fn extends_plain_sig(sigs: &[Sig], kind: &SigKind) -> bool
    ensures { IsTrue result → ExtendsPlainSig sigs.now kind.now }
{
    match kind {
        SigKind::Top => true,
        SigKind::Extends(parent) => is_plain_at(sigs, *parent as usize),
        SigKind::Subset(_) => true,
    }
}

/// Whether no sig extends an `in` sig.
fn extend_plain(sigs: &[Sig]) -> bool
    ensures { IsTrue result → ExtendsPlain sigs.now }
{
    for place in 0..sigs.len() {
        if !extends_plain_sig(sigs, &sigs[place].kind) {
            return false;
        }
    }
    true
}

/// Whether no sig extends an `in` sig.
pub fn extends_plain(sigs: &SigList) -> bool
    ensures { IsTrue result → ExtendsPlain sigs.now }
{
    extend_plain(sigs.as_slice())
}

/// Whether a model that keeps all but the types of its fields keeps these too. Errors where memory runs out.
pub fn is_typed_model(alloc: Global, model: &Model) -> Result<bool, AllocError>
    requires { IsModelButTypes model.now }
    ensures { IfOk result (λ b. IsTrue b → IsModel model.now) }
{
    typed_models_are_models();
    let typed = keeps_types(alloc, model)?;
    Ok(typed)
}
