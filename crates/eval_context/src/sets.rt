//! The sets that are there without evaluation: relations, `univ`, `iden` and the integers.

ghost use Rattle.std.specs.Prelude.{◌≡◌, ◌⊎◌, ◌∷◌, [], ◌+◌, ◌<◌, ◌^◌, ℕ, List, length, IfOk, IfSome, IfNone, OnOk};
ghost use Rattle.core_tuples.specs.Sets.{In};
ghost use Rattle.core_meaning.specs.World.{InRelation, InUniverse, IsInteger};
ghost use Rattle.core_meaning.specs.Operators.{identity_tuples, unary_tuples};
ghost use Rattle.eval_sets.specs.SetOf.{IsSetOf};
ghost use Rattle.eval_context.specs.Settings.{world, IsOfTop};

use crate::setting::Setting;
use crate::sizes::integer_count;
use core_tree::{RelationOp, UnaryRelation};
use core_tuples::{Tuple, TupleSet};
use eval_sets::{EvaluationFault, closure, combine, empty_of, identity, put, turned};
use std::alloc::AllocError;

impl<'a> Setting<'a> {
    /// The set of a relation at a position, where there is such a relation.
    #[tactic(auto, using(crate::proofs::SetLaw::relation_is, crate::proofs::SetLaw::relation_none))]
    pub fn relation(&self, number: usize, position: u64) -> Option<&'a TupleSet>
        ensures some { IfSome result (λ s. IsSetOf s.now
            (InRelation (world self.now) number position)) }
        ensures none { IfNone result ((t : List ℕ) →
            ¬ InRelation (world self.now) number position t) }
    {
        let state = self.lasso().at(position);
        if number < state.len() {
            Some(state.get(number))
        } else {
            None
        }
    }

    /// A copy of a relation's set at a position.
    #[tactic(auto, using(crate::proofs::SetLaw::copied_is))]
    fn relation_copy(&self, number: usize, position: u64) -> Result<TupleSet, EvaluationFault>
        ensures { IfOk result (λ s. IsSetOf s (InRelation (world self.now) number position)) }
    {
        match self.relation(number, position) {
            Some(set) => Ok(set.copy(self.alloc())?),
            None => Ok(empty_of(self.alloc(), 1)),
        }
    }

    /// The set of a sig at a position.
    pub fn sig(&self, sig: u32, position: u64) -> Result<TupleSet, EvaluationFault>
        ensures { IfOk result (λ s. IsSetOf s (InRelation (world self.now) sig position)) }
    {
        self.relation_copy(sig as usize, position)
    }

    /// How many sigs there are.
    fn sig_count(&self) -> usize
        ensures number { result ≡ length (world self.now).top }
        ensures small { result < 2 ^ 63 }
    {
        self.scopes().numbers.as_slice().len()
    }

    /// The set of a field at a position.
    pub fn field(&self, field: u32, position: u64) -> Result<TupleSet, EvaluationFault>
        ensures { IfOk result (λ s. IsSetOf s (InRelation (world self.now)
            (length (world self.now).top + field) position)) }
    {
        let sigs = self.sig_count();
        self.relation_copy(sigs + field as usize, position)
    }

    /// The integers.
    #[tactic(auto, using(crate::proofs::SetLaw::counts_none))]
    pub fn integers(&self) -> Result<TupleSet, EvaluationFault>
        ensures { IfOk result (λ s. IsSetOf s (λ t. (a : ℕ) × IsInteger (world self.now) a
            × (t ≡ a ∷ []))) }
    {
        let mut all = TupleSet::empty(self.alloc(), 1);
        let first = self.atoms();
        for place in 0..integer_count(self.bits()) {
            put(&mut all, Tuple::of(self.alloc(), &[first + place])?)?;
        }
        Ok(all)
    }

    /// A set with the members that a top-level sig has at a position.
    #[tactic(auto, using(crate::proofs::SetLaw::no_top_as_before))]
    fn with_sig(
        &self,
        sig: usize,
        position: u64,
        all: TupleSet,
    ) -> Result<TupleSet, EvaluationFault>
        requires { sig < length self.now.scopes.numbers }
        ensures { IfOk result (λ s. IsSetOf s (λ t. In t all
            ⊎ IsOfTop (world self.now) position sig t)) }
    {
        if !self.scopes().numbers.get(sig).top {
            return Ok(all);
        }
        match self.relation(sig, position) {
            Some(set) => {
                if set.arity() != 1 {
                    return Ok(all);
                }
                Ok(combine(self.alloc(), RelationOp::Union, &all, set)?)
            }
            None => Ok(all),
        }
    }

    /// What `univ` is at a position: the members of the top-level sigs, and the integers.
    #[tactic(auto, using(crate::proofs::SetLaw::reaches_none))]
    pub fn universe(&self, position: u64) -> Result<TupleSet, EvaluationFault>
        ensures { IfOk result (λ s. IsSetOf s (λ t. (a : ℕ) × InUniverse (world self.now) position a
            × (t ≡ a ∷ []))) }
    {
        let mut all = self.integers()?;
        for sig in 0..self.scopes().numbers.len() {
            all = self.with_sig(sig, position, all)?;
        }
        Ok(all)
    }

    /// What `iden` is at a position.
    pub fn iden(&self, position: u64) -> Result<TupleSet, EvaluationFault>
        ensures { IfOk result (λ s. IsSetOf s (identity_tuples (world self.now) position)) }
    {
        let all = self.universe(position)?;
        Ok(identity(self.alloc(), &all)?)
    }

    /// An operator on one set at a position.
    pub fn unary(
        &self,
        op: UnaryRelation,
        a: &TupleSet,
        position: u64,
    ) -> Result<TupleSet, EvaluationFault>
        ensures { IfOk result (λ s. IsSetOf s (unary_tuples (world self.now) position op
            (λ t. In t a.now))) }
    {
        match op {
            UnaryRelation::Transpose => turned(self.alloc(), a),
            UnaryRelation::Closure => closure(self.alloc(), a),
            UnaryRelation::ReflexiveClosure => {
                let walks = closure(self.alloc(), a)?;
                let same = self.iden(position)?;
                Ok(combine(self.alloc(), RelationOp::Union, &walks, &same)?)
            }
        }
    }
}
