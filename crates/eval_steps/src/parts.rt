//! The sets of relations and constants at a position, and the operators on sets that were found.

ghost use Rattle.std.specs.Prelude.{◌≡◌, ◌↔◌, ◌∷◌, [], ◌+◌, ◌<◌, ◌^◌, ℕ, ℤ, length, slice_get, Some, IfOk, IsTrue};
ghost use Rattle.core_tuples.specs.Sets.{In};
ghost use Rattle.core_meaning.specs.Integers.{wrap, result_of};
ghost use Rattle.core_meaning.specs.World.{InRelation, InUniverse, IsInteger, atom_of};
ghost use Rattle.core_meaning.specs.Operators.{combined_tuples, product_tuples, identity_tuples, unary_tuples, IsCount, IsNumber, IsInside, IsEqual, Compares, HasQuantity};
ghost use Rattle.eval_context.specs.Settings.{world};
ghost use Rattle.eval_steps.specs.Judged.{set_in, IsFound};

use crate::held::{Held, set_of};
use crate::judge::Judge;
use core_tree::{Comparison, IntOp, Quantity, RelationOp, UnaryRelation};
use core_tuples::{TupleSet, inside};
use eval_integers::{arithmetic, compare, count_of, literal};
use eval_sets::{EvaluationFault, are_equal, combine, empty_of, has_quantity, paired, single};

/// The empty set.
pub fn nothing<'a>(judge: &Judge<'a>) -> Held<'a>
    ensures { IsFound result (λ _. ⊥) }
{
    Held::Owned(empty_of(judge.alloc(), 1))
}

/// The set of a relation at a position.
pub fn relation_at<'a>(judge: &Judge<'a>, number: usize, position: u64) -> Held<'a>
    ensures { IsFound result (InRelation (world judge.now) number position) }
{
    let setting = judge.setting();
    match setting.relation(number, position) {
        Some(set) => Held::Lent(set),
        None => Held::Owned(empty_of(judge.alloc(), 1)),
    }
}

/// The set of a field at a position: fields' relations come after those of sigs.
pub fn field_of<'a>(judge: &Judge<'a>, field: usize, position: u64) -> Held<'a>
    requires { field < 2 ^ 32 }
    ensures { IsFound result (InRelation (world judge.now) (length (world judge.now).top + field)
        position) }
{
    let setting = judge.setting();
    let sigs = setting.scopes().numbers.as_slice().len();
    relation_at(judge, sigs + field, position)
}

/// What `univ` is at a position.
pub fn universe_at<'a>(judge: &Judge<'a>, position: u64) -> Result<Held<'a>, EvaluationFault>
    ensures { IfOk result (λ held. IsFound held (λ t. (a : ℕ)
        × InUniverse (world judge.now) position a × (t ≡ a ∷ []))) }
{
    let setting = judge.setting();
    let set = setting.universe(position)?;
    Ok(Held::Owned(set))
}

/// What `iden` is at a position.
pub fn identity_at<'a>(judge: &Judge<'a>, position: u64) -> Result<Held<'a>, EvaluationFault>
    ensures { IfOk result (λ held. IsFound held (identity_tuples (world judge.now) position)) }
{
    let setting = judge.setting();
    let set = setting.iden(position)?;
    Ok(Held::Owned(set))
}

/// The integers.
pub fn integers_at<'a>(judge: &Judge<'a>) -> Result<Held<'a>, EvaluationFault>
    ensures { IfOk result (λ held. IsFound held (λ t. (a : ℕ) × IsInteger (world judge.now) a
        × (t ≡ a ∷ []))) }
{
    let setting = judge.setting();
    let set = setting.integers()?;
    Ok(Held::Owned(set))
}

/// The set of one atom.
pub fn one_atom<'a>(judge: &Judge<'a>, atom: u32) -> Result<Held<'a>, EvaluationFault>
    ensures { IfOk result (λ held. IsFound held (λ t. t ≡ atom ∷ [])) }
{
    Ok(Held::Owned(single(judge.alloc(), atom)?))
}

/// The set of one integer, which is wrapped.
pub fn one_integer<'a>(judge: &Judge<'a>, number: i64) -> Result<Held<'a>, EvaluationFault>
    ensures { IfOk result (λ held. IsFound held (λ t. t ≡ atom_of (world judge.now) number ∷ [])) }
{
    let setting = judge.setting();
    let set = literal(setting, number)?;
    Ok(Held::Owned(set))
}

/// An operator on two relations.
pub fn combined<'a>(
    judge: &Judge<'a>,
    op: RelationOp,
    a: &Held,
    b: &Held,
) -> Result<Held<'a>, EvaluationFault>
    ensures { IfOk result (λ held. IsFound held (combined_tuples op (λ t. In t (set_in a.now))
        (λ t. In t (set_in b.now)))) }
{
    let x = set_of(a);
    let y = set_of(b);
    let set = combine(judge.alloc(), op, x, y)?;
    Ok(Held::Owned(set))
}

/// The product.
pub fn multiplied<'a>(judge: &Judge<'a>, a: &Held, b: &Held) -> Result<Held<'a>, EvaluationFault>
    ensures { IfOk result (λ held. IsFound held (product_tuples (λ t. In t (set_in a.now))
        (λ t. In t (set_in b.now)))) }
{
    let x = set_of(a);
    let y = set_of(b);
    let set = paired(judge.alloc(), x, y)?;
    Ok(Held::Owned(set))
}

/// An operator on one relation, at a position.
pub fn transformed<'a>(
    judge: &Judge<'a>,
    op: UnaryRelation,
    a: &Held,
    position: u64,
) -> Result<Held<'a>, EvaluationFault>
    ensures { IfOk result (λ held. IsFound held (unary_tuples (world judge.now) position op
        (λ t. In t (set_in a.now)))) }
{
    let setting = judge.setting();
    let x = set_of(a);
    let set = setting.unary(op, x, position)?;
    Ok(Held::Owned(set))
}

/// The wrapped number of tuples.
pub fn counted<'a>(judge: &Judge<'a>, a: &Held) -> Result<Held<'a>, EvaluationFault>
    ensures { IfOk result (λ held. IsFound held (λ t. (n : ℤ)
        × IsCount (world judge.now) (λ u. In u (set_in a.now)) n
        × (t ≡ atom_of (world judge.now) n ∷ []))) }
{
    let setting = judge.setting();
    let x = set_of(a);
    let set = count_of(setting, x)?;
    Ok(Held::Owned(set))
}

/// An operator on two integers.
pub fn calculated<'a>(
    judge: &Judge<'a>,
    op: IntOp,
    a: &Held,
    b: &Held,
) -> Result<Held<'a>, EvaluationFault>
    ensures { IfOk result (λ held. IsFound held (λ t. (x y : ℤ)
        × IsNumber (world judge.now) (λ u. In u (set_in a.now)) x
        × IsNumber (world judge.now) (λ u. In u (set_in b.now)) y
        × (t ≡ atom_of (world judge.now) (wrap (world judge.now).bits (result_of op x y)) ∷ []))) }
{
    let setting = judge.setting();
    let x = set_of(a);
    let y = set_of(b);
    let set = arithmetic(setting, op, x, y)?;
    Ok(Held::Owned(set))
}

/// Whether one set lies inside another.
pub fn is_inside(a: &Held, b: &Held) -> bool
    ensures { IsTrue result ↔ IsInside (λ t. In t (set_in a.now)) (λ t. In t (set_in b.now)) }
{
    let x = set_of(a);
    let y = set_of(b);
    inside(x, y)
}

/// Whether two sets have the same tuples.
pub fn is_equal(a: &Held, b: &Held) -> bool
    ensures { IsTrue result ↔ IsEqual (λ t. In t (set_in a.now)) (λ t. In t (set_in b.now)) }
{
    let x = set_of(a);
    let y = set_of(b);
    are_equal(x, y)
}

/// Whether a set is as a test asks.
pub fn has(quantity: Quantity, a: &Held) -> bool
    ensures { IsTrue result ↔ HasQuantity quantity (λ t. In t (set_in a.now)) }
{
    let x = set_of(a);
    has_quantity(quantity, x)
}

/// Whether what two sets stand for compares as an operator asks.
pub fn compared(judge: &Judge, op: Comparison, a: &Held, b: &Held) -> Result<bool, EvaluationFault>
    ensures { IfOk result (λ r. IsTrue r ↔ Compares (world judge.now) op (λ t. In t (set_in a.now))
        (λ t. In t (set_in b.now))) }
{
    let setting = judge.setting();
    let x = set_of(a);
    let y = set_of(b);
    compare(setting, op, x, y)
}

/// The atom at a place of a set of one column.
pub fn atom_at(set: &TupleSet, place: usize) -> u32
    requires place { place < length set.now.tuples }
    requires columns { set.now.arity ≡ 1 }
    ensures { slice_get set.now.tuples place ≡ Some (result ∷ []) }
{
    // for the proof: this call's clause says that it is a set of tuples
    let _ = set.len();
    let tuple = set.tuple(place);
    let numbers = tuple.numbers();
    numbers[0]
}
