//! The texts of the library modules.

/// A linear order on a sig.
pub const ORDERING: &str = "module util/ordering[exactly elem]
private one sig Ord { First: set elem, Next: elem -> elem }
fact {
  all e: elem | lone e.(Ord.Next) and lone (Ord.Next).e
  Ord.First = elem - elem.(Ord.Next)
  lone Ord.First
  elem in Ord.First.*(Ord.Next)
}
fun first: lone elem { Ord.First }
fun last: lone elem { elem - (Ord.Next).elem }
fun next: elem -> elem { Ord.Next }
fun prev: elem -> elem { ~(Ord.Next) }
fun nexts[e: elem]: set elem { e.^(Ord.Next) }
fun prevs[e: elem]: set elem { e.^(~(Ord.Next)) }
pred lt[a, b: elem] { a in prevs[b] }
pred gt[a, b: elem] { a in nexts[b] }
pred lte[a, b: elem] { a = b or lt[a, b] }
pred gte[a, b: elem] { a = b or gt[a, b] }
fun larger[a, b: elem]: elem { lt[a, b] => b else a }
fun smaller[a, b: elem]: elem { lt[a, b] => a else b }
fun max[es: set elem]: lone elem { es - es.^(~(Ord.Next)) }
fun min[es: set elem]: lone elem { es - es.^(Ord.Next) }
";

/// Arithmetic and order of integers.
pub const INTEGER: &str = "module util/integer
fun plus[a, b: Int]: Int { a fun/add b }
fun add[a, b: Int]: Int { a fun/add b }
fun minus[a, b: Int]: Int { a fun/sub b }
fun sub[a, b: Int]: Int { a fun/sub b }
fun mul[a, b: Int]: Int { a fun/mul b }
fun div[a, b: Int]: Int { a fun/div b }
fun rem[a, b: Int]: Int { a fun/rem b }
fun negate[a: Int]: Int { 0 fun/sub a }
pred eq[a, b: Int] { a = b }
pred gt[a, b: Int] { a > b }
pred lt[a, b: Int] { a < b }
pred gte[a, b: Int] { a >= b }
pred lte[a, b: Int] { a =< b }
pred zero[a: Int] { a = 0 }
pred pos[a: Int] { a > 0 }
pred neg[a: Int] { a < 0 }
pred nonpos[a: Int] { a =< 0 }
pred nonneg[a: Int] { a >= 0 }
fun signum[a: Int]: Int { a < 0 => (-1) else (a > 0 => 1 else 0) }
fun max: one Int { {i: Int | no j: Int | j > i} }
fun min: one Int { {i: Int | no j: Int | j < i} }
fun next: Int -> Int { {i, j: Int | i < j and no k: Int | i < k and k < j} }
fun prev: Int -> Int { ~next }
fun max[es: set Int]: lone Int { {i: es | no j: es | j > i} }
fun min[es: set Int]: lone Int { {i: es | no j: es | j < i} }
fun nexts[a: Int]: set Int { {i: Int | i > a} }
fun prevs[a: Int]: set Int { {i: Int | i < a} }
fun larger[a, b: Int]: Int { a < b => b else a }
fun smaller[a, b: Int]: Int { a < b => a else b }
";

/// The two truth values as a sig.
pub const BOOLEAN: &str = "module util/boolean
abstract sig Bool {}
one sig True, False extends Bool {}
pred isTrue[b: Bool] { b in True }
pred isFalse[b: Bool] { b in False }
fun Not[b: Bool]: Bool { Bool - b }
fun And[a, b: Bool]: Bool { a = True and b = True => True else False }
fun Or[a, b: Bool]: Bool { (a = True or b = True) => True else False }
fun Xor[a, b: Bool]: Bool { a = b => False else True }
fun Nand[a, b: Bool]: Bool { Not[And[a, b]] }
fun Nor[a, b: Bool]: Bool { Not[Or[a, b]] }
";

/// Properties of relations of two columns.
pub const RELATION: &str = "module util/relation
fun dom[r: univ -> univ]: set univ { r.univ }
fun ran[r: univ -> univ]: set univ { univ.r }
pred total[r: univ -> univ, s: set univ] { all x: s | some x.r }
pred functional[r: univ -> univ, s: set univ] { all x: s | lone x.r }
pred function[r: univ -> univ, s: set univ] { all x: s | one x.r }
pred surjective[r: univ -> univ, s: set univ] { all x: s | some r.x }
pred injective[r: univ -> univ, s: set univ] { all x: s | lone r.x }
pred bijective[r: univ -> univ, s: set univ] { all x: s | one r.x }
pred bijection[r: univ -> univ, d, c: set univ] { function[r, d] and bijective[r, c] }
pred reflexive[r: univ -> univ, s: set univ] { s <: iden in r }
pred irreflexive[r: univ -> univ] { no iden & r }
pred symmetric[r: univ -> univ] { ~r in r }
pred antisymmetric[r: univ -> univ] { ~r & r in iden }
pred transitive[r: univ -> univ] { r.r in r }
pred acyclic[r: univ -> univ, s: set univ] { all x: s | x !in x.^r }
pred complete[r: univ -> univ, s: set univ] { all x, y: s | x != y => x->y in r + ~r }
pred preorder[r: univ -> univ, s: set univ] { reflexive[r, s] and transitive[r] }
pred equivalence[r: univ -> univ, s: set univ] { preorder[r, s] and symmetric[r] }
pred partialOrder[r: univ -> univ, s: set univ] { preorder[r, s] and antisymmetric[r] }
pred totalOrder[r: univ -> univ, s: set univ] { partialOrder[r, s] and complete[r, s] }
";

/// Parts and turns of relations of three columns.
pub const TERNARY: &str = "module util/ternary
fun dom[r: univ -> univ -> univ]: set univ { r.univ.univ }
fun mid[r: univ -> univ -> univ]: set univ { univ.(r.univ) }
fun ran[r: univ -> univ -> univ]: set univ { univ.(univ.r) }
fun select12[r: univ -> univ -> univ]: univ -> univ { r.univ }
fun select23[r: univ -> univ -> univ]: univ -> univ { univ.r }
fun select13[r: univ -> univ -> univ]: univ -> univ { {x, z: univ | some (x.r).z} }
fun flip12[r: univ -> univ -> univ]: univ -> univ -> univ { {y, x, z: univ | x->y->z in r} }
fun flip13[r: univ -> univ -> univ]: univ -> univ -> univ { {z, y, x: univ | x->y->z in r} }
fun flip23[r: univ -> univ -> univ]: univ -> univ -> univ { {x, z, y: univ | x->y->z in r} }
";
