//! Laws of readings: by the types of its declarations a text says one thing.
//!
//! `resolve_said` says what each form of a text says, where the names are taken to stand for what is told, and `resolve_read`
//! that what is told is what the readings of the roots choose. The laws say that the readings leave no choice: two ways to take
//! the names of an expression, by both of which its roots are read, agree on them, and an expression says one thing by all ways
//! that agree on its names. The functions do nothing; a caller that needs a law calls its function.
#![tactic(auto)]

ghost use Rattle.resolve_laws.specs.Needed.{LinksAreNeeded};
ghost use Rattle.resolve_laws.specs.One.{FormulasAreOne, ValuesAreOne};
ghost use Rattle.resolve_laws.specs.Readings.{BoundsAgree, FormulasAgree, RootsAgree};
ghost use Rattle.resolve_laws.specs.Rows.{RightRowsHaveLinks};
ghost use Rattle.resolve_laws.specs.Said.{SaidIsOne};

/// A law: by its reading a root means one thing, and its names are taken in one way.
pub fn roots_agree()
    ensures { RootsAgree }
{}

/// A law: by the readings of its roots the names of a formula are taken in one way.
pub fn formulas_agree()
    ensures { FormulasAgree }
{}

/// A law: by its reading a bound has one type, and its names are taken in one way.
pub fn bounds_agree()
    ensures { BoundsAgree }
{}

/// A law: what an expression says is one thing, by all ways to take its names that agree on them, where each row of operators
/// has one.
pub fn said_is_one()
    ensures { SaidIsOne }
{}

/// A law: where a row of operators may have none, an expression may say two things.
pub fn links_are_needed()
    ensures { LinksAreNeeded }
{}

/// A law: a tree that keeps the rules of levels has an operand behind the first of each row.
pub fn right_rows_have_links()
    ensures { RightRowsHaveLinks }
{}

/// A law: by the types of the declarations an expression says one value.
pub fn values_are_one()
    ensures { ValuesAreOne }
{
    said_is_one();
    roots_agree();
    right_rows_have_links();
}

/// A law: by the types of the declarations a formula says one thing.
pub fn formulas_are_one()
    ensures { FormulasAreOne }
{
    said_is_one();
    formulas_agree();
    right_rows_have_links();
}
