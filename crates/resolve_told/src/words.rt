//! Texts and words are compared.

ghost use Rattle.std.specs.Prelude.{◌≡◌, IsTrue};
ghost use Rattle.std.specs.Str.{bytes_eq};
ghost use Rattle.resolve_told.specs.Bodies.{HasWord, bound_word};

use core_tree::Multiplicity;
use syntax_tree::Multiplicity as Word;

/// Whether two texts have the same bytes.
pub fn have_same(a: &str, b: &str) -> bool
    ensures { result ≡ bytes_eq a.now b.now }
{
    a.as_bytes() == b.as_bytes()
}

/// Whether two texts are the same.
pub fn same_text(a: &str, b: &str) -> bool
    ensures { IsTrue result → a.now ≡ b.now }
{
    let is_same = have_same(a, b);
    is_same
}

/// Whether a bound with this word, or without one, may have the multiplicity.
pub fn has_word(word: Option<Word>, multiplicity: Multiplicity) -> bool
    ensures { IsTrue result → HasWord word multiplicity }
{
    match word {
        None => matches!(multiplicity, Multiplicity::One | Multiplicity::Set),
        Some(Word::Set) => matches!(multiplicity, Multiplicity::Set),
        Some(Word::One) => matches!(multiplicity, Multiplicity::One),
        Some(Word::Lone) => matches!(multiplicity, Multiplicity::Lone),
        Some(Word::Some) => matches!(multiplicity, Multiplicity::Some),
    }
}

/// Whether it is the multiplicity of a parameter's bound with this word, or without one, and so many columns.
pub fn is_bound_word(word: Option<Word>, columns: u32, multiplicity: Multiplicity) -> bool
    ensures { IsTrue result → multiplicity ≡ bound_word word columns }
{
    match word {
        None => {
            if columns == 1 {
                return matches!(multiplicity, Multiplicity::One);
            }
            matches!(multiplicity, Multiplicity::Set)
        }
        Some(Word::Set) => matches!(multiplicity, Multiplicity::Set),
        Some(Word::One) => matches!(multiplicity, Multiplicity::One),
        Some(Word::Lone) => matches!(multiplicity, Multiplicity::Lone),
        Some(Word::Some) => matches!(multiplicity, Multiplicity::Some),
    }
}

/// Whether two numbers are the same.
pub fn same_number(a: u32, b: u32) -> bool
    ensures { IsTrue result → a ≡ b }
{
    a == b
}
