//! Laws of lines: what passes follows from the clauses, and what is written is read again.
//!
//! The functions do nothing; a caller that needs a law calls it.

ghost use Rattle.std.specs.Prelude.{Bool, map, [], ◌∷◌, ◌++◌};
ghost use Rattle.std.specs.Fmt.{signed_decimal};
ghost use Rattle.std.specs.List.{AllByRecursion};
ghost use Rattle.sat_lrat.specs.Text.{lemma_after};
ghost use Rattle.sat_lrat.specs.Words.{IsNumber, IsVariable, number_words};
ghost use Rattle.base_words.specs.Words.{positive_of};
ghost use Rattle.std.specs.Prelude.{◌≡◌, ◌<◌, ◌≤◌, ◌^◌, ℕ, Some, decimal, List, ℤ, Ok, IsTrue};
ghost use Rattle.sat_lrat.specs.declared.line.Line.{Line};
ghost use Rattle.sat_lrat.specs.Step.{State, step, start, is_empty_lemma, Follows, Refutes, IsUnsatisfiable};

/// A law: the clauses of a formula follow from it.
pub fn start_is_sound()
    ensures { (formula : List (List ℤ)) → Follows formula (start formula) }
{}

/// A law: where the standing clauses follow from a formula, they still do after a line that passes, and the formula has
/// no satisfying assignment after an empty lemma that passes.
pub fn step_is_sound()
    ensures follows { (formula : List (List ℤ)) (state : State) (line : Line) (next : State) →
        step state line ≡ Ok next → Follows formula state → Follows formula next }
    ensures refutes { (formula : List (List ℤ)) (state : State) (line : Line) (next : State) →
        step state line ≡ Ok next → IsTrue (is_empty_lemma line) → Follows formula state →
        IsUnsatisfiable formula }
{}

/// A law: no assignment satisfies a formula that a list of lines refutes.
pub fn refutation_is_sound()
    ensures { (formula : List (List ℤ)) (lines : List Line) → Refutes formula lines →
        IsUnsatisfiable formula }
{}

/// A law: a number that is written is read again.
pub fn numbers_are_read_again()
    ensures { (limit number : ℕ) → limit < 2 ^ 64 → 0 < number → number ≤ limit →
        positive_of limit (decimal number) ≡ Some number }
{}

/// A law: words that write literals and hints behind the number of a lemma are read as that lemma again.
pub fn lemmas_are_read_again()
    ensures { (cut : Bool) (id : ℕ) (hints : List ℕ) → AllByRecursion IsNumber hints →
        (literals : List ℤ) → AllByRecursion IsVariable literals →
        lemma_after cut id [] (map signed_decimal literals ++ (48 ∷ []) ∷ number_words hints)
        ≡ Ok (Line.Lemma id literals hints) }
{}
