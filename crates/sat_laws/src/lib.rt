//! Laws of the DIMACS and LRAT formats: what is printed is read again, and which lines are right.
//!
//! `sat_dimacs` and `sat_lrat` say what each call reads and writes, by definitions that follow the
//! words. These laws say of the definitions what a reader of the formats expects of them. The
//! functions do nothing; a caller that needs a law calls it.
#![tactic(auto)]

ghost use Rattle.std.specs.Prelude.{◌≡◌, ◌↔◌, ◌⊎◌, Bool, true, ℕ, List, Ok, Err, All};
ghost use Rattle.sat_lrat.specs.Text.{line_of, lines_text};
ghost use Rattle.sat_lrat.specs.declared.line.Line.{Line};
ghost use Rattle.sat_laws.specs.Printed.{HasText, ReadsAs};
ghost use Rattle.sat_laws.specs.Right.{IsRight, HasNegativeHint, IsCutOff};

/// A law: lines are read again from their text, one from where the other ended, where a text may have their numbers.
pub fn printed_lines_are_read_again()
    ensures { (lines : List Line) → All HasText lines → ReadsAs (lines_text 1 lines) 0 lines }
{}

/// A law: which words are read as a line, and which fault the others have, by the grammar of whole lines.
///
/// Words are read as a line where they are a right line. Fault 12 is a negative hint behind the front of a right lemma
/// line with its first 0, and fault 13 is the front of a right line in which the text ends. Every other line has fault 11.
pub fn faults_are_by_fronts()
    ensures right { (cut : Bool) (words : List (List ℕ)) (line : Line) →
        (line_of cut words ≡ Ok line) ↔ IsRight words line }
    ensures negative { (cut : Bool) (words : List (List ℕ)) → (line_of cut words ≡ Err 12)
        ↔ HasNegativeHint words }
    ensures cut_off { (cut : Bool) (words : List (List ℕ)) → (line_of cut words ≡ Err 13)
        ↔ ((cut ≡ true) × IsCutOff words) }
    ensures others { (cut : Bool) (words : List (List ℕ)) (rule : ℕ) →
        line_of cut words ≡ Err rule →
        (rule ≡ 11) ⊎ ((rule ≡ 12) ⊎ (rule ≡ 13)) }
{}

ghost use Rattle.std.specs.Prelude.{◌≡◌, ◌≤◌, false, ℕ, ℤ, List, Ok, All, length};
ghost use Rattle.sat_dimacs.specs.Text.{formula_of, cnf_text, has_feed};
ghost use Rattle.sat_laws.specs.Within.{IsOf};

use sat_dimacs::{MOST_CLAUSES, MOST_VARIABLES};

/// A law: clauses are read again from their text, under every table, within the limits of a header.
pub fn printed_clauses_are_read_again()
    ensures { (table : List (List ℕ)) (variables : ℕ) (clauses : List (List ℤ)) →
        All (λ row. has_feed row ≡ false) table → variables ≤ MOST_VARIABLES →
        length clauses ≤ MOST_CLAUSES → All (All (IsOf variables)) clauses →
        formula_of (cnf_text table variables clauses)
        ≡ Ok (record { variables = variables; clauses = clauses }) }
{}
