//! Laws of the texts of traces: a text is that of one lasso, and reading gives that lasso.
//!
//! `answer_trace` defines the text of a lasso, how lines are read, and the labels of a model. The
//! laws say that a text under some labels is of one lasso, which line reading names as the first
//! fault, and that the labels of a model have lassos. Each stands in the clauses of an empty
//! function; a caller that needs it calls it.
#![tactic(auto)]

ghost use Rattle.std.specs.Prelude.{◌≡◌, ◌++◌, ℕ, List, [], ◌∷◌, codes, decimal, Some, true};
ghost use Rattle.core_tuples.specs.Sets.{TupleList};
ghost use Rattle.core_meaning.specs.Sequence.{LassoValue};
ghost use Rattle.answer_trace.specs.Text.{trace_text, tuples_text};
ghost use Rattle.answer_trace.specs.declared.label.Labels.{Labels};
ghost use Rattle.answer_trace.specs.declared.label.RelationLabel.{RelationLabel};
ghost use Rattle.answer_laws.specs.Form.{HasForm, HasLines, HaveLassos, FitsLabels, IsLassoOf};
ghost use Rattle.answer_laws.specs.Fault.{AgreeTo, IsFirstFault, NamesFirst};
ghost use Rattle.answer_trace.specs.Reading.{trace_way, line_set, header_of, is_state_line};
ghost use Rattle.answer_trace.specs.Reading.Way.{on, off};
ghost use Rattle.answer_trace.specs.Faults.{Faults, IsRead};
ghost use Rattle.answer_trace.specs.declared.label.TraceFault.TheVariants as fault;

/// A law: two lassos that fit the same labels, and whose texts under them are equal, are equal.
pub fn texts_are_of_one_lasso()
    ensures { (labels : Labels) (a b : LassoValue) → HasForm labels → FitsLabels labels a →
        FitsLabels labels b → trace_text labels a ≡ trace_text labels b → a ≡ b }
{}

/// A law: the text of each lasso of some labels is read to its end, as that lasso.
pub fn texts_are_read()
    ensures { (labels : Labels) (lasso : LassoValue) → HasLines labels → IsLassoOf labels lasso →
        (lines : ℕ) × (trace_way labels (trace_text labels lasso) ≡ on lasso ([] ∷ []) lines) }
{}

/// A law: where reading a text stops at a line, no text of a lasso of these labels has the same lines up to it.
pub fn no_text_agrees()
    ensures { (labels : Labels) (text : List ℕ) (line : ℕ) (lasso : LassoValue) → HasLines labels →
        IsLassoOf labels lasso → trace_way labels text ≡ off line →
        AgreeTo line (trace_text labels lasso) text → ⊥ }
{}

/// A law: where reading a text stops, that line is the first at which no text of a lasso of these labels has all lines up to
/// it.
pub fn faults_are_first()
    ensures { (labels : Labels) (text : List ℕ) (line : ℕ) → HaveLassos labels →
        trace_way labels text ≡ off line → IsFirstFault labels text line }
{}

/// A law: a text that is read to its end is the text of the lasso that was read, and that is a lasso of the labels.
pub fn reading_is_of_the_text()
    ensures { (labels : Labels) (text : List ℕ) (lasso : LassoValue) (rest : List (List ℕ))
        (lines : ℕ) → HaveLassos labels → trace_way labels text ≡ on lasso rest lines →
        (trace_text labels lasso ≡ text) × IsLassoOf labels lasso }
{}

/// A law: a line that is read is the line of what it gave.
pub fn lines_are_read()
    ensures header { (line : List ℕ) (count start : ℕ) → header_of line ≡ Some (count, start) →
        line ≡ codes "trace states " ++ decimal count ++ codes " loop " ++ decimal start }
    ensures state { (number : ℕ) (line : List ℕ) → is_state_line number line ≡ true →
        line ≡ codes "state " ++ decimal number }
    ensures relation { (labels : Labels) (r : RelationLabel) (line : List ℕ) (set : TupleList) →
        line_set labels.atoms r line ≡ Some set →
        line ≡ r.label ++ codes " =" ++ tuples_text labels.atoms set.tuples }
{}

/// A law: the line that `read_trace` names is the first at which no text of a lasso of the labels has all lines up to it.
pub fn named_lines_are_first()
    ensures { (labels : Labels) (text : List ℕ) (line : ℕ) → HaveLassos labels →
        Faults labels text (fault.BadTrace line) → NamesFirst labels text line }
{}

/// A law: `read_trace` names no line of the text of a lasso of the labels.
pub fn no_line_of_a_lasso_is_named()
    ensures { (labels : Labels) (lasso : LassoValue) (line : ℕ) → HasLines labels →
        IsLassoOf labels lasso → Faults labels (trace_text labels lasso) (fault.BadTrace line) → ⊥ }
{}

/// A law: a lasso that `read_trace` gives is one of the labels.
pub fn read_lassos_are_of_the_labels()
    ensures { (labels : Labels) (text : List ℕ) (lasso : LassoValue) → HaveLassos labels →
        IsRead labels text lasso → IsLassoOf labels lasso }
{}

ghost use Rattle.answer_laws.specs.Labelled.{LabelsHaveLassos};

/// A law: the labels of a model whose sigs and fields have labels of a right form, under scopes of at most 16,384 atoms, are
/// labels under which each text is that of one lasso.
pub fn labels_have_lassos()
    ensures { LabelsHaveLassos }
{}
