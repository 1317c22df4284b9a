//! The window of positions that shows the truth of formulas with few nested past operators.
#![tactic(auto)]

ghost use Rattle.std.specs.Prelude.{◌≡◌, ◌↔◌, ℕ, ◌+◌, ◌*◌, ◌-◌, ◌<◌, ◌≤◌, List};
ghost use Rattle.core_meaning.specs.Sequence.{LassoValue, period};
ghost use Rattle.core_meaning.specs.World.{World};
ghost use Rattle.core_meaning.specs.Called.{bodies_of};
ghost use Rattle.core_meaning.specs.Meaning.{Holds, InTerm};
ghost use Rattle.core_tree.specs.Past.{body_depths, past_of, past_in};
ghost use Rattle.core_tree.specs.Trees.{Claim, Term};
ghost use Rattle.core_tree.specs.declared.model.Body.{Body};
ghost use Rattle.core_window.specs.Windows.{Binding, atom_names, atom_depths};
ghost use Rattle.core_window.specs.Repeats.{uncounted, IsFar, HasLoop, fold_of, window_end};

/// The first states of a lasso, and one round of its loop more for each level of past operators.
///
/// `states` is the number of states, `loop_start` the loop index below it, and `depth` a past depth
/// of at most 8.
#[derive(Clone, Copy, Debug, PartialEq, Eq, Drop)]
pub struct Window {
    pub states: u32,
    pub loop_start: u32,
    pub depth: u32,
}

impl Window {
    ghost use Rattle.core_window.specs.Windows.{IsOf};

    /// How many positions the window has.
    pub fn length(&self) -> u64
        requires some { self.now.loop_start < self.now.states }
        requires few { self.now.depth ≤ 8 }
        ensures number { result ≡ self.now.loop_start + (self.now.depth + 1) *
            (self.now.states - self.now.loop_start) }
        ensures end { (lasso : LassoValue) → IsOf self.now lasso →
            result ≡ window_end lasso self.now.depth }
    {
        let round = self.states - self.loop_start;
        self.loop_start as u64 + (self.depth as u64 + 1) * round as u64
    }

    /// The place in the window with the truth of a position, for each formula of at most the
    /// window's past depth.
    pub fn fold(&self, position: u64) -> u64
        requires some { self.now.loop_start < self.now.states }
        requires few { self.now.depth ≤ 8 }
        ensures place { (lasso : LassoValue) → IsOf self.now lasso →
            result ≡ fold_of lasso self.now.depth position }
    {
        let end = self.length();
        let round = (self.states - self.loop_start) as u64;
        let from = end - round;
        let mut place = position;
        if position >= end {
            place = from + (position - from) % round;
        }
        place
    }
}

/// The window law: far enough into the loop, a formula has the same truth and an expression the same
/// tuples one period later, and so at their place in the window. It holds for every formula and
/// expression, calls and `let` among them, in every environment that gives atoms to names.
pub fn window_law()
    ensures formulas { (w : World) (list : List Body) (f : Claim) (atoms : List Binding) (h i : ℕ) →
        HasLoop w.lasso → past_of (body_depths list) f (atom_depths atoms) ≤ h → h < uncounted →
        IsFar w.lasso h i →
        Holds w (bodies_of w list) f (atom_names atoms) i
        ↔ Holds w (bodies_of w list) f (atom_names atoms) (i + period w.lasso) }
    ensures terms { (w : World) (list : List Body) (e : Term) (atoms : List Binding) (h i : ℕ)
        (t : List ℕ) → HasLoop w.lasso → past_in (body_depths list) e (atom_depths atoms) ≤ h →
        h < uncounted → IsFar w.lasso h i →
        InTerm w (bodies_of w list) e (atom_names atoms) i t
        ↔ InTerm w (bodies_of w list) e (atom_names atoms) (i + period w.lasso) t }
    ensures folded { (w : World) (list : List Body) (f : Claim) (atoms : List Binding) (h i : ℕ) →
        HasLoop w.lasso → past_of (body_depths list) f (atom_depths atoms) ≤ h → h < uncounted →
        Holds w (bodies_of w list) f (atom_names atoms) (fold_of w.lasso h i)
        ↔ Holds w (bodies_of w list) f (atom_names atoms) i }
{}
