//! The setting: a model with its scopes, a lasso, and the window of that lasso.

ghost use Rattle.std.specs.Prelude.{◌≡◌, ◌<◌, ◌≤◌, ◌+◌, ◌^◌, length, IfOk};
ghost use Rattle.core_meaning.specs.Kept.{atom_count};
ghost use Rattle.core_meaning.specs.Sequence.{period};
ghost use Rattle.eval_context.specs.Settings.{SettingValue, IsSetting, world};
ghost use Rattle.core_window.specs.Repeats.{HasLoop, fold_of, window_end};

use crate::sizes::{count_atoms, integer_count};
use core_meaning::{Lasso, Scopes};
use core_window::Window;
use eval_sets::EvaluationFault;
use std::alloc::Global;
use std::marker::Model;

/// A model, its scopes and a lasso, and how deep past operators nest at most in what is judged.
/// Contracts see it as a `SettingValue`.
#[derive(Drop)]
pub struct Setting<'a> {
    alloc: Global,
    model: &'a core_tree::Model,
    scopes: &'a Scopes,
    lasso: &'a Lasso,
    depth: u32,
    atoms: u32,
}

impl<'a> Model for Setting<'a> {
    ghost use Rattle.std.specs.Prelude.{◌≡◌};
    ghost use Rattle.core_meaning.specs.Kept.{atom_count};
    ghost use Rattle.eval_context.specs.Settings.{SettingValue, IsSetting};
    ghost use Rattle.core_tree.specs.contracts.tree.Expr as e;
    ghost use Rattle.core_tree.specs.contracts.tree.Formula as f;
    ghost use Rattle.core_tree.specs.contracts.tree.Variable as v;
    ghost use Rattle.std.specs.Coded.{codes};

    ghost Value = { SettingValue };

    ghost coded = { Prim.hlevel (codes, e.the_row.coded, f.the_row.coded, v.the_row.coded) };

    ghost view = { λ s. record { model = s.model.now; scopes = s.scopes.now; lasso = s.lasso.now; depth = s.depth } };

    ghost invariant = { λ s. (s.atoms ≡ atom_count s.scopes.now.numbers) × IsSetting (record { model = s.model.now; scopes = s.scopes.now; lasso = s.lasso.now; depth = s.depth }) };
}

/// The setting of these. Unfit are a past depth above 8, a bitwidth of 0, and a universe of more than
/// 16,384 atoms and integers.
pub fn make_setting<'a>(
    alloc: Global,
    model: &'a core_tree::Model,
    scopes: &'a Scopes,
    lasso: &'a Lasso,
    depth: u32,
) -> Result<Setting<'a>, EvaluationFault>
    ensures { IfOk result (λ s. s ≡ record {
      model = model.now;
      scopes = scopes.now;
      lasso =
          lasso.now;
      depth = depth;
    }) }
{
    if depth > 8 || scopes.bits < 1 || scopes.bits > 14 {
        return Err(EvaluationFault::Unfit);
    }
    let Some(atoms) = count_atoms(scopes.numbers.as_slice()) else {
        return Err(EvaluationFault::Unfit);
    };
    // Atoms, S66: there are at most 16,384 atoms and integers.
    if atoms + integer_count(scopes.bits) > 16384 {
        return Err(EvaluationFault::Unfit);
    }
    Ok(Setting {
        alloc,
        model,
        scopes,
        lasso,
        depth,
        atoms,
    })
}

impl<'a> Setting<'a> {
    /// The allocator.
    pub fn alloc(&self) -> Global {
        self.alloc
    }

    /// The model.
    pub fn model(&self) -> &'a core_tree::Model
        ensures now { result.now ≡ self.now.model }
        ensures good { IsSetting self.now }
    {
        self.model
    }

    /// The scopes.
    pub fn scopes(&self) -> &'a Scopes
        ensures now { result.now ≡ self.now.scopes }
        ensures good { IsSetting self.now }
    {
        self.scopes
    }

    /// The lasso.
    pub fn lasso(&self) -> &'a Lasso
        ensures now { result.now ≡ self.now.lasso }
        ensures good { IsSetting self.now }
    {
        self.lasso
    }

    /// How many atoms sigs have; the integers come after them.
    pub fn atoms(&self) -> u32
        ensures number { result ≡ (world self.now).atoms }
        ensures good { IsSetting self.now }
    {
        self.atoms
    }

    /// The bitwidth of the integers.
    pub fn bits(&self) -> u32
        ensures number { result ≡ (world self.now).bits }
        ensures least { 1 ≤ result }
        ensures most { result ≤ 14 }
        ensures room { (world self.now).atoms + 2 ^ result ≤ 16384 }
    {
        self.scopes.bits
    }

    /// The window of the lasso.
    fn window(&self) -> Window
        ensures states { result.states ≡ length self.now.lasso.states }
        ensures loop_start { result.loop_start ≡ self.now.lasso.loop_start }
        ensures depth { result.depth ≡ self.now.depth }
        ensures some { result.loop_start < result.states }
        ensures few { result.depth ≤ 8 }
    {
        Window {
            states: self.lasso.states(),
            loop_start: self.lasso.loop_start(),
            depth: self.depth,
        }
    }

    /// How many positions the window has.
    pub fn window_length(&self) -> u64
        ensures number { result ≡ window_end self.now.lasso self.now.depth }
        ensures loops { HasLoop self.now.lasso }
        ensures small { result < 2 ^ 40 }
    {
        self.window().length()
    }

    /// How many states the loop has.
    pub fn round(&self) -> u64
        ensures number { result ≡ period self.now.lasso }
        ensures loops { HasLoop self.now.lasso }
        ensures some { 1 ≤ result }
        ensures small { result < 2 ^ 32 }
    {
        let window = self.window();
        u64::from(window.states - window.loop_start)
    }

    /// The place of the window with the truth of a position.
    pub fn fold(&self, position: u64) -> u64
        ensures place { result ≡ fold_of self.now.lasso self.now.depth position }
        ensures inside { result < window_end self.now.lasso self.now.depth }
        ensures loops { HasLoop self.now.lasso }
    {
        self.window().fold(position)
    }
}
