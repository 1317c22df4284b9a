//! The rules of expressions: each has the parser of inner expressions as a parameter.
//!
//! So each is proved by itself.

ghost use Rattle.std.specs.Prelude.{◌≡◌, IfOk};
ghost use Rattle.syntax_tree.specs.Spelling.{spelling};
ghost use Rattle.syntax_expr.specs.Reads.{Reads};
ghost use Rattle.syntax_expr.specs.Nests.{Nests, tree_words};

use crate::cursor::Cursor;
use crate::setting::Setting;
use crate::tokens::{begins_expr, begins_form};
use base_types::{Fault, Rule};
use std::alloc::Global;
use syntax_tree::{Expr, Word};

/// The level of a bound.
pub const BOUND: u8 = 10;

/// A tree that was read.
#[derive(Drop)]
pub struct Part {
    pub tree: Expr,
    /// The level of its form.
    pub level: u8,
    /// Whether its last token lies in a body after `|`, outside brackets.
    pub is_open: bool,
    /// Whether it, or the last operand with which it ends, is an implication without `else`.
    pub is_bare: bool,
    pub depth: u32,
}

/// What the rules have in common.
#[derive(Clone, Copy)]
pub struct Grammar<F> {
    pub alloc: Global,
    /// How deep the tree may be.
    pub depth: u32,
    /// Where the expression stands.
    pub setting: Setting,
    pub expr: F,
}

impl<F: Fn(Global, &mut Cursor<'_>, u32, u8, Setting) -> Result<Part, Fault>> Grammar<F> {
    /// An operand of this level or a tighter one.
    pub fn operand(&self, cursor: &mut Cursor<'_>, least: u8) -> Result<Part, Fault>
        requires { Nests self.now.depth (F.pre self.now.expr) (F.post self.now.expr) }
        ensures { Reads tree_words cursor.old result cursor.new }
    {
        (self.expr)(self.alloc, cursor, self.depth, least, self.setting)
    }

    /// A whole expression that stands so.
    pub fn whole(&self, cursor: &mut Cursor<'_>, setting: Setting) -> Result<Part, Fault>
        requires { Nests self.now.depth (F.pre self.now.expr) (F.post self.now.expr) }
        ensures { Reads tree_words cursor.old result cursor.new }
    {
        (self.expr)(self.alloc, cursor, self.depth, 0, setting)
    }

    /// The expression of a bound that stands so.
    pub fn bound(&self, cursor: &mut Cursor<'_>, setting: Setting) -> Result<Part, Fault>
        requires { Nests self.now.depth (F.pre self.now.expr) (F.post self.now.expr) }
        ensures { Reads tree_words cursor.old result cursor.new }
    {
        (self.expr)(self.alloc, cursor, self.depth, BOUND, setting)
    }

    /// Refuses a form with parts where the tree may have none.
    pub fn may_nest(&self, cursor: &Cursor<'_>) -> Result<(), Fault> {
        if self.depth == 0 {
            return Err(cursor.refuse(Rule::TooDeep));
        }
        Ok(())
    }

    /// Refuses the first token in braces where they may hold nothing.
    pub fn may_hold(&self, cursor: &Cursor<'_>) -> Result<(), Fault> {
        if self.depth > 0 {
            return Ok(());
        }
        let is_body = matches!(self.setting, Setting::Body);
        if begins_expr(cursor.kind()) || (!is_body && cursor.sees_word(Word::Disj)) {
            return Err(cursor.refuse(Rule::TooDeep));
        }
        Err(cursor.refuse(Rule::Syntax))
    }

    /// An expression of this level or a tighter one, or a form with variables where one may stand.
    pub fn level(&self, cursor: &mut Cursor<'_>, least: u8) -> Result<Part, Fault>
        requires { Nests self.now.depth (F.pre self.now.expr) (F.post self.now.expr) }
        ensures { Reads tree_words cursor.old result cursor.new }
    {
        if matches!(self.setting, Setting::Body) {
            return self.block(cursor);
        }
        if begins_form(cursor.rest(), least, self.setting) {
            return self.quantified(cursor);
        }
        let first = self.first(cursor, least)?;
        self.longer(cursor, least, first)
    }
}

/// An expression of this level or a tighter one, whose depth is below the number.
pub fn expr(
    alloc: Global,
    cursor: &mut Cursor<'_>,
    depth: u32,
    least: u8,
    setting: Setting,
) -> Result<Part, Fault>
    ensures { Reads tree_words cursor.old result cursor.new }
{
    if depth == 0 {
        return Err(cursor.refuse(Rule::TooDeep));
    }
    Grammar {
        alloc,
        depth: depth - 1,
        setting,
        expr,
    }
    .level(cursor, least)
}
