//! Parses variables with their bounds, and the forms that begin with them.

ghost use Rattle.std.specs.Prelude.{◌≡◌, ◌++◌, ◌∷◌, [], map, IfOk, Bool};
ghost use Rattle.syntax_tree.specs.declared.token.Word.TheVariants as w;
ghost use Rattle.syntax_tree.specs.Words.{word, quantifier_word, multiplicity_words};
ghost use Rattle.syntax_tree.specs.Spelling.{spelling, kinds, optional, body_words, spelled_decl, decl_words, decls_spelling, spelled_binding, binding_words, bindings_spelling};
ghost use Rattle.syntax_expr.specs.Reads.{Reads};
ghost use Rattle.syntax_expr.specs.Nests.{Nests, tree_words};

use crate::cursor::Cursor;
use crate::grammar::{Grammar, Part};
use crate::names::declared_names;
use crate::setting::Setting;
use crate::tokens::{multiplicity, quantifier};
use base_lists::{Boxed, Items};
use base_types::{Fault, Rule};
use std::alloc::Global;
use syntax_tree::{Binding, Decl, Expr, Multiplicity, Quantifier, Symbol, Word};

/// The body of a form with variables.
#[derive(Drop)]
pub struct Body {
    pub has_bar: bool,
    pub tree: Expr,
    /// Whether the form is an implication without `else`, or ends with one.
    pub is_bare: bool,
    pub depth: u32,
}

/// A multiplicity word, where one comes next.
pub fn multiplicity_word(cursor: &mut Cursor<'_>) -> Option<Multiplicity>
    ensures { kinds cursor.old ≡ multiplicity_words result ++ kinds cursor.new }
{
    let word = cursor.word()?;
    let found = multiplicity(word)?;
    cursor.advance();
    Some(found)
}

/// The word that begins a form with variables.
fn quantifier_at(cursor: &mut Cursor<'_>) -> Result<Quantifier, Fault>
    ensures { IfOk result (λ q. kinds cursor.old ≡ word (quantifier_word q) ∷ kinds cursor.new) }
{
    let Some(word) = cursor.word() else {
        return Err(cursor.refuse(Rule::Syntax));
    };
    let Some(found) = quantifier(word) else {
        return Err(cursor.refuse(Rule::Syntax));
    };
    cursor.advance();
    Ok(found)
}

fn is_sum(quantifier: Quantifier) -> bool {
    matches!(quantifier, Quantifier::Sum)
}

impl<F: Fn(Global, &mut Cursor<'_>, u32, u8, Setting) -> Result<Part, Fault>> Grammar<F> {
    fn decl(&self, cursor: &mut Cursor<'_>) -> Result<(Decl<Expr>, u32), Fault>
        requires { Nests self.now.depth (F.pre self.now.expr) (F.post self.now.expr) }
        ensures { Reads (λ found. decl_words (spelled_decl found.0)) cursor.old result cursor.new }
    {
        let place = cursor.place();
        let is_disjoint = cursor.eat_word(Word::Disj);
        let names = declared_names(self.alloc, cursor)?;
        cursor.expect(Symbol::Colon)?;
        let bound_place = cursor.place();
        let word = multiplicity_word(cursor);
        let bound = self.bound(cursor, Setting::Bound)?;
        let depth = bound.depth;
        let decl = Decl {
            place,
            is_disjoint,
            names,
            bound_place,
            word,
            bound: bound.tree,
        };
        Ok((decl, depth))
    }

    /// One or more lists of variables, and the greatest depth of their bounds.
    pub fn decls(&self, cursor: &mut Cursor<'_>) -> Result<(Items<Decl<Expr>>, u32), Fault>
        requires { Nests self.now.depth (F.pre self.now.expr) (F.post self.now.expr) }
        ensures { Reads (λ found. decls_spelling found.0) cursor.old result cursor.new }
    {
        let mut found = Items::new(self.alloc);
        let (first, mut depth) = self.decl(cursor)?;
        found.push(first)?;
        for _turn in 0..cursor.left() {
            if !cursor.eat(Symbol::Comma) {
                break;
            }
            let (next, its_depth) = self.decl(cursor)?;
            depth = depth.max(its_depth);
            found.push(next)?;
        }
        Ok((found, depth))
    }

    /// `|` and an expression that stands so, or a block.
    pub fn body(&self, cursor: &mut Cursor<'_>, setting: Setting) -> Result<Body, Fault>
        requires { Nests self.now.depth (F.pre self.now.expr) (F.post self.now.expr) }
        ensures { Reads (λ b. body_words b.has_bar (spelling b.tree)) cursor.old result cursor.new }
    {
        if setting.has_bar() && cursor.sees(Symbol::Bar) {
            return self.bar_body(cursor, setting);
        }
        let part = self.whole(cursor, Setting::Body)?;
        Ok(Body {
            has_bar: false,
            tree: part.tree,
            is_bare: false,
            depth: part.depth,
        })
    }

    /// `|` and an expression that stands so.
    fn bar_body(&self, cursor: &mut Cursor<'_>, setting: Setting) -> Result<Body, Fault>
        requires { Nests self.now.depth (F.pre self.now.expr) (F.post self.now.expr) }
        ensures { Reads (λ b. body_words b.has_bar (spelling b.tree)) cursor.old result cursor.new }
    {
        cursor.expect(Symbol::Bar)?;
        let part = self.whole(cursor, setting)?;
        Ok(Body {
            has_bar: true,
            tree: part.tree,
            is_bare: part.is_bare,
            depth: part.depth,
        })
    }

    fn binding(&self, cursor: &mut Cursor<'_>) -> Result<(Binding<Expr>, u32), Fault>
        requires { Nests self.now.depth (F.pre self.now.expr) (F.post self.now.expr) }
        ensures { Reads (λ found. binding_words (spelled_binding found.0)) cursor.old result
            cursor.new }
    {
        let place = cursor.place();
        let name = cursor.name(self.alloc)?;
        cursor.expect(Symbol::Equal)?;
        let value = self.whole(cursor, Setting::Value)?;
        if value.is_open {
            return Err(cursor.refuse(Rule::Syntax));
        }
        let depth = value.depth;
        let binding = Binding {
            place,
            name,
            value: value.tree,
        };
        Ok((binding, depth))
    }

    fn bindings(&self, cursor: &mut Cursor<'_>) -> Result<(Items<Binding<Expr>>, u32), Fault>
        requires { Nests self.now.depth (F.pre self.now.expr) (F.post self.now.expr) }
        ensures { Reads (λ found. bindings_spelling found.0) cursor.old result cursor.new }
    {
        let mut found = Items::new(self.alloc);
        let (first, mut depth) = self.binding(cursor)?;
        found.push(first)?;
        for _turn in 0..cursor.left() {
            if !cursor.eat(Symbol::Comma) {
                break;
            }
            let (next, its_depth) = self.binding(cursor)?;
            depth = depth.max(its_depth);
            found.push(next)?;
        }
        Ok((found, depth))
    }

    fn let_form(&self, cursor: &mut Cursor<'_>) -> Result<Part, Fault>
        requires { Nests self.now.depth (F.pre self.now.expr) (F.post self.now.expr) }
        ensures { Reads tree_words cursor.old result cursor.new }
    {
        let place = cursor.place();
        if !cursor.eat_word(Word::Let) {
            return Err(cursor.refuse(Rule::Syntax));
        }
        let (bindings, depth) = self.bindings(cursor)?;
        let body = self.body(cursor, self.setting)?;
        let depth = depth.max(body.depth).saturating_add(1);
        let boxed = Boxed::new(self.alloc, body.tree)?;
        Ok(Part {
            tree: Expr::Let(place, bindings, body.has_bar, boxed),
            level: 0,
            is_open: body.has_bar,
            is_bare: body.is_bare,
            depth,
        })
    }

    /// The body of a form with variables. That of `sum` is written with `|`.
    fn quantifier_body(
        &self,
        cursor: &mut Cursor<'_>,
        quantifier: Quantifier,
    ) -> Result<Body, Fault>
        requires { Nests self.now.depth (F.pre self.now.expr) (F.post self.now.expr) }
        ensures { Reads (λ b. body_words b.has_bar (spelling b.tree)) cursor.old result cursor.new }
    {
        if is_sum(quantifier) {
            return self.bar_body(cursor, self.setting);
        }
        self.body(cursor, self.setting)
    }

    fn quantifier_form(&self, cursor: &mut Cursor<'_>) -> Result<Part, Fault>
        requires { Nests self.now.depth (F.pre self.now.expr) (F.post self.now.expr) }
        ensures { Reads tree_words cursor.old result cursor.new }
    {
        let place = cursor.place();
        let quantifier = quantifier_at(cursor)?;
        let (decls, depth) = self.decls(cursor)?;
        let body = self.quantifier_body(cursor, quantifier)?;
        let depth = depth.max(body.depth).saturating_add(1);
        let boxed = Boxed::new(self.alloc, body.tree)?;
        Ok(Part {
            tree: Expr::Quantified(place, quantifier, decls, body.has_bar, boxed),
            level: 0,
            is_open: body.has_bar,
            is_bare: body.is_bare,
            depth,
        })
    }

    /// A form with variables, or a `let`.
    pub fn quantified(&self, cursor: &mut Cursor<'_>) -> Result<Part, Fault>
        requires { Nests self.now.depth (F.pre self.now.expr) (F.post self.now.expr) }
        ensures { Reads tree_words cursor.old result cursor.new }
    {
        if !self.setting.has_bar() && cursor.sees_word(Word::Sum) {
            return Err(cursor.refuse(Rule::Syntax));
        }
        self.may_nest(cursor)?;
        if cursor.sees_word(Word::Let) {
            self.let_form(cursor)
        } else {
            self.quantifier_form(cursor)
        }
    }
}
