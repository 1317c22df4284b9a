//! Parses primaries, and the operators before an operand.

ghost use Rattle.std.specs.Prelude.{◌≡◌, ◌++◌, ◌∷◌, [], map, IfOk};
ghost use Rattle.syntax_tree.specs.declared.token.Symbol.TheVariants as s;
ghost use Rattle.syntax_tree.specs.Words.{symbol, prefix_token};
ghost use Rattle.syntax_tree.specs.Spelling.{spelling, kinds, joined};
ghost use Rattle.syntax_expr.specs.Reads.{Reads, first_kind};
ghost use Rattle.syntax_expr.specs.Nests.{Nests, tree_words};

use crate::cursor::Cursor;
use crate::grammar::{Grammar, Part};
use crate::names::{begins_own, qual_name};
use crate::setting::Setting;
use crate::tokens::{PRIMARY, begins_decls, constant, prefix, prefix_level};
use base_lists::{Boxed, Items};
use base_types::{Fault, Name, Rule};
use std::alloc::Global;
use syntax_tree::{Expr, Prefix, Symbol, TokenKind, Word};

/// A primary without inner parts.
fn leaf(tree: Expr) -> Part
    ensures { result.tree ≡ tree }
{
    Part {
        tree,
        level: PRIMARY,
        is_open: false,
        is_bare: false,
        depth: 0,
    }
}

/// A primary whose deepest part has this depth.
fn bracketed(tree: Expr, depth: u32) -> Part
    ensures { result.tree ≡ tree }
{
    Part {
        tree,
        level: PRIMARY,
        is_open: false,
        is_bare: false,
        depth: depth.saturating_add(1),
    }
}

/// `-` and a number.
fn negative(cursor: &mut Cursor<'_>) -> Result<Part, Fault>
    ensures { Reads tree_words cursor.old result cursor.new }
{
    let place = cursor.place();
    cursor.expect(Symbol::Minus)?;
    match cursor.kind() {
        TokenKind::Number(number) => {
            let number = *number;
            cursor.advance();
            Ok(leaf(Expr::Negative(place, number)))
        }
        _ => Err(cursor.refuse(Rule::Syntax)),
    }
}

/// `@` and a name.
fn at_name(alloc: Global, cursor: &mut Cursor<'_>) -> Result<Part, Fault>
    ensures { Reads tree_words cursor.old result cursor.new }
{
    let place = cursor.place();
    cursor.expect(Symbol::At)?;
    let name = qual_name(alloc, cursor)?;
    Ok(leaf(Expr::At(place, name)))
}

/// A word that stands for a set, or a name that begins with `this`.
fn word_primary(alloc: Global, cursor: &mut Cursor<'_>, word: Word) -> Result<Part, Fault>
    ensures { Reads tree_words cursor.old result cursor.new }
{
    if begins_own(cursor.rest()) {
        return Ok(leaf(Expr::Name(qual_name(alloc, cursor)?)));
    }
    let place = cursor.place();
    let Some(constant) = constant(word) else {
        return Err(cursor.refuse(Rule::Syntax));
    };
    if !cursor.eat_word(word) {
        return Err(cursor.refuse(Rule::Syntax));
    }
    Ok(leaf(Expr::Constant(place, constant)))
}

impl<F: Fn(Global, &mut Cursor<'_>, u32, u8, Setting) -> Result<Part, Fault>> Grammar<F> {
    /// A block's items after its opening brace, up to the closing one, and the greatest depth among them.
    fn items(&self, cursor: &mut Cursor<'_>) -> Result<(Items<Expr>, u32), Fault>
        requires { Nests self.now.depth (F.pre self.now.expr) (F.post self.now.expr) }
        ensures { IfOk result (λ found. kinds cursor.old ≡ joined (map spelling found.0)
            ++ symbol s.CloseBrace ∷ kinds cursor.new) }
    {
        let mut found = Items::new(self.alloc);
        let mut depth = 0;
        for turn in 0..cursor.left() {
            if cursor.eat(Symbol::CloseBrace) {
                return Ok((found, depth));
            }
            self.may_hold(cursor)?;
            if turn > 0 && cursor.sees(Symbol::Minus) {
                return Err(cursor.refuse(Rule::Syntax));
            }
            let item = self.whole(cursor, Setting::Item)?;
            depth = depth.max(item.depth);
            found.push(item.tree)?;
        }
        Err(cursor.refuse(Rule::Syntax))
    }

    pub fn block(&self, cursor: &mut Cursor<'_>) -> Result<Part, Fault>
        requires { Nests self.now.depth (F.pre self.now.expr) (F.post self.now.expr) }
        ensures { Reads tree_words cursor.old result cursor.new }
    {
        let place = cursor.place();
        cursor.expect(Symbol::OpenBrace)?;
        let (items, depth) = self.items(cursor)?;
        if items.is_empty() {
            return Ok(leaf(Expr::Block(place, items)));
        }
        Ok(bracketed(Expr::Block(place, items), depth))
    }

    fn comprehension(&self, cursor: &mut Cursor<'_>) -> Result<Part, Fault>
        requires { Nests self.now.depth (F.pre self.now.expr) (F.post self.now.expr) }
        ensures { Reads tree_words cursor.old result cursor.new }
    {
        let place = cursor.place();
        cursor.expect(Symbol::OpenBrace)?;
        self.may_hold(cursor)?;
        let (decls, depth) = self.decls(cursor)?;
        let body = self.body(cursor, Setting::Alone)?;
        cursor.expect(Symbol::CloseBrace)?;
        let depth = depth.max(body.depth);
        let boxed = Boxed::new(self.alloc, body.tree)?;
        Ok(bracketed(
            Expr::Comprehension(place, decls, body.has_bar, boxed),
            depth,
        ))
    }

    fn parenthesis(&self, cursor: &mut Cursor<'_>) -> Result<Part, Fault>
        requires { Nests self.now.depth (F.pre self.now.expr) (F.post self.now.expr) }
        ensures { Reads tree_words cursor.old result cursor.new }
    {
        let place = cursor.place();
        self.may_nest(cursor)?;
        cursor.expect(Symbol::OpenParenthesis)?;
        let inner = self.whole(cursor, Setting::Alone)?;
        cursor.expect(Symbol::CloseParenthesis)?;
        let depth = inner.depth;
        let boxed = Boxed::new(self.alloc, inner.tree)?;
        Ok(bracketed(Expr::Parenthesis(place, boxed), depth))
    }

    fn braces(&self, cursor: &mut Cursor<'_>) -> Result<Part, Fault>
        requires { Nests self.now.depth (F.pre self.now.expr) (F.post self.now.expr) }
        ensures { Reads tree_words cursor.old result cursor.new }
    {
        match cursor.rest() {
            [_, after @ ..] if begins_decls(after, false) => self.comprehension(cursor),
            _ => self.block(cursor),
        }
    }

    fn symbol_primary(&self, cursor: &mut Cursor<'_>, symbol: Symbol) -> Result<Part, Fault>
        requires { Nests self.now.depth (F.pre self.now.expr) (F.post self.now.expr) }
        ensures { Reads tree_words cursor.old result cursor.new }
    {
        match symbol {
            Symbol::Minus => negative(cursor),
            Symbol::At => at_name(self.alloc, cursor),
            Symbol::OpenParenthesis => self.parenthesis(cursor),
            Symbol::OpenBrace => self.braces(cursor),
            _ => Err(cursor.refuse(Rule::Syntax)),
        }
    }

    fn primary(&self, cursor: &mut Cursor<'_>) -> Result<Part, Fault>
        requires { Nests self.now.depth (F.pre self.now.expr) (F.post self.now.expr) }
        ensures { Reads tree_words cursor.old result cursor.new }
    {
        let place = cursor.place();
        match cursor.kind() {
            TokenKind::Name(_) => Ok(leaf(Expr::Name(qual_name(self.alloc, cursor)?))),
            TokenKind::Number(number) => {
                let number = *number;
                cursor.advance();
                Ok(leaf(Expr::Number(place, number)))
            }
            TokenKind::Literal(text) => {
                let text = Name::copy(self.alloc, text.text())?;
                cursor.advance();
                Ok(leaf(Expr::Literal(place, text)))
            }
            TokenKind::Word(word) => word_primary(self.alloc, cursor, *word),
            TokenKind::Symbol(symbol) => self.symbol_primary(cursor, *symbol),
            TokenKind::End => Err(cursor.refuse(Rule::Syntax)),
        }
    }

    fn prefixed(&self, cursor: &mut Cursor<'_>, operator: Prefix, least: u8) -> Result<Part, Fault>
        requires nests { Nests self.now.depth (F.pre self.now.expr) (F.post self.now.expr) }
        requires next { prefix_token operator ≡ first_kind cursor.old }
        ensures { Reads tree_words cursor.old result cursor.new }
    {
        let level = prefix_level(operator);
        if level < least {
            return Err(cursor.refuse(Rule::Syntax));
        }
        self.may_nest(cursor)?;
        let place = cursor.place();
        cursor.advance();
        let operand = self.operand(cursor, level)?;
        let boxed = Boxed::new(self.alloc, operand.tree)?;
        Ok(Part {
            tree: Expr::Prefix(place, operator, boxed),
            level,
            is_open: operand.is_open,
            is_bare: operand.is_bare,
            depth: operand.depth.saturating_add(1),
        })
    }

    /// A primary, or an operator with its operand.
    pub fn first(&self, cursor: &mut Cursor<'_>, least: u8) -> Result<Part, Fault>
        requires { Nests self.now.depth (F.pre self.now.expr) (F.post self.now.expr) }
        ensures { Reads tree_words cursor.old result cursor.new }
    {
        match prefix(cursor.kind()) {
            Some(operator) => self.prefixed(cursor, operator, least),
            None => self.primary(cursor),
        }
    }
}
