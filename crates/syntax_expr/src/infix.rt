//! Parses the operators after an operand, by their levels (precedence).

ghost use Rattle.std.specs.Prelude.{◌≡◌, ◌++◌, ◌∷◌, [], map, IfOk, IfSome, Bool, codes};
ghost use Rattle.syntax_tree.specs.declared.token.TokenKind.TheVariants as kind;
ghost use Rattle.syntax_tree.specs.declared.token.Symbol.TheVariants as s;
ghost use Rattle.syntax_tree.specs.Words.{symbol, infix_words, negation_words, comparator_token, comparison_words, arithmetic, multiplicity_words};
ghost use Rattle.syntax_tree.specs.Spelling.{spelling, kinds, separated, implies_token, spelled_other, else_words, link_words, spelled_link, links_spelling, access_words, spelled_access, accesses_spelling};
ghost use Rattle.syntax_expr.specs.Reads.{Reads};
ghost use Rattle.syntax_expr.specs.Nests.{Nests, tree_words, GoesOn};

use crate::cursor::Cursor;
use crate::grammar::{Grammar, Part};
use crate::quantified::multiplicity_word;
use crate::setting::Setting;
use crate::tokens::{
    begins_form, begins_pair, comparator, form_token, infix, is_multiplicity, is_pair,
    operator_level,
};
use base_lists::{Boxed, Items};
use base_types::{Fault, Rule};
use std::alloc::Global;
use syntax_tree::{
    Access, Comparator, Comparison, Expr, Infix, Multiplicity, Negation, Symbol, TokenKind, Word,
};

/// What stands after `else`, where it does, and whether that is open.
#[derive(Drop)]
struct Other {
    tree: Option<Boxed<Expr>>,
    is_open: bool,
    is_bare: bool,
    depth: u32,
}

fn arithmetic(name: &str) -> Option<Infix>
    ensures { IfSome result (λ i. infix_words i ≡ arithmetic name.now) }
{
    match name {
        "add" => Some(Infix::Add),
        "sub" => Some(Infix::Sub),
        "mul" => Some(Infix::Mul),
        "div" => Some(Infix::Div),
        "rem" => Some(Infix::Rem),
        _ => None,
    }
}

/// `fun/` and the name of an operation on integers.
fn arithmetic_at(cursor: &mut Cursor<'_>) -> Result<Infix, Fault>
    ensures { Reads infix_words cursor.old result cursor.new }
{
    if !cursor.eat_word(Word::Fun) {
        return Err(cursor.refuse(Rule::Syntax));
    }
    cursor.expect(Symbol::Slash)?;
    let TokenKind::Name(name) = cursor.kind() else {
        return Err(cursor.refuse(Rule::Syntax));
    };
    let Some(operator) = arithmetic(name.text()) else {
        return Err(cursor.refuse(Rule::Syntax));
    };
    cursor.advance();
    Ok(operator)
}

fn negation(cursor: &mut Cursor<'_>) -> Negation
    ensures { kinds cursor.old ≡ negation_words result ++ kinds cursor.new }
{
    if cursor.eat(Symbol::Bang) {
        Negation::Bang
    } else if cursor.eat_word(Word::Not) {
        Negation::Not
    } else {
        Negation::Plain
    }
}

fn comparator_at(cursor: &mut Cursor<'_>) -> Result<Comparator, Fault>
    ensures { IfOk result (λ c. kinds cursor.old ≡ comparator_token c ∷ kinds cursor.new) }
{
    let Some(found) = comparator(cursor.kind()) else {
        return Err(cursor.refuse(Rule::Syntax));
    };
    cursor.advance();
    Ok(found)
}

fn word_after(cursor: &mut Cursor<'_>, comparator: Comparator) -> Option<Multiplicity>
    ensures { kinds cursor.old ≡ multiplicity_words result ++ kinds cursor.new }
{
    match comparator {
        Comparator::In => multiplicity_word(cursor),
        _ => None,
    }
}

fn comparison(cursor: &mut Cursor<'_>) -> Result<Comparison, Fault>
    ensures { Reads comparison_words cursor.old result cursor.new }
{
    let negation = negation(cursor);
    let comparator = comparator_at(cursor)?;
    let word = word_after(cursor, comparator);
    Ok(Comparison {
        negation,
        comparator,
        word,
    })
}

/// The least level of a comparison's right operand.
fn right_level(comparator: Comparator) -> u8 {
    match comparator {
        Comparator::In => 10,
        _ => 9,
    }
}

/// `=>` or `implies`, and whether it is the word.
fn implies(cursor: &mut Cursor<'_>) -> Result<bool, Fault>
    ensures { IfOk result (λ is_word. kinds cursor.old ≡ implies_token is_word ∷ kinds cursor.new) }
{
    if cursor.eat_word(Word::Implies) {
        return Ok(true);
    }
    cursor.expect(Symbol::FatArrow)?;
    Ok(false)
}

/// The level of `'`.
const PRIME: u8 = 18;

/// The highest level of an operator that may take an operand of this level on its left.
fn highest_after(left: u8) -> u8 {
    if left == PRIME {
        PRIME
    } else {
        left.saturating_sub(1)
    }
}

/// What an implication has to know of its consequence.
#[derive(Clone, Copy)]
struct After {
    is_open: bool,
    /// Whether `else` may follow it.
    may_go_on: bool,
}

fn end_of(consequence: &Part) -> After {
    After {
        is_open: consequence.is_open,
        may_go_on: !consequence.is_open && !consequence.is_bare && consequence.level > 0,
    }
}

impl<F: Fn(Global, &mut Cursor<'_>, u32, u8, Setting) -> Result<Part, Fault>> Grammar<F> {
    /// `->` with the multiplicity words round it. A word after it may begin a form with variables.
    fn arrow(&self, cursor: &mut Cursor<'_>) -> Result<Infix, Fault>
        ensures { Reads infix_words cursor.old result cursor.new }
    {
        let before = multiplicity_word(cursor);
        cursor.expect(Symbol::Arrow)?;
        if begins_form(cursor.rest(), 0, self.setting) {
            self.may_hold_form(cursor)?;
            return Ok(Infix::Arrow(before, None));
        }
        let after = multiplicity_word(cursor);
        Ok(Infix::Arrow(before, after))
    }

    /// Refuses a form with variables after an arrow where it leads too deep, at the token that tells
    /// it from a multiplicity word and an operand.
    fn may_hold_form(&self, cursor: &Cursor<'_>) -> Result<(), Fault> {
        if self.depth > 1 || !is_multiplicity(cursor.kind()) {
            return Ok(());
        }
        let deciding = form_token(cursor.rest(), self.setting.has_comma());
        Err(cursor.refuse_at(deciding, Rule::TooDeep))
    }

    /// The level of the operator that comes next, from `lowest` to `highest`, or 0 where none of these does.
    fn next_level(
        &self,
        cursor: &Cursor<'_>,
        lowest: u8,
        highest: u8,
        left_depth: u32,
    ) -> Result<u8, Fault> {
        let level = operator_level(cursor.rest());
        if level == 0 || level < lowest || level > highest {
            return Ok(0);
        }
        let is_deep = left_depth >= self.depth;
        if begins_pair(cursor.rest()) {
            return self.pair_level(cursor, level, is_deep);
        }
        if is_deep {
            return Err(cursor.refuse(Rule::TooDeep));
        }
        Ok(level)
    }

    /// The level of the operator whose first of two tokens may come next, or 0 where an item begins with this token.
    fn pair_level(&self, cursor: &Cursor<'_>, level: u8, is_deep: bool) -> Result<u8, Fault> {
        let may_be_item = self.setting.has_items() && !cursor.sees_word(Word::Set);
        if is_deep && !may_be_item {
            return Err(cursor.refuse(Rule::TooDeep));
        }
        if is_pair(cursor.rest()) {
            if is_deep {
                return Err(cursor.refuse_at(1, Rule::TooDeep));
            }
            return Ok(level);
        }
        if may_be_item {
            return Ok(0);
        }
        Err(cursor.refuse_at(1, Rule::Syntax))
    }

    fn operator(&self, cursor: &mut Cursor<'_>, level: u8) -> Result<Infix, Fault>
        ensures { Reads infix_words cursor.old result cursor.new }
    {
        if level == 14 {
            return self.arrow(cursor);
        }
        let Some(found) = infix(cursor.kind()) else {
            return arithmetic_at(cursor);
        };
        cursor.advance();
        Ok(found)
    }

    fn link(&self, cursor: &mut Cursor<'_>, level: u8) -> Result<(Infix, Part), Fault>
        requires { Nests self.now.depth (F.pre self.now.expr) (F.post self.now.expr) }
        ensures { Reads (λ found. infix_words found.0 ++ spelling found.1.tree) cursor.old result
            cursor.new }
    {
        let operator = self.operator(cursor, level)?;
        let operand = self.operand(cursor, level.saturating_add(1))?;
        Ok((operator, operand))
    }

    fn links(&self, cursor: &mut Cursor<'_>, level: u8, left: Part) -> Result<Part, Fault>
        requires { Nests self.now.depth (F.pre self.now.expr) (F.post self.now.expr) }
        ensures { GoesOn left.tree cursor.old result cursor.new }
    {
        let mut links = Items::new(self.alloc);
        let mut depth = left.depth;
        let mut is_open = false;
        let mut is_bare = false;
        for _turn in 0..cursor.left() {
            if is_open || self.next_level(cursor, level, level, 0)? == 0 {
                break;
            }
            let (operator, operand) = self.link(cursor, level)?;
            depth = depth.max(operand.depth);
            is_open = operand.is_open;
            is_bare = operand.is_bare;
            links.push((operator, operand.tree))?;
        }
        let first = Boxed::new(self.alloc, left.tree)?;
        Ok(Part {
            tree: Expr::Infix(first, links),
            level,
            is_open,
            is_bare,
            depth: depth.saturating_add(1),
        })
    }

    /// The arguments after the opening bracket of a box, and the greatest depth among them.
    fn arguments(&self, cursor: &mut Cursor<'_>) -> Result<(Items<Expr>, u32), Fault>
        requires { Nests self.now.depth (F.pre self.now.expr) (F.post self.now.expr) }
        ensures { IfOk result (λ found. kinds cursor.old ≡ separated s.Comma (map spelling found.0)
            ++ kinds cursor.new) }
    {
        let mut found = Items::new(self.alloc);
        let first = self.whole(cursor, Setting::Argument)?;
        let mut depth = first.depth;
        found.push(first.tree)?;
        for _turn in 0..cursor.left() {
            if !cursor.eat(Symbol::Comma) {
                break;
            }
            let next = self.whole(cursor, Setting::Argument)?;
            depth = depth.max(next.depth);
            found.push(next.tree)?;
        }
        Ok((found, depth))
    }

    /// A box with its arguments.
    fn bracket(&self, cursor: &mut Cursor<'_>) -> Result<(Access<Expr>, bool, u32), Fault>
        requires { Nests self.now.depth (F.pre self.now.expr) (F.post self.now.expr) }
        ensures { Reads (λ found. access_words (spelled_access found.0)) cursor.old result
            cursor.new }
    {
        cursor.expect(Symbol::OpenBracket)?;
        if cursor.eat(Symbol::CloseBracket) {
            return Ok((Access::Bracket(Items::new(self.alloc)), false, 0));
        }
        let (arguments, depth) = self.arguments(cursor)?;
        cursor.expect(Symbol::CloseBracket)?;
        Ok((Access::Bracket(arguments), false, depth))
    }

    /// A step of a join, whether it is open, and its depth.
    fn access(&self, cursor: &mut Cursor<'_>) -> Result<(Access<Expr>, bool, u32), Fault>
        requires { Nests self.now.depth (F.pre self.now.expr) (F.post self.now.expr) }
        ensures { Reads (λ found. access_words (spelled_access found.0)) cursor.old result
            cursor.new }
    {
        if !cursor.eat(Symbol::Dot) {
            return self.bracket(cursor);
        }
        let operand = self.operand(cursor, 17)?;
        let is_open = operand.is_open;
        let depth = operand.depth;
        Ok((Access::Dot(operand.tree), is_open, depth))
    }

    fn join(&self, cursor: &mut Cursor<'_>, left: Part) -> Result<Part, Fault>
        requires { Nests self.now.depth (F.pre self.now.expr) (F.post self.now.expr) }
        ensures { GoesOn left.tree cursor.old result cursor.new }
    {
        let mut steps = Items::new(self.alloc);
        let mut depth = left.depth;
        let mut is_open = false;
        for _turn in 0..cursor.left() {
            if is_open || self.next_level(cursor, 16, 16, 0)? == 0 {
                break;
            }
            let (step, opens, its_depth) = self.access(cursor)?;
            depth = depth.max(its_depth);
            is_open = opens;
            steps.push(step)?;
        }
        let first = Boxed::new(self.alloc, left.tree)?;
        Ok(Part {
            tree: Expr::Join(first, steps),
            level: 16,
            is_open,
            is_bare: false,
            depth: depth.saturating_add(1),
        })
    }

    fn prime(&self, cursor: &mut Cursor<'_>, left: Part) -> Result<Part, Fault>
        ensures { GoesOn left.tree cursor.old result cursor.new }
    {
        cursor.expect(Symbol::Prime)?;
        let depth = left.depth.saturating_add(1);
        let boxed = Boxed::new(self.alloc, left.tree)?;
        Ok(Part {
            tree: Expr::Prime(boxed),
            level: PRIME,
            is_open: false,
            is_bare: false,
            depth,
        })
    }

    fn sequence(&self, cursor: &mut Cursor<'_>, left: Part) -> Result<Part, Fault>
        requires { Nests self.now.depth (F.pre self.now.expr) (F.post self.now.expr) }
        ensures { GoesOn left.tree cursor.old result cursor.new }
    {
        cursor.expect(Symbol::Semicolon)?;
        let second = self.operand(cursor, 1)?;
        let depth = left.depth.max(second.depth).saturating_add(1);
        let first = Boxed::new(self.alloc, left.tree)?;
        let is_open = second.is_open;
        let is_bare = second.is_bare;
        let last = Boxed::new(self.alloc, second.tree)?;
        Ok(Part {
            tree: Expr::Sequence(first, last),
            level: 1,
            is_open,
            is_bare,
            depth,
        })
    }

    fn compare(&self, cursor: &mut Cursor<'_>, left: Part) -> Result<Part, Fault>
        requires { Nests self.now.depth (F.pre self.now.expr) (F.post self.now.expr) }
        ensures { GoesOn left.tree cursor.old result cursor.new }
    {
        let comparison = comparison(cursor)?;
        let right = if comparison.word.is_some() {
            self.bound(cursor, self.setting.after_in())?
        } else {
            self.operand(cursor, right_level(comparison.comparator))?
        };
        let depth = left.depth.max(right.depth).saturating_add(1);
        let first = Boxed::new(self.alloc, left.tree)?;
        let is_open = right.is_open;
        let is_bare = right.is_bare;
        let last = Boxed::new(self.alloc, right.tree)?;
        Ok(Part {
            tree: Expr::Compare(comparison, first, last),
            level: 8,
            is_open,
            is_bare,
            depth,
        })
    }

    /// What stands after `else`, where it may and does.
    fn other(&self, cursor: &mut Cursor<'_>, after: After) -> Result<Other, Fault>
        requires { Nests self.now.depth (F.pre self.now.expr) (F.post self.now.expr) }
        ensures { Reads (λ other. else_words (spelled_other other.tree)) cursor.old result
            cursor.new }
    {
        if !after.may_go_on || !cursor.eat_word(Word::Else) {
            return Ok(Other {
                tree: None,
                is_open: after.is_open,
                is_bare: true,
                depth: 0,
            });
        }
        let part = self.operand(cursor, 4)?;
        Ok(Other {
            is_open: part.is_open,
            is_bare: part.is_bare,
            depth: part.depth,
            tree: Some(Boxed::new(self.alloc, part.tree)?),
        })
    }

    fn implication(&self, cursor: &mut Cursor<'_>, left: Part) -> Result<Part, Fault>
        requires { Nests self.now.depth (F.pre self.now.expr) (F.post self.now.expr) }
        ensures { GoesOn left.tree cursor.old result cursor.new }
    {
        let is_word = implies(cursor)?;
        let consequence = self.operand(cursor, 4)?;
        let other = self.other(cursor, end_of(&consequence))?;
        let depth = left.depth.max(consequence.depth).max(other.depth);
        let condition = Boxed::new(self.alloc, left.tree)?;
        let consequence = Boxed::new(self.alloc, consequence.tree)?;
        Ok(Part {
            tree: Expr::Implication(is_word, condition, consequence, other.tree),
            level: 4,
            is_open: other.is_open,
            is_bare: other.is_bare,
            depth: depth.saturating_add(1),
        })
    }

    fn wrapped(&self, cursor: &mut Cursor<'_>, level: u8, left: Part) -> Result<Part, Fault>
        requires { Nests self.now.depth (F.pre self.now.expr) (F.post self.now.expr) }
        ensures { GoesOn left.tree cursor.old result cursor.new }
    {
        match level {
            1 => self.sequence(cursor, left),
            4 => self.implication(cursor, left),
            8 => self.compare(cursor, left),
            16 => self.join(cursor, left),
            PRIME => self.prime(cursor, left),
            _ => self.links(cursor, level, left),
        }
    }

    /// The expression that goes on from this one with operators of level `least` and above.
    pub fn longer(&self, cursor: &mut Cursor<'_>, least: u8, mut left: Part) -> Result<Part, Fault>
        requires { Nests self.now.depth (F.pre self.now.expr) (F.post self.now.expr) }
        ensures { GoesOn left.tree cursor.old result cursor.new }
    {
        for _turn in 0..cursor.left() {
            if left.is_open {
                break;
            }
            let level = self.next_level(cursor, least, highest_after(left.level), left.depth)?;
            if level == 0 {
                break;
            }
            left = self.wrapped(cursor, level, left)?;
        }
        Ok(left)
    }
}
