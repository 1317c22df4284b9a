//! How an expression goes on behind one that was read: the threads to which an operator leads.

ghost use Rattle.std.specs.Prelude.{◌≡◌, ◌<◌, [], ◌∷◌, IfOk};
ghost use Rattle.syntax_tree.specs.declared.token.Symbol.TheVariants.{OpenBracket, Prime};
ghost use Rattle.syntax_tree.specs.declared.token.Word.TheVariants.{Fun};
ghost use Rattle.syntax_machine.specs.Machine as machine;
ghost use Rattle.syntax_machine.specs.declared.thread.Expected.TheVariants as expected;
ghost use Rattle.syntax_machine.specs.declared.thread.Item.TheVariants.{Token};

use crate::goals::{bound, contained, deeper, goes_on, inner, leads, leaf, operand};
use crate::template::{Threads, single, when};
use crate::thread::{Expected, Frame, Goal, Item, Mark, State};
use base_lists::Items;
use std::alloc::{AllocError, Global};
use syntax_tree::{Symbol, TokenKind, Word};

/// The words of an operator that are left, its operand, and what goes on behind it, where it may be.
fn rest_of_row(
    alloc: Global,
    may: bool,
    words: &[Item],
    level: u8,
    goal: Goal,
    depth: u32,
) -> Result<Threads, AllocError>
    requires { level < 255 }
    ensures { IfOk result (λ ts. ts ≡ machine.when may (machine.rest_of_row words.now level goal
        depth)) }
{
    if !may {
        return Ok(Items::new(alloc));
    }
    let mut thread = Items::from_slice(alloc, words)?;
    thread.push(Item::Need(operand(goal, level + 1)))?;
    thread.push(Item::Then(Frame::Last(goal, level, depth)))?;
    let mut threads = Items::new(alloc);
    threads.push(thread)?;
    Ok(threads)
}

/// One more operand of a row, or the second one.
fn row(
    alloc: Global,
    words: &[Item],
    level: u8,
    goal: Goal,
    mark: Mark,
    depth: u32,
) -> Result<Threads, AllocError>
    requires { level < 255 }
    ensures { IfOk result (λ ts. ts ≡ machine.row words.now level goal mark depth) }
{
    let is_new = leads(level, level + 1, goal, mark, depth);
    let is_longer = goes_on(level, goal, mark);
    let mut threads = rest_of_row(alloc, is_new, words, level, goal, deeper(depth))?;
    threads.append(rest_of_row(alloc, is_longer, words, level, goal, depth)?)?;
    Ok(threads)
}

/// The last operand of an operator that groups to the right.
fn last(
    alloc: Global,
    level: u8,
    left: u8,
    goal: Goal,
    mark: Mark,
    depth: u32,
) -> Result<Threads, AllocError>
    ensures { IfOk result (λ ts. ts ≡ machine.last level left goal mark depth) }
{
    let need = Item::Need(operand(goal, level));
    let then = Item::Then(Frame::Last(goal, level, deeper(depth)));
    let threads = when(alloc, leads(level, left, goal, mark, depth), &[need, then])?;
    Ok(threads)
}

/// The consequence of an implication.
fn implies(alloc: Global, goal: Goal, mark: Mark, depth: u32) -> Result<Threads, AllocError>
    ensures { IfOk result (λ ts. ts ≡ machine.implies goal mark depth) }
{
    let need = Item::Need(operand(goal, 4));
    let then = Item::Then(Frame::Consequence(goal, deeper(depth)));
    let threads = when(alloc, leads(4, 5, goal, mark, depth), &[need, then])?;
    Ok(threads)
}

/// What follows a comparator.
pub fn compared(
    alloc: Global,
    contains: bool,
    goal: Goal,
    depth: u32,
) -> Result<Threads, AllocError>
    ensures { IfOk result (λ ts. ts ≡ machine.compared contains goal depth) }
{
    let last = Item::Then(Frame::Last(goal, 8, depth));
    if !contains {
        let threads = single(alloc, &[Item::Need(operand(goal, 9)), last])?;
        return Ok(threads);
    }
    let mut threads = single(alloc, &[Item::Need(contained(goal)), last])?;
    let word = Item::Token(Expected::Multiplicity);
    let need = Item::Need(bound(inner(goal.room)));
    threads.append(single(alloc, &[word, need, last])?)?;
    Ok(threads)
}

/// A comparator, whether it is `in`.
fn compare(
    alloc: Global,
    contains: bool,
    goal: Goal,
    mark: Mark,
    depth: u32,
) -> Result<Threads, AllocError>
    ensures { IfOk result (λ ts. ts ≡ machine.compare contains goal mark depth) }
{
    if !leads(8, 9, goal, mark, depth) {
        return Ok(Items::new(alloc));
    }
    let threads = compared(alloc, contains, goal, deeper(depth))?;
    Ok(threads)
}

/// `'`, behind an operand.
fn prime(alloc: Global, goal: Goal, mark: Mark, depth: u32) -> Result<Threads, AllocError>
    ensures { IfOk result (λ ts. ts ≡ machine.extend_symbol Prime goal mark depth) }
{
    let have = Item::Have(goal, leaf(18), deeper(depth));
    let threads = when(alloc, leads(18, 18, goal, mark, depth), &[have])?;
    Ok(threads)
}

/// A negation before a comparator.
fn negate(alloc: Global, goal: Goal, mark: Mark, depth: u32) -> Result<Threads, AllocError>
    ensures { IfOk result (λ ts. ts ≡ machine.negate goal mark depth) }
{
    let want = Item::Want(State::Comparator(goal, deeper(depth)));
    let threads = when(alloc, leads(8, 9, goal, mark, depth), &[want])?;
    Ok(threads)
}

/// An operator of one token.
fn infix(
    alloc: Global,
    level: u8,
    goal: Goal,
    mark: Mark,
    depth: u32,
) -> Result<Threads, AllocError>
    requires { level < 255 }
    ensures { IfOk result (λ ts. ts ≡ machine.row [] level goal mark depth) }
{
    let threads = row(alloc, &[], level, goal, mark, depth)?;
    Ok(threads)
}

/// `->`, with a multiplicity word behind it or not.
fn arrow(alloc: Global, goal: Goal, mark: Mark, depth: u32) -> Result<Threads, AllocError>
    ensures { IfOk result (λ ts. ts ≡ machine.arrow [] goal mark depth) }
{
    let word = Item::Token(Expected::Multiplicity);
    let mut threads = row(alloc, &[], 14, goal, mark, depth)?;
    threads.append(row(alloc, &[word], 14, goal, mark, depth)?)?;
    Ok(threads)
}

/// The same behind a multiplicity word.
fn arrow_behind_word(
    alloc: Global,
    goal: Goal,
    mark: Mark,
    depth: u32,
) -> Result<Threads, AllocError>
    ensures { IfOk result (λ ts. ts ≡ machine.arrow (Token expected.Arrow ∷ []) goal mark depth) }
{
    let arrow = Item::Token(Expected::Arrow);
    let word = Item::Token(Expected::Multiplicity);
    let mut threads = row(alloc, &[arrow], 14, goal, mark, depth)?;
    threads.append(row(alloc, &[arrow, word], 14, goal, mark, depth)?)?;
    Ok(threads)
}

/// An operation on integers, behind `fun`.
fn arithmetic(alloc: Global, goal: Goal, mark: Mark, depth: u32) -> Result<Threads, AllocError>
    ensures { IfOk result (λ ts. ts ≡ machine.extend_word Fun goal mark depth) }
{
    let slash = Item::Token(Expected::Slash);
    let name = Item::Token(Expected::Arithmetic);
    let threads = row(alloc, &[slash, name], 10, goal, mark, depth)?;
    Ok(threads)
}

/// A box.
fn open_box(alloc: Global, goal: Goal, mark: Mark, depth: u32) -> Result<Threads, AllocError>
    ensures { IfOk result (λ ts. ts ≡ machine.extend_symbol OpenBracket goal mark depth) }
{
    let first = Item::Want(State::Arguments(goal, deeper(depth)));
    let next = Item::Want(State::Arguments(goal, depth));
    let mut threads = when(alloc, leads(16, 17, goal, mark, depth), &[first])?;
    threads.append(when(alloc, goes_on(16, goal, mark), &[next])?)?;
    Ok(threads)
}

/// How an expression goes on with a symbol.
fn extend_symbol(
    alloc: Global,
    symbol: Symbol,
    goal: Goal,
    mark: Mark,
    depth: u32,
) -> Result<Threads, AllocError>
    ensures { IfOk result (λ ts. ts ≡ machine.extend_symbol symbol goal mark depth) }
{
    match symbol {
        Symbol::Semicolon => Ok(last(alloc, 1, 2, goal, mark, depth)?),
        Symbol::OrOr => Ok(infix(alloc, 2, goal, mark, depth)?),
        Symbol::Equivalence => Ok(infix(alloc, 3, goal, mark, depth)?),
        Symbol::FatArrow => Ok(implies(alloc, goal, mark, depth)?),
        Symbol::AndAnd => Ok(infix(alloc, 5, goal, mark, depth)?),
        Symbol::Bang => Ok(negate(alloc, goal, mark, depth)?),
        Symbol::Equal
        | Symbol::Less
        | Symbol::Greater
        | Symbol::EqualLess
        | Symbol::LessEqual
        | Symbol::GreaterEqual => Ok(compare(alloc, false, goal, mark, depth)?),
        Symbol::Plus | Symbol::Minus => Ok(infix(alloc, 10, goal, mark, depth)?),
        Symbol::PlusPlus => Ok(infix(alloc, 12, goal, mark, depth)?),
        Symbol::Ampersand => Ok(infix(alloc, 13, goal, mark, depth)?),
        Symbol::Arrow => Ok(arrow(alloc, goal, mark, depth)?),
        Symbol::Domain | Symbol::Range => Ok(infix(alloc, 15, goal, mark, depth)?),
        Symbol::Dot => Ok(infix(alloc, 16, goal, mark, depth)?),
        Symbol::OpenBracket => Ok(open_box(alloc, goal, mark, depth)?),
        Symbol::Prime => Ok(prime(alloc, goal, mark, depth)?),
        _ => Ok(Items::new(alloc)),
    }
}

/// How an expression goes on with a reserved word.
fn extend_word(
    alloc: Global,
    word: Word,
    goal: Goal,
    mark: Mark,
    depth: u32,
) -> Result<Threads, AllocError>
    ensures { IfOk result (λ ts. ts ≡ machine.extend_word word goal mark depth) }
{
    match word {
        Word::Or => Ok(infix(alloc, 2, goal, mark, depth)?),
        Word::Iff => Ok(infix(alloc, 3, goal, mark, depth)?),
        Word::Implies => Ok(implies(alloc, goal, mark, depth)?),
        Word::And => Ok(infix(alloc, 5, goal, mark, depth)?),
        Word::Until | Word::Releases | Word::Since | Word::Triggered => {
            Ok(infix(alloc, 6, goal, mark, depth)?)
        }
        Word::Not => Ok(negate(alloc, goal, mark, depth)?),
        Word::In => Ok(compare(alloc, true, goal, mark, depth)?),
        Word::Fun => Ok(arithmetic(alloc, goal, mark, depth)?),
        Word::Set | Word::One | Word::Lone | Word::Some => {
            Ok(arrow_behind_word(alloc, goal, mark, depth)?)
        }
        _ => Ok(Items::new(alloc)),
    }
}

/// How an expression goes on with a token.
pub fn extend(
    alloc: Global,
    token: &TokenKind,
    goal: Goal,
    mark: Mark,
    depth: u32,
) -> Result<Threads, AllocError>
    ensures { IfOk result (λ ts. ts ≡ machine.extend token.now goal mark depth) }
{
    match token {
        TokenKind::Word(word) => Ok(extend_word(alloc, *word, goal, mark, depth)?),
        TokenKind::Symbol(symbol) => Ok(extend_symbol(alloc, *symbol, goal, mark, depth)?),
        _ => Ok(Items::new(alloc)),
    }
}
