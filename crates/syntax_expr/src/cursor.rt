//! A cursor goes over the tokens of a text.

ghost use Rattle.std.specs.Prelude.{◌≡◌, ◌≢◌, ◌↔◌, [], ◌∷◌, ◌<◌, length, IsTrue, IfSome, IfOk, IfNone};
ghost use Rattle.std.specs.Bool.{OnTrue, OnFalse};
ghost use Rattle.syntax_tree.specs.declared.token.TokenKind.TheVariants as kind;
ghost use Rattle.syntax_tree.specs.Spelling.{kinds, EndsWell, declared_name};
ghost use Rattle.syntax_expr.specs.Reads.{first_kind, Reads};

use base_types::{Fault, Name, Position, Refusal, Rule};
use std::alloc::Global;
use std::marker::Model;
use syntax_tree::{Named, Symbol, Token, TokenKind, Word, same_symbol, same_word};

/// The tokens that are left, of which the last is the end token.
#[derive(Drop)]
pub struct Cursor<'a> {
    rest: &'a [Token],
}

impl<'a> Model for Cursor<'a> {
    ghost use Rattle.std.specs.Prelude.{List};
    ghost use Rattle.syntax_tree.specs.declared.token.Token.{Token};
    ghost use Rattle.syntax_tree.specs.Spelling.{EndsWell};

    ghost Value = { List Token };

    ghost view = { λ c. c.rest.now };

    ghost invariant = { λ c. EndsWell c.rest.now };
}

impl<'a> Cursor<'a> {
    pub fn new(rest: &'a [Token]) -> Cursor<'a>
        requires { EndsWell rest.now }
        ensures { result ≡ rest.now }
    {
        Cursor { rest }
    }

    /// How many tokens are left.
    pub fn left(&self) -> usize
        ensures value { result ≡ length self.now }
        ensures some { 0 < length self.now }
    {
        self.rest.len()
    }

    /// The tokens that are left.
    pub fn rest(&self) -> &'a [Token]
        ensures { result.now ≡ self.now }
    {
        self.rest
    }

    fn first(&self) -> &'a Token
        ensures { result.now.kind ≡ first_kind self.now }
    {
        &self.rest[0]
    }

    /// What the next token says.
    pub fn kind(&self) -> &'a TokenKind
        ensures { result.now ≡ first_kind self.now }
    {
        &self.first().kind
    }

    /// The next token's place.
    pub fn place(&self) -> Position {
        self.first().place
    }

    /// The refusal of the next token.
    pub fn refuse(&self, rule: Rule) -> Fault {
        Fault::Refused(Refusal {
            rule,
            place: self.place(),
        })
    }

    /// Goes past the next token, which is not the last.
    pub fn advance(&mut self)
        requires { first_kind self.old ≢ kind.End }
        ensures { kinds self.old ≡ first_kind self.old ∷ kinds self.new }
    {
        if let [_, rest @ ..] = self.rest {
            self.rest = rest;
        }
    }

    /// Whether only the end token is left.
    pub fn is_at_end(&self) -> bool
        ensures { OnTrue result (kinds self.now ≡ kind.End ∷ []) }
    {
        matches!(self.rest, [_])
    }

    /// The next token, where it is a symbol.
    pub fn symbol(&self) -> Option<Symbol>
        ensures { IfSome result (λ s. first_kind self.now ≡ kind.Symbol s) }
    {
        match self.kind() {
            TokenKind::Symbol(symbol) => Some(*symbol),
            _ => None,
        }
    }

    /// The next token, where it is a reserved word.
    pub fn word(&self) -> Option<Word>
        ensures { IfSome result (λ w. first_kind self.now ≡ kind.Word w) }
    {
        match self.kind() {
            TokenKind::Word(word) => Some(*word),
            _ => None,
        }
    }

    /// Whether the next token is this symbol.
    pub fn sees(&self, symbol: Symbol) -> bool
        ensures { OnTrue result (first_kind self.now ≡ kind.Symbol symbol) }
    {
        match self.symbol() {
            Some(found) => same_symbol(found, symbol),
            None => false,
        }
    }

    /// Whether the next token is this word.
    pub fn sees_word(&self, word: Word) -> bool
        ensures { OnTrue result (first_kind self.now ≡ kind.Word word) }
    {
        match self.word() {
            Some(found) => same_word(found, word),
            None => false,
        }
    }

    /// Goes past this symbol, where it comes next.
    pub fn eat(&mut self, symbol: Symbol) -> bool
        ensures found { OnTrue result (kinds self.old ≡ kind.Symbol symbol ∷ kinds self.new) }
        ensures kept { OnFalse result (self.new ≡ self.old) }
    {
        let found = self.sees(symbol);
        if found {
            self.advance();
        }
        found
    }

    /// Goes past this word, where it comes next.
    pub fn eat_word(&mut self, word: Word) -> bool
        ensures found { OnTrue result (kinds self.old ≡ kind.Word word ∷ kinds self.new) }
        ensures kept { OnFalse result (self.new ≡ self.old) }
    {
        let found = self.sees_word(word);
        if found {
            self.advance();
        }
        found
    }

    /// Goes past this symbol, which has to come next.
    pub fn expect(&mut self, symbol: Symbol) -> Result<(), Fault>
        ensures { IfOk result (λ _. kinds self.old ≡ kind.Symbol symbol ∷ kinds self.new) }
    {
        if self.eat(symbol) {
            Ok(())
        } else {
            Err(self.refuse(Rule::Syntax))
        }
    }

    /// A copy of the name that has to come next.
    pub fn name(&mut self, alloc: Global) -> Result<Name, Fault>
        ensures { IfOk result (λ name. kinds self.old ≡ kind.Name name ∷ kinds self.new) }
    {
        match self.kind() {
            TokenKind::Name(name) => {
                let copied = Name::copy(alloc, name.text())?;
                self.advance();
                Ok(copied)
            }
            _ => Err(self.refuse(Rule::Syntax)),
        }
    }

    /// The name that has to come next, with its place.
    pub fn named(&mut self, alloc: Global) -> Result<Named, Fault>
        ensures { Reads declared_name self.old result self.new }
    {
        let place = self.place();
        let name = self.name(alloc)?;
        Ok(Named { place, name })
    }

    /// The refusal of the token that stands so many places after the next one.
    pub fn refuse_at(&self, after: usize, rule: Rule) -> Fault {
        match self.rest.get(after) {
            Some(token) => Fault::Refused(Refusal {
                rule,
                place: token.place,
            }),
            None => self.refuse(rule),
        }
    }
}
