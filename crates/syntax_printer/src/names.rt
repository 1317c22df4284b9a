//! Spells names and the paths before them.
#![tactic(auto, using(crate::proofs::Parts::regrouped))]

ghost use Rattle.std.specs.Prelude.{◌≡◌, ◌++◌, OnOk};
ghost use Rattle.syntax_tree.specs.Spelling as s;

use crate::part::{Part, separated};
use crate::words::{put, symbol, word};
use base_types::Name;
use std::alloc::{AllocError, Global};
use syntax_tree::{Named, QualName, Symbol, TokenKind, Word};

impl Part for Name {
    ghost use Rattle.syntax_tree.specs.Spelling.{one_name};

    ghost spelled = { one_name };

    fn spell(&self, alloc: Global, words: &mut Vec<TokenKind>) -> Result<(), AllocError> {
        let name = Name::copy(alloc, self.text())?;
        put(TokenKind::Name(name), words)
    }
}

impl Part for Named {
    ghost use Rattle.syntax_tree.specs.Spelling.{declared_name};

    ghost spelled = { declared_name };

    fn spell(&self, alloc: Global, words: &mut Vec<TokenKind>) -> Result<(), AllocError> {
        self.name.spell(alloc, words)
    }
}

impl Part for QualName {
    ghost use Rattle.syntax_tree.specs.Spelling.{name_words};

    ghost spelled = { name_words };

    fn spell(&self, alloc: Global, words: &mut Vec<TokenKind>) -> Result<(), AllocError> {
        own(self.is_own, words)?;
        separated(alloc, Symbol::Slash, self.parts.as_slice(), words)
    }
}

/// `this/`, where it stands.
fn own(is_own: bool, words: &mut Vec<TokenKind>) -> Result<(), AllocError>
    ensures { OnOk result (words.new.items ≡ words.old.items ++ s.own_words is_own) }
{
    if is_own {
        word(Word::This, words)?;
        symbol(Symbol::Slash, words)?;
    }
    Ok(())
}
