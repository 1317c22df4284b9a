//! Spells lists of parts, with a mark between two of them.
#![tactic(auto, using(crate::proofs::Parts::joined_next, crate::proofs::Parts::joined_end, crate::proofs::Parts::separated_next, crate::proofs::Parts::separated_end))]

ghost use Rattle.std.specs.Prelude.{◌≡◌, ◌++◌, map, OnOk};
ghost use Rattle.syntax_tree.specs.Spelling as s;

use crate::words::optional;
use std::alloc::{AllocError, Global};
use syntax_tree::{Symbol, TokenKind};

/// What is spelled by tokens.
pub trait Part {
    ghost use Rattle.std.specs.Prelude.{List};
    ghost use Rattle.syntax_tree.specs.declared.token.TokenKind.{TokenKind};

    ghost spelled: { Self → List TokenKind };

    /// Puts the tokens at the end of the list.
    fn spell(&self, alloc: Global, words: &mut Vec<TokenKind>) -> Result<(), AllocError>
        ensures { OnOk result (words.new.items ≡ words.old.items ++ spelled self.now) };
}

/// The parts, one after another.
pub fn joined<T: Part>(
    alloc: Global,
    parts: &[T],
    words: &mut Vec<TokenKind>,
) -> Result<(), AllocError>
    ensures { OnOk result (words.new.items ≡ words.old.items
        ++ s.joined (map T.spelled parts.now)) }
{
    for part in parts {
        part.spell(alloc, words)?;
    }
    Ok(())
}

/// The parts, with the mark between two of them.
pub fn separated<T: Part>(
    alloc: Global,
    mark: Symbol,
    parts: &[T],
    words: &mut Vec<TokenKind>,
) -> Result<(), AllocError>
    ensures { OnOk result (words.new.items ≡ words.old.items
        ++ s.separated mark (map T.spelled parts.now)) }
{
    let mut is_first = true;
    for part in parts {
        optional(!is_first, TokenKind::Symbol(mark), words)?;
        part.spell(alloc, words)?;
        is_first = false;
    }
    Ok(())
}
