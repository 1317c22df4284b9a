//! Parses a whole module: this is the call that other crates make.

ghost use Rattle.std.specs.Prelude.{◌≡◌, ◌++◌, ◌∷◌, [], map, IfOk, IsTrue};
ghost use Rattle.syntax_tree.specs.declared.token.TokenKind.TheVariants as kind;
ghost use Rattle.syntax_tree.specs.Spelling.{kinds, joined, EndsWell};
ghost use Rattle.syntax_tree.specs.ModuleWords.{first_words, open_words, paragraph_words, module_words};
ghost use Rattle.syntax_tree.specs.ModuleRules.{module_right};
ghost use Rattle.syntax_expr.specs.Reads.{Reads};

use crate::header::{header, opens};
use crate::paragraph::paragraphs;
use base_types::{Fault, Rule};
use std::alloc::Global;
use syntax_expr::Cursor;
use syntax_tree::{Module, Token};

/// The module that the tokens spell, whose trees have a depth of this limit at most.
pub fn parse_module(alloc: Global, tokens: &[Token], limit: u16) -> Result<Module, Fault>
    requires { EndsWell tokens.now }
    ensures spells { IfOk result (λ m. kinds tokens.now ≡ module_words m) }
    ensures right { IfOk result (λ m. IsTrue (module_right limit m)) }
{
    let mut cursor = Cursor::new(tokens);
    let header = header(alloc, &mut cursor)?;
    let opens = opens(alloc, &mut cursor)?;
    let paragraphs = paragraphs(alloc, &mut cursor, limit)?;
    if !cursor.is_at_end() {
        return Err(cursor.refuse(Rule::Syntax));
    }
    Ok(Module {
        header,
        opens,
        paragraphs,
    })
}
