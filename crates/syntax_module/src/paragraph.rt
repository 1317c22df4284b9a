//! Parses paragraphs up to the end of a text: the first word says which one comes.

ghost use Rattle.std.specs.Prelude.{◌≡◌, ◌++◌, ◌∷◌, map, IfOk, IsTrue};
ghost use Rattle.syntax_tree.specs.declared.token.Word.TheVariants as w;
ghost use Rattle.syntax_tree.specs.Spelling.{kinds, joined};
ghost use Rattle.syntax_tree.specs.ModuleWords.{claim_words, sig_words, enum_words, pred_words, fun_words, command_words, paragraph_words};
ghost use Rattle.syntax_tree.specs.Levels.{every};
ghost use Rattle.syntax_tree.specs.ModuleRules.{paragraph_right};
ghost use Rattle.syntax_expr.specs.Reads.{Reads};

use crate::bodies::{claim, fun, pred};
use crate::command::command;
use crate::sig::{enumeration, sig};
use crate::word::sees_private;
use base_lists::Items;
use base_types::Fault;
use std::alloc::Global;
use syntax_expr::Cursor;
use syntax_tree::{Paragraph, Word};

/// The word that says what the paragraph is, where the next token is no name.
fn leading(cursor: &Cursor<'_>) -> Option<Word> {
    if sees_private(cursor.rest(), Word::Pred) {
        return Some(Word::Pred);
    }
    if sees_private(cursor.rest(), Word::Fun) {
        return Some(Word::Fun);
    }
    cursor.word()
}

fn paragraph(alloc: Global, cursor: &mut Cursor<'_>, limit: u16) -> Result<Paragraph, Fault>
    ensures right { IfOk result (λ found. IsTrue (paragraph_right limit found)) }
    ensures reads { Reads paragraph_words cursor.old result cursor.new }
{
    match leading(cursor) {
        Some(Word::Enum) => Ok(Paragraph::Enum(enumeration(alloc, cursor)?)),
        Some(Word::Fact) => Ok(Paragraph::Fact(claim(alloc, cursor, limit, Word::Fact)?)),
        Some(Word::Assert) => Ok(Paragraph::Assert(claim(alloc, cursor, limit, Word::Assert)?)),
        Some(Word::Pred) => Ok(Paragraph::Pred(pred(alloc, cursor, limit)?)),
        Some(Word::Fun) => Ok(Paragraph::Fun(fun(alloc, cursor, limit)?)),
        Some(Word::Run | Word::Check) | None => Ok(Paragraph::Command(command(
            alloc, cursor, limit,
        )?)),
        Some(_) => Ok(Paragraph::Sig(sig(alloc, cursor, limit)?)),
    }
}

/// The paragraphs up to the end of the text.
pub fn paragraphs(
    alloc: Global,
    cursor: &mut Cursor<'_>,
    limit: u16,
) -> Result<Items<Paragraph>, Fault>
    ensures right { IfOk result (λ found. IsTrue (every (paragraph_right limit) found)) }
    ensures reads { Reads (λ found. joined (map paragraph_words found)) cursor.old result
        cursor.new }
{
    let mut found = Items::new(alloc);
    for _turn in 0..cursor.left() {
        if cursor.is_at_end() {
            break;
        }
        let next = paragraph(alloc, cursor, limit)?;
        found.push(next)?;
    }
    Ok(found)
}
