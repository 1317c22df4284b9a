//! Parses the names of sigs.

ghost use Rattle.std.specs.Prelude.{◌≡◌, ◌++◌, ◌∷◌, [], ◌<◌, length, map, IfOk, IsTrue};
ghost use Rattle.syntax_tree.specs.declared.token.Symbol.TheVariants as s;
ghost use Rattle.syntax_tree.specs.Spelling.{kinds, separated};
ghost use Rattle.syntax_tree.specs.ModuleWords.{sig_name_words};
ghost use Rattle.syntax_tree.specs.Levels.{every};
ghost use Rattle.syntax_tree.specs.ModuleRules.{sig_name_right};
ghost use Rattle.syntax_expr.specs.Reads.{Reads};

use base_lists::Items;
use base_types::Fault;
use std::alloc::Global;
use syntax_expr::{Cursor, qual_name};
use syntax_tree::{SigName, Symbol, Word};

/// The name of a sig, or `Int`.
pub fn sig_name(alloc: Global, cursor: &mut Cursor<'_>) -> Result<SigName, Fault>
    ensures right { IfOk result (λ name. IsTrue (sig_name_right name)) }
    ensures reads { Reads sig_name_words cursor.old result cursor.new }
{
    let place = cursor.place();
    if cursor.eat_word(Word::Int) {
        return Ok(SigName::Int(place));
    }
    Ok(SigName::Name(qual_name(alloc, cursor)?))
}

/// One or more names of sigs, with the mark between two of them.
pub fn sig_names(
    alloc: Global,
    cursor: &mut Cursor<'_>,
    mark: Symbol,
) -> Result<Items<SigName>, Fault>
    ensures some { IfOk result (λ found. 0 < length found) }
    ensures right { IfOk result (λ found. IsTrue (every sig_name_right found)) }
    ensures reads { Reads (λ names. separated mark (map sig_name_words names)) cursor.old result
        cursor.new }
{
    let mut found = Items::new(alloc);
    let first = sig_name(alloc, cursor)?;
    found.push(first)?;
    for _turn in 0..cursor.left() {
        if !cursor.eat(mark) {
            break;
        }
        let next = sig_name(alloc, cursor)?;
        found.push(next)?;
    }
    Ok(found)
}
