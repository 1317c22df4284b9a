//! Whether lines and types are those of the sigs.

ghost use Rattle.std.specs.Prelude.{◌≡◌, true, IfOk};
ghost use Rattle.resolve_told_types.specs.Kinds.{kinds_of};
ghost use Rattle.resolve_told_types.specs.Told.{AreSigTypes};

use crate::lines::are_lines;
use crate::outermost::{is_iden, is_univ};
use crate::types::are_types;
use base_lists::Items;
use core_tree::Sig;
use resolve_types::Columns;
use std::alloc::{AllocError, Global};

/// Whether these are the lines of the sigs, the type of each, and those of `univ` and `iden`, in
/// the order of rows in which they are worked out.
///
/// The sigs are the declared ones and `String`, without the literals' sigs.
pub fn are_sig_types(
    alloc: Global,
    sigs: &[Sig],
    lines: &[Items<u32>],
    types: &[Columns],
    univ: &Columns,
    iden: &Columns,
) -> Result<bool, AllocError>
    ensures { IfOk result (λ b. b ≡ true
        → AreSigTypes (kinds_of sigs.now) lines.now types.now univ.now iden.now) }
{
    if !are_lines(sigs, lines) {
        return Ok(false);
    }
    let are_right = are_types(alloc, sigs, types)?;
    if !are_right {
        return Ok(false);
    }
    if !is_univ(sigs, univ) {
        return Ok(false);
    }
    Ok(is_iden(sigs, univ, iden))
}
