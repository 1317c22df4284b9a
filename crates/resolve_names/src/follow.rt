//! The part of a name before its last slash leads to instances.

ghost use Rattle.std.specs.Prelude.{◌≡◌, ◌+◌, ◌<◌, true, false, IfOk, [], ◌∷◌, Contains, length};
ghost use Rattle.std.specs.Str.{bytes_eq};
ghost use Rattle.resolve_names.specs.declared.table.Link.{Link};
ghost use Rattle.resolve_names.specs.Lookup.{may_follow};
ghost use Rattle.resolve_names.specs.Marks.{AreLed, IsLinked, AreOpened, AreFollowed, AreBehind};
ghost use Rattle.resolve_names.specs.Visible.{path_of, last_of};

use crate::reach::{is_marked, mark, no_marks, opens_of, reached};
use crate::table::{Link, Names, Namespace};
use base_types::Name;
use std::alloc::{AllocError, Global};

/// Whether two names are the same.
pub fn same_text(a: &str, b: &str) -> bool
    ensures { result ≡ bytes_eq a.now b.now }
{
    a.as_bytes() == b.as_bytes()
}

/// The parts before the last one.
pub fn path_before(parts: &[Name]) -> &[Name]
    ensures { result.now ≡ path_of parts.now }
{
    if parts.is_empty() {
        return parts;
    }
    &parts[..parts.len() - 1]
}

/// The last part.
pub fn last_part(parts: &[Name]) -> &str
    ensures { result.now ≡ last_of parts.now }
{
    if parts.is_empty() {
        return "";
    }
    parts[parts.len() - 1].text()
}

/// Whether an open has the alias and may be followed.
fn is_step(link: &Link, alias: &Name, is_own: bool) -> bool
    ensures { result ≡ may_follow is_own alias.now link.now }
{
    same_text(link.alias.text(), alias.text()) && (is_own || !link.is_private)
}

/// Marks the instance to which an open leads, where it has the alias and may be followed.
fn mark_step(link: &Link, alias: &Name, is_own: bool, marks: &mut Vec<bool>)
    requires { link.now.instance < length marks.old.items }
    ensures { AreOpened is_own alias.now (link.now ∷ []) marks.old.items marks.new.items }
{
    let is_followed = is_step(link, alias, is_own);
    if is_followed {
        mark(link.instance as usize, marks);
    }
}

/// Marks the instances to which those of the opens lead that have the alias and may be followed.
fn mark_opens(opens: &[Link], alias: &Name, is_own: bool, marks: &mut Vec<bool>)
    requires { (o : Link) → Contains opens.now o → o.instance < length marks.old.items }
    ensures { AreOpened is_own alias.now opens.now marks.old.items marks.new.items }
{
    for open in opens {
        mark_step(open, alias, is_own, marks);
    }
}

/// Marks the instances to which opens with the alias lead from one instance, where that was marked.
fn follow_from(
    scopes: &[Namespace],
    from: usize,
    alias: &Name,
    before: &[bool],
    number: usize,
    marks: &mut Vec<bool>,
)
    requires linked { IsLinked scopes.now }
    requires number { number < length scopes.now }
    requires begun { AreFollowed scopes.now from alias.now before.now number marks.old.items }
    ensures { AreFollowed scopes.now from alias.now before.now (number + 1) marks.new.items }
{
    let was_marked = is_marked(before, number);
    if was_marked {
        let opens = opens_of(scopes, number);
        mark_opens(opens, alias, number == from, marks);
    }
}

/// Marks of the instances to which opens with the alias lead from marked ones.
fn follow_one(
    alloc: Global,
    scopes: &[Namespace],
    from: usize,
    alias: &Name,
    before: &[bool],
) -> Result<Vec<bool>, AllocError>
    requires { IsLinked scopes.now }
    ensures { IfOk result (λ m. AreFollowed scopes.now from alias.now before.now (length scopes.now)
        m.items) }
{
    let mut marks = no_marks(alloc, scopes.len())?;
    for number in 0..scopes.len() {
        follow_from(scopes, from, alias, before, number, &mut marks);
    }
    Ok(marks)
}

/// Marks of the instances to which opens with the aliases in turn lead from one.
fn follow(
    alloc: Global,
    scopes: &[Namespace],
    from: usize,
    path: &[Name],
) -> Result<Vec<bool>, AllocError>
    requires from { from < length scopes.now }
    requires linked { IsLinked scopes.now }
    ensures { IfOk result (λ m. AreBehind scopes.now from path.now m.items) }
{
    let mut marks = own_mark(alloc, scopes, from)?;
    for alias in path {
        marks = follow_one(alloc, scopes, from, alias, marks.as_slice())?;
    }
    Ok(marks)
}

/// Marks of one instance.
fn own_mark(alloc: Global, scopes: &[Namespace], from: usize) -> Result<Vec<bool>, AllocError>
    requires { from < length scopes.now }
    ensures { IfOk result (λ m. AreLed scopes.now from true [] m.items) }
{
    let mut marks = no_marks(alloc, scopes.len())?;
    mark(from, &mut marks);
    Ok(marks)
}

/// Marks of the instances that one reaches.
fn reached_marks(alloc: Global, names: &Names, from: usize) -> Result<Vec<bool>, AllocError>
    requires { from < length names.now.scopes }
    ensures { IfOk result (λ m. AreLed names.now.scopes from false [] m.items) }
{
    let marks = reached(alloc, names.scopes.as_slice(), from)?;
    Ok(marks)
}

/// Marks of the instances to which a name without a path leads.
fn led_at_once(
    alloc: Global,
    names: &Names,
    from: usize,
    is_own: bool,
) -> Result<Vec<bool>, AllocError>
    requires { from < length names.now.scopes }
    ensures { IfOk result (λ m. AreLed names.now.scopes from is_own [] m.items) }
{
    if is_own {
        let own = own_mark(alloc, names.scopes.as_slice(), from)?;
        return Ok(own);
    }
    let marks = reached_marks(alloc, names, from)?;
    Ok(marks)
}

/// Marks of the instances to which a path leads.
fn path_marks(
    alloc: Global,
    names: &Names,
    from: usize,
    path: &[Name],
) -> Result<Vec<bool>, AllocError>
    requires { from < length names.now.scopes }
    ensures { IfOk result (λ m. AreBehind names.now.scopes from path.now m.items) }
{
    let marks = follow(alloc, names.scopes.as_slice(), from, path)?;
    Ok(marks)
}

/// Marks of the instances to which the part before a name leads.
pub fn led(
    alloc: Global,
    names: &Names,
    from: usize,
    is_own: bool,
    path: &[Name],
) -> Result<Vec<bool>, AllocError>
    requires { from < length names.now.scopes }
    ensures { IfOk result (λ m. AreLed names.now.scopes from is_own path.now m.items) }
{
    if path.is_empty() {
        let own = led_at_once(alloc, names, from, is_own)?;
        return Ok(own);
    }
    let marks = path_marks(alloc, names, from, path)?;
    Ok(marks)
}
