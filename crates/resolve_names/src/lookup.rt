//! A name stands for declarations of the instances that its own instance reaches.

ghost use Rattle.std.specs.Prelude.{◌≡◌, [], ◌+◌, ◌++◌, ◌<◌, ◌==◌, length, slice_get, IfOk, IfSome, OnOk};
ghost use Rattle.std.specs.List.{cons_option};
ghost use Rattle.resolve_names.specs.Gathered.{number_in};
ghost use Rattle.resolve_names.specs.Lookup.{has_name, seen_in, seen_of, seen_from};
ghost use Rattle.resolve_names.specs.Marks.{AreLed};
ghost use Rattle.resolve_names.specs.Visible.{AreCandidates, path_of};

use crate::follow::{last_part, led, path_before, same_text};
use crate::reach::is_marked;
use crate::table::{Decl, Declared, Names, Namespace};
use std::alloc::{AllocError, Global};
use syntax_tree::{QualName, SigRef};

/// Whether the declaration of a marked instance is seen.
fn is_seen(one: &Declared, is_own: bool, name: &str) -> bool
    ensures { result ≡ has_name is_own name.now one.now }
{
    same_text(one.name.text(), name) && (is_own || !one.is_private)
}

/// The declaration of a marked instance, where it is seen.
pub fn seen_one(one: &Declared, is_own: bool, name: &str) -> Option<Decl>
    ensures { result ≡ seen_in is_own name.now one.now }
{
    if is_seen(one, is_own, name) {
        Some(one.what)
    } else {
        None
    }
}

/// Puts a declaration at the end, where there is one.
pub fn add_some(all: &mut Vec<Decl>, one: Option<Decl>) -> Result<(), AllocError>
    ensures { OnOk result (all.new.items ≡ all.old.items ++ cons_option one []) }
{
    match one {
        Some(one) => {
            all.push(one)?;
            Ok(())
        }
        None => Ok(()),
    }
}

/// Adds the declarations of an instance that are seen, where it is marked.
fn add_scope(
    marks: &[bool],
    from: usize,
    name: &str,
    number: usize,
    scope: &Namespace,
    all: &mut Vec<Decl>,
) -> Result<(), AllocError>
    ensures { OnOk result (all.new.items ≡ all.old.items
        ++ seen_of (slice_get marks.now number) (number == from) name.now scope.now.declared) }
{
    if !is_marked(marks, number) {
        return Ok(());
    }
    scope.declared.add_seen(number == from, name, all)
}

/// The declarations of all marked instances that are seen.
fn all_seen(
    alloc: Global,
    scopes: &[Namespace],
    marks: &[bool],
    from: usize,
    name: &str,
) -> Result<Vec<Decl>, AllocError>
    ensures { IfOk result (λ s. s.items ≡ seen_from marks.now from name.now 0 scopes.now) }
{
    let mut all = Vec::new(alloc);
    for number in 0..scopes.len() {
        add_scope(marks, from, name, number, &scopes[number], &mut all)?;
    }
    Ok(all)
}

/// The number over all instances of a sig of an instance; None where it has none of that number.
fn number_of(scope: &Namespace, sig: u32) -> Option<u32>
    ensures { IfSome result (λ n. n ≡ scope.now.first_sig + sig) }
{
    if sig >= scope.sigs {
        return None;
    }
    scope.first_sig.checked_add(sig)
}

impl Names {
    /// What a name stands for where it is written in an instance: the visible declarations of that
    /// name, in load order and then text order.
    ///
    /// Without a path these are those of the instance and of all that it reaches by opens; after
    /// `this/` those of the instance; after a path those of the instances behind its aliases. A
    /// private name is seen in its own module alone, and a private open is followed from its own
    /// module alone. Variables and parameters of predicates and functions play no part here.
    pub fn candidates(
        &self,
        alloc: Global,
        instance: u32,
        name: &QualName,
    ) -> Result<Vec<Decl>, AllocError>
        requires { instance < length self.now.scopes }
        ensures { IfOk result (λ found. AreCandidates self.now.scopes instance name.now
            found.items) }
    {
        let from = instance as usize;
        let parts = name.parts.as_slice();
        let marks = led(alloc, self, from, name.is_own, path_before(parts))?;
        let scopes = self.scopes.as_slice();
        let all = all_seen(alloc, scopes, marks.as_slice(), from, last_part(parts))?;
        Ok(all)
    }

    /// The number of a sig over all instances; None where it names no sig.
    pub fn sig_number(&self, sig: SigRef) -> Option<u32>
        ensures { IfSome result (λ n. n ≡ number_in self.now.scopes sig) }
    {
        match self.scopes.as_slice().get(sig.instance as usize) {
            None => None,
            Some(scope) => number_of(scope, sig.sig),
        }
    }

    /// The marks of the instances from which a name of the path in an instance may come, as for
    /// `candidates`; the names of assertions are looked up in them.
    pub fn instances_of(
        &self,
        alloc: Global,
        instance: u32,
        name: &QualName,
    ) -> Result<Vec<bool>, AllocError>
        requires { instance < length self.now.scopes }
        ensures { IfOk result (λ m. AreLed self.now.scopes instance name.now.is_own
            (path_of name.now.parts) m.items) }
    {
        let path = path_before(name.parts.as_slice());
        let marks = led(alloc, self, instance as usize, name.is_own, path)?;
        Ok(marks)
    }
}
