//! The name of a command stands for predicates or assertions.

use crate::words::last_text;
use core_tree::Assert;
use resolve_names::{Decl, Names};
use std::alloc::{AllocError, Global};
use syntax_tree::QualName;

fn is_predicate(functions: &[bool], body: u32) -> bool {
    match functions.get(body as usize) {
        None => false,
        Some(is_function) => !*is_function,
    }
}

fn add_predicate(found: &mut Vec<u32>, functions: &[bool], decl: Decl) -> Result<(), AllocError> {
    match decl {
        Decl::Body(body) => {
            if is_predicate(functions, body) {
                found.push(body)?;
            }
            Ok(())
        }
        _ => Ok(()),
    }
}

/// The predicates that a name in an instance stands for, by their numbers. `functions` says of each
/// body whether it is a function.
pub fn predicates_named(
    alloc: Global,
    names: &Names,
    functions: &[bool],
    instance: u32,
    name: &QualName,
) -> Result<Vec<u32>, AllocError> {
    let mut found = Vec::new(alloc);
    if instance as usize >= names.scopes.len() {
        return Ok(found);
    }
    let decls = names.candidates(alloc, instance, name)?;
    for decl in decls.as_slice() {
        add_predicate(&mut found, functions, *decl)?;
    }
    Ok(found)
}

fn is_marked(marks: &[bool], instance: u32) -> bool {
    match marks.get(instance as usize) {
        None => false,
        Some(mark) => *mark,
    }
}

fn is_named(assertion: &Assert, marks: &[bool], name: &str) -> bool {
    match &assertion.name {
        None => false,
        Some(own) => own.text() == name && is_marked(marks, assertion.instance),
    }
}

fn add_assert(
    found: &mut Vec<u32>,
    asserts: &[Assert],
    marks: &[bool],
    name: &str,
    place: usize,
) -> Result<(), AllocError> {
    match (asserts.get(place), u32::try_from(place)) {
        (Some(assertion), Ok(number)) => {
            if is_named(assertion, marks, name) {
                found.push(number)?;
            }
            Ok(())
        }
        _ => Ok(()),
    }
}

/// The assertions that a name in an instance stands for, by their places among all.
pub fn asserts_named(
    alloc: Global,
    names: &Names,
    asserts: &[Assert],
    instance: u32,
    name: &QualName,
) -> Result<Vec<u32>, AllocError> {
    let mut found = Vec::new(alloc);
    if instance as usize >= names.scopes.len() {
        return Ok(found);
    }
    let marks = names.instances_of(alloc, instance, name)?;
    for place in 0..asserts.len() {
        add_assert(
            &mut found,
            asserts,
            marks.as_slice(),
            last_text(name),
            place,
        )?;
    }
    Ok(found)
}
