//! Counts what a text declares.

ghost use Rattle.std.specs.Prelude.{◌≡◌, ◌+◌, IfOk, MatchOption, length, sum_by};
ghost use Rattle.syntax_tree.specs.Instances.{sigs_in, sig_count, parameter_count, names_in, names_of};
ghost use Rattle.load_state.specs.Weights.{weight_at, total_weight};

use std::alloc::AllocError;
use syntax_tree::{Decl, Expr, Instance, Module, Named, Paragraph, Parameters, Sig};

/// The sum of two numbers, where there is one.
pub fn plus(a: usize, b: usize) -> Result<usize, AllocError>
    ensures { IfOk result (λ n. n ≡ a + b) }
{
    a.checked_add(b).ok_or(AllocError)
}

/// How many sigs a text declares.
pub fn sig_count(tree: &Module) -> Result<usize, AllocError>
    ensures { IfOk result (λ n. n ≡ sig_count tree.now) }
{
    let mut total = 0;
    for paragraph in tree.paragraphs.as_slice() {
        total = plus(total, sigs_in(paragraph)?)?;
    }
    Ok(total)
}

/// How many sigs a paragraph declares.
fn sigs_in(paragraph: &Paragraph) -> Result<usize, AllocError>
    ensures { IfOk result (λ n. n ≡ sigs_in paragraph.now) }
{
    match paragraph {
        Paragraph::Sig(sig) => Ok(sig.names.len()),
        Paragraph::Enum(e) => plus(1, e.members.len()),
        _ => Ok(0),
    }
}

/// How many parameters a text has.
pub fn parameter_count(tree: &Module) -> usize
    ensures { result ≡ parameter_count tree.now }
{
    match &tree.header {
        Some(header) => header.parameters.len(),
        None => 0,
    }
}

/// How many paragraphs a text has, and names that it declares, those of parameters among them.
pub fn names_of(tree: &Module) -> Result<usize, AllocError>
    ensures { IfOk result (λ n. n ≡ names_of tree.now) }
{
    let mut total = 0;
    for paragraph in tree.paragraphs.as_slice() {
        total = plus(total, plus(1, names_in(paragraph)?)?)?;
    }
    plus(parameter_count(tree), total)
}

/// How many names a paragraph declares.
fn names_in(paragraph: &Paragraph) -> Result<usize, AllocError>
    ensures { IfOk result (λ n. n ≡ names_in paragraph.now) }
{
    match paragraph {
        Paragraph::Sig(sig) => plus(sig.names.len(), field_names(sig)?),
        Paragraph::Enum(e) => plus(1, e.members.len()),
        Paragraph::Fact(claim) => Ok(title_count(&claim.name)),
        Paragraph::Assert(claim) => Ok(title_count(&claim.name)),
        Paragraph::Pred(pred) => plus(1, parameter_names(&pred.parameters)?),
        Paragraph::Fun(fun) => plus(1, parameter_names(&fun.parameters)?),
        Paragraph::Command(_) => Ok(0),
    }
}

/// How many fields a sig declares.
fn field_names(sig: &Sig) -> Result<usize, AllocError>
    ensures { IfOk result (λ n. n ≡ sum_by (λ f. length f.names) sig.now.fields) }
{
    let mut total = 0;
    for field in sig.fields.as_slice() {
        total = plus(total, field.names.len())?;
    }
    Ok(total)
}

/// How many parameters a list of them declares, where there is one.
fn parameter_names(parameters: &Option<Parameters>) -> Result<usize, AllocError>
    ensures { IfOk result (λ n. MatchOption parameters.now (n ≡ 0)
        (λ p. n ≡ sum_by (λ d. length d.names) p.decls)) }
{
    match parameters {
        Some(parameters) => decl_names(parameters.decls.as_slice()),
        None => Ok(0),
    }
}

/// How many names declarations declare.
fn decl_names(decls: &[Decl<Expr>]) -> Result<usize, AllocError>
    ensures { IfOk result (λ n. n ≡ sum_by (λ d. length d.names) decls.now) }
{
    let mut total = 0;
    for decl in decls {
        total = plus(total, decl.names.len())?;
    }
    Ok(total)
}

/// The number of names of a block that may have one.
fn title_count(name: &Option<Named>) -> usize
    ensures { MatchOption name.now (result ≡ 0) (λ named. result ≡ 1) }
{
    match name {
        Some(_) => 1,
        None => 0,
    }
}

/// The sum of the weights of the texts of all instances.
pub fn weight(weights: &[usize], instances: &[Instance]) -> Result<usize, AllocError>
    ensures { IfOk result (λ n. n ≡ total_weight weights.now instances.now) }
{
    let mut total = 0;
    for instance in instances {
        total = plus(total, weight_at(weights, instance.text))?;
    }
    Ok(total)
}

/// The weight of a text, or 0 where there is no such text.
fn weight_at(weights: &[usize], text: u32) -> usize
    ensures { result ≡ weight_at weights.now text }
{
    match weights.get(text as usize) {
        Some(weight) => *weight,
        None => 0,
    }
}
