//! Gathers the string literals of a text, in the order in which they stand there.

use base_lists::Boxed;
use base_types::Name;
use std::alloc::{AllocError, Global};
use syntax_tree::{
    Access, Binding, Command, Decl, Expr, Field, Infix, Module, Paragraph, Parameters, Subject,
};

/// Adds the literals of an expression.
#[cycle(gather)]
fn gather(alloc: Global, all: &mut Vec<Name>, tree: &Expr) -> Result<(), AllocError> {
    match tree {
        Expr::Literal(_, text) => {
            all.push(Name::copy(alloc, text.text())?)?;
            Ok(())
        }
        Expr::Name(_)
        | Expr::At(_, _)
        | Expr::Constant(_, _)
        | Expr::Number(_, _)
        | Expr::Negative(_, _) => Ok(()),
        Expr::Parenthesis(_, inner) => gather(alloc, all, inner.get()),
        Expr::Block(_, items) => gather_items(alloc, all, items.as_slice()),
        Expr::Comprehension(_, decls, _, body) => {
            gather_decls(alloc, all, decls.as_slice())?;
            gather(alloc, all, body.get())
        }
        Expr::Quantified(_, _, decls, _, body) => {
            gather_decls(alloc, all, decls.as_slice())?;
            gather(alloc, all, body.get())
        }
        Expr::Let(_, bindings, _, body) => {
            gather_values(alloc, all, bindings.as_slice())?;
            gather(alloc, all, body.get())
        }
        Expr::Sequence(first, second) => {
            gather(alloc, all, first.get())?;
            gather(alloc, all, second.get())
        }
        Expr::Implication(_, condition, consequence, other) => {
            gather(alloc, all, condition.get())?;
            gather(alloc, all, consequence.get())?;
            gather_other(alloc, all, other)
        }
        Expr::Compare(_, left, right) => {
            gather(alloc, all, left.get())?;
            gather(alloc, all, right.get())
        }
        Expr::Prefix(_, _, operand) => gather(alloc, all, operand.get()),
        Expr::Infix(first, links) => {
            gather(alloc, all, first.get())?;
            gather_links(alloc, all, links.as_slice())
        }
        Expr::Join(first, steps) => {
            gather(alloc, all, first.get())?;
            gather_steps(alloc, all, steps.as_slice())
        }
        Expr::Prime(operand) => gather(alloc, all, operand.get()),
    }
}

#[cycle(gather)]
fn gather_other(
    alloc: Global,
    all: &mut Vec<Name>,
    other: &Option<Boxed<Expr>>,
) -> Result<(), AllocError> {
    match other {
        None => Ok(()),
        Some(other) => gather(alloc, all, other.get()),
    }
}

#[cycle(gather)]
fn gather_items(alloc: Global, all: &mut Vec<Name>, items: &[Expr]) -> Result<(), AllocError> {
    for item in items {
        gather(alloc, all, item)?;
    }
    Ok(())
}

#[cycle(gather)]
fn gather_decls(
    alloc: Global,
    all: &mut Vec<Name>,
    decls: &[Decl<Expr>],
) -> Result<(), AllocError> {
    for decl in decls {
        gather(alloc, all, &decl.bound)?;
    }
    Ok(())
}

#[cycle(gather)]
fn gather_values(
    alloc: Global,
    all: &mut Vec<Name>,
    bindings: &[Binding<Expr>],
) -> Result<(), AllocError> {
    for binding in bindings {
        gather(alloc, all, &binding.value)?;
    }
    Ok(())
}

#[cycle(gather)]
fn gather_links(
    alloc: Global,
    all: &mut Vec<Name>,
    links: &[(Infix, Expr)],
) -> Result<(), AllocError> {
    for link in links {
        gather(alloc, all, &link.1)?;
    }
    Ok(())
}

#[cycle(gather)]
fn gather_steps(
    alloc: Global,
    all: &mut Vec<Name>,
    steps: &[Access<Expr>],
) -> Result<(), AllocError> {
    for step in steps {
        match step {
            Access::Dot(operand) => gather(alloc, all, operand)?,
            Access::Bracket(arguments) => {
                let arguments = arguments.as_slice();
                for argument in arguments {
                    gather(alloc, all, argument)?;
                }
            }
        }
    }
    Ok(())
}

fn gather_fields(alloc: Global, all: &mut Vec<Name>, fields: &[Field]) -> Result<(), AllocError> {
    for field in fields {
        gather(alloc, all, &field.bound.tree)?;
    }
    Ok(())
}

fn gather_block(
    alloc: Global,
    all: &mut Vec<Name>,
    block: &Option<Expr>,
) -> Result<(), AllocError> {
    match block {
        None => Ok(()),
        Some(block) => gather(alloc, all, block),
    }
}

fn gather_parameters(
    alloc: Global,
    all: &mut Vec<Name>,
    parameters: &Option<Parameters>,
) -> Result<(), AllocError> {
    match parameters {
        None => Ok(()),
        Some(parameters) => gather_decls(alloc, all, parameters.decls.as_slice()),
    }
}

fn gather_command(alloc: Global, all: &mut Vec<Name>, command: &Command) -> Result<(), AllocError> {
    match &command.subject {
        Subject::Name(_) => Ok(()),
        Subject::Block(block) => gather(alloc, all, block),
        Subject::Labelled(_, block) => gather(alloc, all, block),
    }
}

fn gather_paragraph(
    alloc: Global,
    all: &mut Vec<Name>,
    paragraph: &Paragraph,
) -> Result<(), AllocError> {
    match paragraph {
        Paragraph::Sig(sig) => {
            gather_fields(alloc, all, sig.fields.as_slice())?;
            gather_block(alloc, all, &sig.block)
        }
        Paragraph::Enum(_) => Ok(()),
        Paragraph::Fact(claim) => gather(alloc, all, &claim.block),
        Paragraph::Assert(claim) => gather(alloc, all, &claim.block),
        Paragraph::Pred(pred) => {
            gather_parameters(alloc, all, &pred.parameters)?;
            gather(alloc, all, &pred.block)
        }
        Paragraph::Fun(fun) => {
            gather_parameters(alloc, all, &fun.parameters)?;
            gather(alloc, all, &fun.result.tree)?;
            gather(alloc, all, &fun.value)
        }
        Paragraph::Command(command) => gather_command(alloc, all, command),
    }
}

/// Adds the literals of a text.
pub(crate) fn gather_module(
    alloc: Global,
    all: &mut Vec<Name>,
    module: &Module,
) -> Result<(), AllocError> {
    for paragraph in module.paragraphs.as_slice() {
        gather_paragraph(alloc, all, paragraph)?;
    }
    Ok(())
}
