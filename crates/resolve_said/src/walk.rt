//! Walks over an expression and a part of the resolved tree side by side.

ghost use Rattle.std.specs.Prelude.{◌≡◌, ◌+◌, ◌∷◌, map, slice_index_or, take, true, IfOk, IfSome};
ghost use Rattle.syntax_tree.specs.declared.expr.Expr.{Expr};
ghost use Rattle.syntax_tree.specs.declared.expr.Decl.{Decl};
ghost use Rattle.core_tree.specs.Trees.{Claim, claim_of, variable_of};
ghost use Rattle.resolve_said.specs.Locals.{scope_of, under_values};
ghost use Rattle.resolve_said.specs.Operators.{a_formula};
ghost use Rattle.resolve_said.specs.Parts.{said_by};
ghost use Rattle.resolve_said.specs.Said.{ConjunctsSay, DeclsSay, ItemsSay, LetSays, RowSays, Says, StepsSay, VariablesSay, standing_of};

use crate::leaves::says_leaf;
use crate::opened::{
    Begun, chosen, compared, comprehended, conjuncts, first_conjunct, followed, implied,
    is_conjunction, operand, operands, primed, quantified, under_let,
};
use crate::operators::is_and;
use crate::part::{Part, is_whole, last_taken};
use crate::place::Site;
use crate::scope::{Locals, find};
use crate::variables::{is_number, is_variable, variables_from};
use core_tree::{Formula, Variable};
use std::alloc::{AllocError, Global};
use syntax_tree::{Access, Binding, Decl, Expr as Tree, Infix};

/// Whether the part is what the expression says.
#[cycle(walk)]
pub fn says(
    alloc: Global,
    site: &Site<'_>,
    locals: &Locals<'_>,
    tree: &Tree,
    part: &Part<'_>,
) -> Result<bool, AllocError>
    ensures { IfOk result (λ b. b ≡ true → Says (standing_of site.now) (scope_of locals.now)
        tree.now (said_by part.now)) }
{
    match tree {
        Tree::Parenthesis(_, inner) => {
            if !is_whole(part) {
                return Ok(false);
            }
            let said = says(alloc, site, locals, inner.get(), part)?;
            Ok(said)
        }
        Tree::Prime(_) => says_prime(alloc, site, locals, tree, part),
        Tree::Prefix(_, _, _) => says_prefix(alloc, site, locals, tree, part),
        Tree::Infix(_, _) => {
            if is_conjunction(part) {
                return says_conjunction(alloc, site, locals, tree, part);
            }
            says_infix(alloc, site, locals, tree, part)
        }
        Tree::Join(_, _) => says_join(alloc, site, locals, tree, part),
        Tree::Implication(_, _, _, _) => says_implication(alloc, site, locals, tree, part),
        Tree::Sequence(_, _) => says_sequence(alloc, site, locals, tree, part),
        Tree::Compare(_, _, _) => says_comparison(alloc, site, locals, tree, part),
        Tree::Block(_, _) => says_block(alloc, site, locals, tree, part),
        Tree::Let(_, _, _, _) => says_let(alloc, site, locals, tree, part),
        Tree::Comprehension(_, _, _, _) => says_comprehension(alloc, site, locals, tree, part),
        Tree::Quantified(_, _, _, _, _) => says_quantified(alloc, site, locals, tree, part),
        _ => says_leaf(alloc, site, locals, tree, part),
    }
}

/// Whether the part is what an expression with `'` says.
#[cycle(walk)]
fn says_prime(
    alloc: Global,
    site: &Site<'_>,
    locals: &Locals<'_>,
    tree: &Tree,
    part: &Part<'_>,
) -> Result<bool, AllocError>
    ensures { IfOk result (λ b. b ≡ true → Says (standing_of site.now) (scope_of locals.now)
        tree.now (said_by part.now)) }
{
    match tree {
        Tree::Prime(inner) => match primed(part) {
            None => Ok(false),
            Some(expr) => {
                let said = says(alloc, site, locals, inner.get(), &Part::Set(expr))?;
                Ok(said)
            }
        },
        _ => Ok(false),
    }
}

/// Whether the part is what an operator before its operand says.
#[cycle(walk)]
fn says_prefix(
    alloc: Global,
    site: &Site<'_>,
    locals: &Locals<'_>,
    tree: &Tree,
    part: &Part<'_>,
) -> Result<bool, AllocError>
    ensures { IfOk result (λ b. b ≡ true → Says (standing_of site.now) (scope_of locals.now)
        tree.now (said_by part.now)) }
{
    match tree {
        Tree::Prefix(_, op, inner) => match operand(*op, part) {
            None => Ok(false),
            Some(rest) => {
                let said = says(alloc, site, locals, inner.get(), &rest)?;
                Ok(said)
            }
        },
        _ => Ok(false),
    }
}

/// Whether the part is what a row of `and` says.
#[cycle(walk)]
fn says_conjunction(
    alloc: Global,
    site: &Site<'_>,
    locals: &Locals<'_>,
    tree: &Tree,
    part: &Part<'_>,
) -> Result<bool, AllocError>
    ensures { IfOk result (λ b. b ≡ true → Says (standing_of site.now) (scope_of locals.now)
        tree.now (said_by part.now)) }
{
    match tree {
        Tree::Infix(first, links) => match first_conjunct(part) {
            None => Ok(false),
            Some(Begun { start, others }) => {
                let first = first.get();
                let begun = says(alloc, site, locals, first, &Part::Formula(start))?;
                if !begun {
                    return Ok(false);
                }
                let links = links.as_slice();
                let said = says_conjuncts(alloc, site, locals, links, others)?;
                Ok(said)
            }
        },
        _ => Ok(false),
    }
}

/// Whether the part is what a row of operators says.
#[cycle(walk)]
fn says_infix(
    alloc: Global,
    site: &Site<'_>,
    locals: &Locals<'_>,
    tree: &Tree,
    part: &Part<'_>,
) -> Result<bool, AllocError>
    ensures { IfOk result (λ b. b ≡ true → Says (standing_of site.now) (scope_of locals.now)
        tree.now (said_by part.now)) }
{
    match tree {
        Tree::Infix(first, links) => {
            let links = links.as_slice();
            let found = before_row(alloc, site, locals, links, part)?;
            match found {
                None => Ok(false),
                Some(rest) => {
                    let first = first.get();
                    let said = says(alloc, site, locals, first, &rest)?;
                    Ok(said)
                }
            }
        }
        _ => Ok(false),
    }
}

/// Whether the operands behind the first of a row of `and` say the formulas behind the first.
#[cycle(walk)]
fn says_conjuncts(
    alloc: Global,
    site: &Site<'_>,
    locals: &Locals<'_>,
    links: &[(Infix, Tree)],
    formulas: &[Formula],
) -> Result<bool, AllocError>
    ensures { IfOk result (λ b. b ≡ true → (first : Expr) (c : Claim)
        → Says (standing_of site.now) (scope_of locals.now) first (a_formula c)
        → ConjunctsSay (standing_of site.now) (scope_of locals.now) first links.now
        (c ∷ map claim_of formulas.now)) }
{
    if formulas.len() != links.len() {
        return Ok(false);
    }
    for place in 0..links.len() {
        let link = &links[place];
        if !is_and(link.0) {
            return Ok(false);
        }
        let said = says(
            alloc,
            site,
            locals,
            &link.1,
            &Part::Formula(&formulas[place]),
        )?;
        if !said {
            return Ok(false);
        }
    }
    Ok(true)
}

/// What the first operand of a row has to say, where the others say their parts.
#[cycle(walk)]
fn before_row<'a>(
    alloc: Global,
    site: &Site<'_>,
    locals: &Locals<'_>,
    links: &[(Infix, Tree)],
    part: &Part<'a>,
) -> Result<Option<Part<'a>>, AllocError>
    ensures { IfOk result (λ o. IfSome o (λ r. (first : Expr)
        → Says (standing_of site.now) (scope_of locals.now) first (said_by r)
        → RowSays (standing_of site.now) (scope_of locals.now) first links.now
        (said_by part.now))) }
{
    let mut rest = *part;
    for step in 0..links.len() {
        let place = links.len() - 1 - step;
        let link = &links[place];
        let two = match operands(link.0, &rest) {
            None => return Ok(None),
            Some(two) => two,
        };
        let said = says(alloc, site, locals, &link.1, &two.right)?;
        if !said {
            return Ok(None);
        }
        rest = two.left;
    }
    Ok(Some(rest))
}

/// Whether the part is what a join says.
#[cycle(walk)]
fn says_join(
    alloc: Global,
    site: &Site<'_>,
    locals: &Locals<'_>,
    tree: &Tree,
    part: &Part<'_>,
) -> Result<bool, AllocError>
    ensures { IfOk result (λ b. b ≡ true → Says (standing_of site.now) (scope_of locals.now)
        tree.now (said_by part.now)) }
{
    match tree {
        Tree::Join(first, steps) => {
            let steps = steps.as_slice();
            let found = before_steps(alloc, site, locals, steps, part)?;
            match found {
                None => Ok(false),
                Some(rest) => {
                    let first = first.get();
                    let said = says(alloc, site, locals, first, &rest)?;
                    Ok(said)
                }
            }
        }
        _ => Ok(false),
    }
}

/// What the first operand of a join has to say, where the steps behind it say their parts.
#[cycle(walk)]
fn before_steps<'a>(
    alloc: Global,
    site: &Site<'_>,
    locals: &Locals<'_>,
    steps: &[Access<Tree>],
    part: &Part<'a>,
) -> Result<Option<Part<'a>>, AllocError>
    ensures { IfOk result (λ o. IfSome o (λ r. (first : Expr)
        → Says (standing_of site.now) (scope_of locals.now) first (said_by r)
        → StepsSay (standing_of site.now) (scope_of locals.now) first steps.now
        (said_by part.now))) }
{
    let mut rest = *part;
    for step in 0..steps.len() {
        let place = steps.len() - 1 - step;
        let found = before_step(alloc, site, locals, steps, place, &rest)?;
        match found {
            None => return Ok(None),
            Some(before) => rest = before,
        }
    }
    Ok(Some(rest))
}

/// What stands before the step at that place, where it says its parts.
#[cycle(walk)]
fn before_step<'a>(
    alloc: Global,
    site: &Site<'_>,
    locals: &Locals<'_>,
    steps: &[Access<Tree>],
    place: usize,
    part: &Part<'a>,
) -> Result<Option<Part<'a>>, AllocError>
    ensures { IfOk result (λ o. IfSome o (λ r. (first : Expr)
        → StepsSay (standing_of site.now) (scope_of locals.now) first (take place steps.now)
        (said_by r)
        → StepsSay (standing_of site.now) (scope_of locals.now) first
        (take (place + 1) steps.now) (said_by part.now))) }
{
    if place >= steps.len() {
        return Ok(None);
    }
    match &steps[place] {
        Access::Dot(operand) => {
            let taken = match last_taken(site.model, part) {
                None => return Ok(None),
                Some(taken) => taken,
            };
            let said = says(alloc, site, locals, operand, &taken.rest)?;
            if !said {
                return Ok(None);
            }
            Ok(Some(Part::Set(taken.argument)))
        }
        Access::Bracket(_) => {
            let found = before_box(alloc, site, locals, steps, place, part)?;
            Ok(found)
        }
    }
}

/// What stands before the box at that place, where its arguments say their parts.
#[cycle(walk)]
fn before_box<'a>(
    alloc: Global,
    site: &Site<'_>,
    locals: &Locals<'_>,
    steps: &[Access<Tree>],
    place: usize,
    part: &Part<'a>,
) -> Result<Option<Part<'a>>, AllocError>
    ensures { IfOk result (λ o. IfSome o (λ r. (first : Expr)
        → StepsSay (standing_of site.now) (scope_of locals.now) first (take place steps.now)
        (said_by r)
        → StepsSay (standing_of site.now) (scope_of locals.now) first
        (take (place + 1) steps.now) (said_by part.now))) }
{
    if place >= steps.len() {
        return Ok(None);
    }
    match &steps[place] {
        Access::Bracket(arguments) => {
            let arguments = arguments.as_slice();
            let mut rest = *part;
            for step in 0..arguments.len() {
                let argument = &arguments[arguments.len() - 1 - step];
                let taken = match last_taken(site.model, &rest) {
                    None => return Ok(None),
                    Some(taken) => taken,
                };
                let said = says(alloc, site, locals, argument, &Part::Set(taken.argument))?;
                if !said {
                    return Ok(None);
                }
                rest = taken.rest;
            }
            Ok(Some(rest))
        }
        _ => Ok(None),
    }
}

/// Whether the part is what `=>` says.
#[cycle(walk)]
fn says_implication(
    alloc: Global,
    site: &Site<'_>,
    locals: &Locals<'_>,
    tree: &Tree,
    part: &Part<'_>,
) -> Result<bool, AllocError>
    ensures { IfOk result (λ b. b ≡ true → Says (standing_of site.now) (scope_of locals.now)
        tree.now (said_by part.now)) }
{
    match tree {
        Tree::Implication(_, _, _, None) => says_implied(alloc, site, locals, tree, part),
        _ => says_choice(alloc, site, locals, tree, part),
    }
}

/// Whether the part is what `=>` without `else` says.
#[cycle(walk)]
fn says_implied(
    alloc: Global,
    site: &Site<'_>,
    locals: &Locals<'_>,
    tree: &Tree,
    part: &Part<'_>,
) -> Result<bool, AllocError>
    ensures { IfOk result (λ b. b ≡ true → Says (standing_of site.now) (scope_of locals.now)
        tree.now (said_by part.now)) }
{
    let two = match implied(part) {
        None => return Ok(false),
        Some(two) => two,
    };
    match tree {
        Tree::Implication(_, condition, consequence, other) => match other {
            Some(_) => Ok(false),
            None => {
                let first = condition.get();
                let second = consequence.get();
                let begun = says(alloc, site, locals, first, &Part::Formula(two.first))?;
                if !begun {
                    return Ok(false);
                }
                let said = says(alloc, site, locals, second, &Part::Formula(two.second))?;
                Ok(said)
            }
        },
        _ => Ok(false),
    }
}

/// Whether the part is what `=>` with `else` says.
#[cycle(walk)]
fn says_choice(
    alloc: Global,
    site: &Site<'_>,
    locals: &Locals<'_>,
    tree: &Tree,
    part: &Part<'_>,
) -> Result<bool, AllocError>
    ensures { IfOk result (λ b. b ≡ true → Says (standing_of site.now) (scope_of locals.now)
        tree.now (said_by part.now)) }
{
    let choice = match chosen(part) {
        None => return Ok(false),
        Some(choice) => choice,
    };
    match tree {
        Tree::Implication(_, condition, consequence, other) => match other {
            None => Ok(false),
            Some(other) => {
                let first = condition.get();
                let second = consequence.get();
                let third = other.get();
                let begun = says(alloc, site, locals, first, &Part::Formula(choice.condition))?;
                if !begun {
                    return Ok(false);
                }
                let further = says(alloc, site, locals, second, &choice.first)?;
                if !further {
                    return Ok(false);
                }
                let said = says(alloc, site, locals, third, &choice.second)?;
                Ok(said)
            }
        },
        _ => Ok(false),
    }
}

/// Whether the part is what `;` says.
#[cycle(walk)]
fn says_sequence(
    alloc: Global,
    site: &Site<'_>,
    locals: &Locals<'_>,
    tree: &Tree,
    part: &Part<'_>,
) -> Result<bool, AllocError>
    ensures { IfOk result (λ b. b ≡ true → Says (standing_of site.now) (scope_of locals.now)
        tree.now (said_by part.now)) }
{
    match tree {
        Tree::Sequence(first, second) => match followed(part) {
            None => Ok(false),
            Some(two) => {
                let first = first.get();
                let second = second.get();
                let begun = says(alloc, site, locals, first, &Part::Formula(two.first))?;
                if !begun {
                    return Ok(false);
                }
                let said = says(alloc, site, locals, second, &Part::Formula(two.second))?;
                Ok(said)
            }
        },
        _ => Ok(false),
    }
}

/// Whether the part is what a comparison says.
#[cycle(walk)]
fn says_comparison(
    alloc: Global,
    site: &Site<'_>,
    locals: &Locals<'_>,
    tree: &Tree,
    part: &Part<'_>,
) -> Result<bool, AllocError>
    ensures { IfOk result (λ b. b ≡ true → Says (standing_of site.now) (scope_of locals.now)
        tree.now (said_by part.now)) }
{
    match tree {
        Tree::Compare(comparison, left, right) => match compared(*comparison, part) {
            None => Ok(false),
            Some(two) => {
                let first = left.get();
                let second = right.get();
                let begun = says(alloc, site, locals, first, &Part::Set(two.left))?;
                if !begun {
                    return Ok(false);
                }
                let said = says(alloc, site, locals, second, &Part::Set(two.right))?;
                Ok(said)
            }
        },
        _ => Ok(false),
    }
}

/// Whether the part is what a block says.
#[cycle(walk)]
fn says_block(
    alloc: Global,
    site: &Site<'_>,
    locals: &Locals<'_>,
    tree: &Tree,
    part: &Part<'_>,
) -> Result<bool, AllocError>
    ensures { IfOk result (λ b. b ≡ true → Says (standing_of site.now) (scope_of locals.now)
        tree.now (said_by part.now)) }
{
    match tree {
        Tree::Block(_, items) => match conjuncts(part) {
            None => Ok(false),
            Some(formulas) => {
                let said = says_items(alloc, site, locals, items.as_slice(), formulas)?;
                Ok(said)
            }
        },
        _ => Ok(false),
    }
}

/// Whether the formulas are what the items say.
#[cycle(walk)]
fn says_items(
    alloc: Global,
    site: &Site<'_>,
    locals: &Locals<'_>,
    items: &[Tree],
    formulas: &[Formula],
) -> Result<bool, AllocError>
    ensures { IfOk result (λ b. b ≡ true → ItemsSay (standing_of site.now) (scope_of locals.now)
        items.now (map claim_of formulas.now)) }
{
    if items.len() != formulas.len() {
        return Ok(false);
    }
    for place in 0..items.len() {
        let said = says(
            alloc,
            site,
            locals,
            &items[place],
            &Part::Formula(&formulas[place]),
        )?;
        if !said {
            return Ok(false);
        }
    }
    Ok(true)
}

/// Whether the part is what a `let` says.
#[cycle(walk)]
fn says_let(
    alloc: Global,
    site: &Site<'_>,
    locals: &Locals<'_>,
    tree: &Tree,
    part: &Part<'_>,
) -> Result<bool, AllocError>
    ensures { IfOk result (λ b. b ≡ true → Says (standing_of site.now) (scope_of locals.now)
        tree.now (said_by part.now)) }
{
    match tree {
        Tree::Let(_, bindings, _, body) => {
            let bindings = bindings.as_slice();
            let found = under_values(alloc, site, locals, bindings, part)?;
            match found {
                None => Ok(false),
                Some(rest) => {
                    let body = body.get();
                    let inner = Locals::Bound(bindings, &*locals);
                    let said = says(alloc, site, &inner, body, &rest)?;
                    Ok(said)
                }
            }
        }
        _ => Ok(false),
    }
}

/// What stands under the names of a `let`, where their values say their parts.
#[cycle(walk)]
fn under_values<'a>(
    alloc: Global,
    site: &Site<'_>,
    locals: &Locals<'_>,
    bindings: &[Binding<Tree>],
    part: &Part<'a>,
) -> Result<Option<Part<'a>>, AllocError>
    ensures { IfOk result (λ o. IfSome o (λ r. (body : Expr)
        → Says (standing_of site.now) (under_values (scope_of locals.now) bindings.now) body
        (said_by r)
        → LetSays (standing_of site.now) (scope_of locals.now) bindings.now body
        (said_by part.now))) }
{
    let names_outside = find(locals, "")?;
    let outside = names_outside.count;
    let mut rest = *part;
    for place in 0..bindings.len() {
        let under = match under_let(&rest) {
            None => return Ok(None),
            Some(under) => under,
        };
        if !is_number(under.number, outside, place) {
            return Ok(None);
        }
        let inner = Locals::Bound(&bindings[..place], &*locals);
        let binding = &bindings[place];
        let said = says(alloc, site, &inner, &binding.value, &Part::Set(under.value))?;
        if !said {
            return Ok(None);
        }
        rest = under.body;
    }
    Ok(Some(rest))
}

/// Whether the part is what a comprehension says.
#[cycle(walk)]
fn says_comprehension(
    alloc: Global,
    site: &Site<'_>,
    locals: &Locals<'_>,
    tree: &Tree,
    part: &Part<'_>,
) -> Result<bool, AllocError>
    ensures { IfOk result (λ b. b ≡ true → Says (standing_of site.now) (scope_of locals.now)
        tree.now (said_by part.now)) }
{
    match tree {
        Tree::Comprehension(_, decls, _, body) => match comprehended(part) {
            None => Ok(false),
            Some(ranged) => {
                let decls = decls.as_slice();
                let body = body.get();
                let begun = says_decls(alloc, site, locals, decls, ranged.variables)?;
                if !begun {
                    return Ok(false);
                }
                let inner = Locals::Declared(decls, &*locals);
                let said = says(alloc, site, &inner, body, &ranged.body)?;
                Ok(said)
            }
        },
        _ => Ok(false),
    }
}

/// Whether the part is what a quantifier or a sum says.
#[cycle(walk)]
fn says_quantified(
    alloc: Global,
    site: &Site<'_>,
    locals: &Locals<'_>,
    tree: &Tree,
    part: &Part<'_>,
) -> Result<bool, AllocError>
    ensures { IfOk result (λ b. b ≡ true → Says (standing_of site.now) (scope_of locals.now)
        tree.now (said_by part.now)) }
{
    match tree {
        Tree::Quantified(_, word, decls, _, body) => match quantified(*word, part) {
            None => Ok(false),
            Some(ranged) => {
                let decls = decls.as_slice();
                let body = body.get();
                let begun = says_decls(alloc, site, locals, decls, ranged.variables)?;
                if !begun {
                    return Ok(false);
                }
                let inner = Locals::Declared(decls, &*locals);
                let said = says(alloc, site, &inner, body, &ranged.body)?;
                Ok(said)
            }
        },
        _ => Ok(false),
    }
}

/// Whether the variables are what the declarations say.
#[cycle(walk)]
fn says_decls(
    alloc: Global,
    site: &Site<'_>,
    locals: &Locals<'_>,
    decls: &[Decl<Tree>],
    variables: &[Variable],
) -> Result<bool, AllocError>
    ensures { IfOk result (λ b. b ≡ true → DeclsSay (standing_of site.now) (scope_of locals.now)
        decls.now (map variable_of variables.now)) }
{
    let mut from = 0usize;
    for place in 0..decls.len() {
        let inner = Locals::Declared(&decls[..place], &*locals);
        let own = match variables_from(variables, from, decls[place].names.len()) {
            None => return Ok(false),
            Some(own) => own,
        };
        let said = says_variables(alloc, site, &inner, decls, place, own)?;
        if !said {
            return Ok(false);
        }
        from += own.len();
    }
    Ok(from == variables.len())
}

/// Whether the variables are what the declaration at that place says.
#[cycle(walk)]
fn says_variables(
    alloc: Global,
    site: &Site<'_>,
    locals: &Locals<'_>,
    decls: &[Decl<Tree>],
    at: usize,
    variables: &[Variable],
) -> Result<bool, AllocError>
    ensures { IfOk result (λ b. b ≡ true → (d : Decl Expr) × (d ≡ slice_index_or decls.now at d)
        × VariablesSay (standing_of site.now) (scope_of locals.now) d d.names
        (map variable_of variables.now)) }
{
    let names_outside = find(locals, "")?;
    let outside = names_outside.count;
    if at >= decls.len() {
        return Ok(false);
    }
    let decl = &decls[at];
    let names = decl.names.as_slice();
    if variables.len() != names.len() {
        return Ok(false);
    }
    for place in 0..variables.len() {
        // One name of the text for each variable.
        let _name = &names[place];
        let variable = &variables[place];
        if !is_variable(variable, outside, place, decl.is_disjoint) {
            return Ok(false);
        }
        let said = says(
            alloc,
            site,
            locals,
            &decl.bound,
            &Part::Set(&variable.bound),
        )?;
        if !said {
            return Ok(false);
        }
    }
    Ok(true)
}
