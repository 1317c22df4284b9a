//! Makes the facts, the assertions and the appended facts of a model.

use crate::sources::{Sources, block_formula, closed_formula, setting_in};
use base_types::Name;
use core_tree::{Assert, AssertList, Fact, FactList, Formula};
use resolve_expr::known::sig_type;
use resolve_expr::locals::{add_local, number_of};
use resolve_expr::state::{Ground, Setting, State};
use resolve_names::{SigEntry, paragraph_at, text_of};
use resolve_sigs::above_of;
use std::alloc::{AllocError, Global};
use syntax_tree::{Claim, Expr as Tree, Loaded, Module, Named, Paragraph};

/// The facts and assertions so far.
#[derive(Drop)]
pub struct Claims {
    pub facts: FactList,
    pub asserts: AssertList,
}

fn copy_name(alloc: Global, name: &Option<Named>) -> Result<Option<Name>, AllocError> {
    match name {
        None => Ok(None),
        Some(named) => Ok(Some(Name::copy(alloc, named.name.text())?)),
    }
}

fn add_fact(
    alloc: Global,
    setting: &Setting<'_>,
    state: &mut State,
    claim: &Claim,
    claims: &mut Claims,
) -> Result<(), AllocError> {
    let formula = closed_formula(alloc, setting, state, &claim.block)?;
    let name = copy_name(alloc, &claim.name)?;
    claims.facts.push(Fact {
        instance: setting.instance,
        place: claim.place,
        name,
        formula,
    })
}

fn add_assert(
    alloc: Global,
    setting: &Setting<'_>,
    state: &mut State,
    claim: &Claim,
    claims: &mut Claims,
) -> Result<(), AllocError> {
    let formula = closed_formula(alloc, setting, state, &claim.block)?;
    let name = copy_name(alloc, &claim.name)?;
    claims.asserts.push(Assert {
        instance: setting.instance,
        place: claim.place,
        name,
        formula,
    })
}

fn add_claim(
    alloc: Global,
    setting: &Setting<'_>,
    state: &mut State,
    paragraph: &Paragraph,
    claims: &mut Claims,
) -> Result<(), AllocError> {
    match paragraph {
        Paragraph::Fact(claim) => add_fact(alloc, setting, state, claim, claims),
        Paragraph::Assert(claim) => add_assert(alloc, setting, state, claim, claims),
        _ => Ok(()),
    }
}

fn add_claims(
    alloc: Global,
    setting: &Setting<'_>,
    state: &mut State,
    module: &Module,
    claims: &mut Claims,
) -> Result<(), AllocError> {
    for paragraph in module.paragraphs.as_slice() {
        add_claim(alloc, setting, state, paragraph, claims)?;
    }
    Ok(())
}

fn add_instance(
    alloc: Global,
    sources: &Sources<'_>,
    state: &mut State,
    instance: u32,
    claims: &mut Claims,
) -> Result<(), AllocError> {
    let setting = setting_in(sources, instance);
    match text_of(sources.loaded, instance) {
        None => Ok(()),
        Some(text) => add_claims(alloc, &setting, state, &text.tree, claims),
    }
}

/// The facts and assertions of all instances.
pub fn model_claims(
    alloc: Global,
    sources: &Sources<'_>,
    state: &mut State,
) -> Result<Claims, AllocError> {
    let mut claims = Claims {
        facts: FactList::new(alloc),
        asserts: AssertList::new(alloc),
    };
    for place in 0..sources.loaded.instances.len() {
        add_instance(alloc, sources, state, number_of(place), &mut claims)?;
    }
    Ok(claims)
}

/// The appended fact of a sig's paragraph.
fn block_of<'a>(loaded: &'a Loaded, entry: &SigEntry) -> Option<&'a Tree> {
    match paragraph_at(loaded, entry.instance, entry.paragraph) {
        Some(Paragraph::Sig(sig)) => match &sig.block {
            None => None,
            Some(block) => Some(block),
        },
        _ => None,
    }
}

fn appended(
    alloc: Global,
    sources: &Sources<'_>,
    sig: u32,
    instance: u32,
    block: &Tree,
    state: &mut State,
) -> Result<Option<Formula>, AllocError> {
    let above = above_of(alloc, sources.hierarchy, sig)?;
    let setting = Setting {
        loaded: sources.loaded,
        names: sources.names,
        hierarchy: sources.hierarchy,
        known: sources.known,
        instance,
        ground: Ground::Appended,
        above: above.as_slice(),
        is_quiet: false,
    };
    state.locals.truncate(0);
    let this = sig_type(alloc, sources.hierarchy, sig)?;
    add_local(alloc, &mut state.locals, "this", Some(this))?;
    let formula = block_formula(alloc, &setting, state, block)?;
    state.locals.truncate(0);
    Ok(formula)
}

fn appended_of(
    alloc: Global,
    sources: &Sources<'_>,
    sig: u32,
    entry: &SigEntry,
    state: &mut State,
) -> Result<Option<Formula>, AllocError> {
    match block_of(sources.loaded, entry) {
        None => Ok(None),
        Some(block) => appended(alloc, sources, sig, entry.instance, block, state),
    }
}

/// The appended fact of each sig that has one, in which `this` is the only local.
pub fn all_appended(
    alloc: Global,
    sources: &Sources<'_>,
    state: &mut State,
) -> Result<Vec<Option<Formula>>, AllocError> {
    let mut all = Vec::new(alloc);
    let entries = sources.names.sigs.as_slice();
    for place in 0..entries.len() {
        let formula = appended_of(alloc, sources, number_of(place), &entries[place], state)?;
        all.push(formula)?;
    }
    Ok(all)
}
