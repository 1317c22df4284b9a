//! The names of all instances are gathered into one table.

ghost use Rattle.std.specs.Prelude.{◌≡◌, ℕ, ◌+◌, ◌<◌, IfOk, OnOk, IfErr, length};
ghost use Rattle.syntax_tree.specs.Instances.{sig_count};
ghost use Rattle.resolve_names.specs.Gathered.{scope_of, scopes_from, scopes_of, field_total, body_total, module_of};
ghost use Rattle.resolve_names.specs.Entries.{sig_entries, field_entries, body_entries};
ghost use Rattle.resolve_names.specs.Marks.{AreScoped, IsScoped};
ghost use Rattle.resolve_names.specs.Refused.{IsFault};
ghost use Rattle.resolve_names.specs.Twice.{HasNoneTwice};
ghost use Rattle.resolve_names.specs.Noted.{IsFirstFault};

use crate::declared::{Counts, add_module};
use crate::entries::{body_entries, field_entries, sig_entries};
use crate::index::DeclaredList;
use crate::links::links_of;
use crate::numbers::{after, number};
use crate::source::module_of;
use crate::table::{Names, Namespace};
use crate::twice::twice;
use base_lists::Items;
use base_types::Fault;
use std::alloc::{AllocError, Global};
use syntax_tree::{Instance, Loaded, Module, Text};

/// The names of an instance, and how many stand behind them.
#[derive(Drop)]
struct Scoped {
    scope: Namespace,
    after: Counts,
}

/// The names of the instance of this number among so many.
fn scope_of(
    alloc: Global,
    tree: &Module,
    count: usize,
    place: usize,
    before: Counts,
    instance: &Instance,
) -> Result<Scoped, AllocError>
    ensures scope { IfOk result (λ s. s.scope
        ≡ scope_of tree.now place before.sigs before.fields before.bodies instance.now) }
    ensures inside { IfOk result (λ s. IsScoped count s.scope) }
    ensures sigs { IfOk result (λ s. s.after.sigs ≡ before.sigs + sig_count tree.now) }
    ensures fields { IfOk result (λ s. s.after.fields ≡ before.fields + field_total tree.now) }
    ensures bodies { IfOk result (λ s. s.after.bodies ≡ before.bodies + body_total tree.now) }
{
    let mut list = Items::new(alloc);
    let own = Counts {
        sigs: 0,
        fields: before.fields,
        bodies: before.bodies,
    };
    let arguments = instance.arguments.as_slice();
    let behind = add_module(alloc, number(place)?, own, tree, arguments, &mut list)?;
    let declared = DeclaredList::new(alloc, list)?;
    let opens = links_of(
        alloc,
        instance.opens.as_slice(),
        tree.opens.as_slice(),
        count,
    )?;
    let sigs = after(before.sigs, behind.sigs as usize)?;
    Ok(Scoped {
        scope: Namespace {
            first_sig: before.sigs,
            sigs: behind.sigs,
            declared,
            opens,
        },
        after: Counts {
            sigs,
            fields: behind.fields,
            bodies: behind.bodies,
        },
    })
}

/// The names of each instance, in load order.
fn scopes_of(
    alloc: Global,
    texts: &[Text],
    instances: &[Instance],
) -> Result<Items<Namespace>, AllocError>
    ensures scopes { IfOk result (λ s. s ≡ scopes_of texts.now instances.now) }
    ensures every { IfOk result (λ s. length s ≡ length instances.now) }
    ensures inside { IfOk result (AreScoped (length instances.now)) }
{
    let mut scopes = Items::new(alloc);
    let mut counts = Counts {
        sigs: 0,
        fields: 0,
        bodies: 0,
    };
    for place in 0..instances.len() {
        let instance = &instances[place];
        let tree = module_of(texts, instance)?;
        let scoped = scope_of(alloc, tree, instances.len(), place, counts, instance)?;
        let Scoped { scope, after } = scoped;
        scopes.push(scope)?;
        counts = after;
    }
    Ok(scopes)
}

/// The names of all instances.
fn gathered(alloc: Global, loaded: &Loaded) -> Result<Names, AllocError>
    ensures scopes { IfOk result (λ n. n.scopes
        ≡ scopes_of loaded.now.texts loaded.now.instances) }
    ensures sigs { IfOk result (λ n. n.sigs
        ≡ sig_entries loaded.now.texts loaded.now.instances) }
    ensures fields { IfOk result (λ n. n.fields
        ≡ field_entries loaded.now.texts loaded.now.instances) }
    ensures bodies { IfOk result (λ n. n.bodies
        ≡ body_entries loaded.now.texts loaded.now.instances) }
{
    let texts = loaded.texts.as_slice();
    let instances = loaded.instances.as_slice();
    let scopes = scopes_of(alloc, texts, instances)?;
    let sigs = sig_entries(alloc, texts, instances)?;
    let fields = field_entries(alloc, texts, instances)?;
    let bodies = body_entries(alloc, texts, instances)?;
    Ok(Names {
        scopes,
        sigs,
        fields,
        bodies,
    })
}

/// The names of all instances: what each declares, in text order, and which others it sees.
///
/// Refused where two sigs or parameters, or two named assertions, of a module have one name: the
/// earliest instance counts, and in it the least place of a second name.
pub fn names(alloc: Global, loaded: &Loaded) -> Result<Names, Fault>
    ensures scopes { IfOk result (λ n. n.scopes
        ≡ scopes_of loaded.now.texts loaded.now.instances) }
    ensures sigs { IfOk result (λ n. n.sigs
        ≡ sig_entries loaded.now.texts loaded.now.instances) }
    ensures fields { IfOk result (λ n. n.fields
        ≡ field_entries loaded.now.texts loaded.now.instances) }
    ensures bodies { IfOk result (λ n. n.bodies
        ≡ body_entries loaded.now.texts loaded.now.instances) }
    ensures none_twice { OnOk result (HasNoneTwice loaded.now.texts loaded.now.instances) }
    ensures err { IfErr result (IsFault (length loaded.now.texts)) }
    ensures first { IfErr result (IsFirstFault loaded.now.texts loaded.now.instances) }
{
    let found = match twice(alloc, loaded) {
        Err(_) => return Err(Fault::Memory),
        Ok(found) => found,
    };
    if let Some(refusal) = found {
        return Err(Fault::Refused(refusal));
    }
    match gathered(alloc, loaded) {
        Err(_) => Err(Fault::Memory),
        Ok(names) => Ok(names),
    }
}
