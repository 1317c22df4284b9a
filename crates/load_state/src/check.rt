//! Tests that all numbers of a loaded model are in range.

ghost use Rattle.std.specs.Prelude.{◌≡◌, nat_lt, false, List, map};
ghost use Rattle.std.specs.List.{list_all};
ghost use Rattle.std.specs.Option.{option_map_or};
ghost use Rattle.syntax_tree.specs.Instances.{sig_count, is_sig, is_argument, is_closed, are_closed};
ghost use Rattle.syntax_tree.specs.declared.instance.Text.{Text};

use crate::count::parameter_count;
use syntax_tree::{Instance, Opened, SigRef, Text};

/// Whether every number in the instances is in range, and each has as many arguments as its text has parameters.
pub fn are_closed(texts: &[Text], sigs: &[usize], instances: &[Instance]) -> bool
    requires { sigs.now ≡ map (λ t. sig_count t.tree) texts.now }
    ensures { result ≡ are_closed texts.now instances.now }
{
    let mut all = true;
    for instance in instances {
        all = all && is_closed(texts, sigs, instances, instance);
    }
    all
}

/// The same of one instance.
fn is_closed(texts: &[Text], sigs: &[usize], instances: &[Instance], instance: &Instance) -> bool
    requires { sigs.now ≡ map (λ t. sig_count t.tree) texts.now }
    ensures { result ≡ is_closed texts.now instances.now instance.now }
{
    match texts.get(instance.text as usize) {
        Some(text) => {
            instance.arguments.len() == parameter_count(&text.tree)
                && are_arguments(sigs, instances, instance.arguments.as_slice())
                && are_opens(instances.len(), instance.opens.as_slice())
        }
        None => false,
    }
}

/// Whether each argument is `Int` or a sig that is there.
fn are_arguments(sigs: &[usize], instances: &[Instance], arguments: &[Option<SigRef>]) -> bool
    ensures { (texts : List Text) → sigs.now ≡ map (λ t. sig_count t.tree) texts →
        result ≡ list_all (is_argument texts instances.now) arguments.now }
{
    let mut all = true;
    for argument in arguments {
        all = all && is_argument(sigs, instances, *argument);
    }
    all
}

/// Whether the argument is `Int` or a sig that is there.
fn is_argument(sigs: &[usize], instances: &[Instance], argument: Option<SigRef>) -> bool
    ensures { (texts : List Text) → sigs.now ≡ map (λ t. sig_count t.tree) texts →
        result ≡ is_argument texts instances.now argument }
{
    match argument {
        Some(sig) => is_sig(sigs, instances, sig),
        None => true,
    }
}

/// Whether the sig is there.
#[tactic(auto, using(crate::proofs::Ranges::sig_is))]
fn is_sig(sigs: &[usize], instances: &[Instance], sig: SigRef) -> bool
    ensures { (texts : List Text) → sigs.now ≡ map (λ t. sig_count t.tree) texts →
        result ≡ is_sig texts instances.now sig }
{
    match instances.get(sig.instance as usize) {
        Some(instance) => is_below(sig.sig, sigs.get(instance.text as usize).copied()),
        None => false,
    }
}

/// Whether the number is below the count, where there is one.
fn is_below(number: u32, count: Option<usize>) -> bool
    ensures { result ≡ option_map_or (nat_lt number) count false }
{
    match count {
        Some(count) => (number as usize) < count,
        None => false,
    }
}

/// Whether each open leads to an instance that is there.
fn are_opens(count: usize, opens: &[Opened]) -> bool
    ensures { result ≡ list_all (λ o. nat_lt o.instance count) opens.now }
{
    let mut all = true;
    for opened in opens {
        all = all && (opened.instance as usize) < count;
    }
    all
}
