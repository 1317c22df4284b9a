//! A broken rule becomes a refusal at its place.

ghost use Rattle.std.specs.Prelude.{◌≡◌, true};
ghost use Rattle.resolve_model.specs.Refused.{is_of_readings, is_of_roots, IsFault, IsValueFault};

use base_types::{Fault, Refusal, Rule};
use resolve_expr::faults::{Broken, Noted};
use resolve_names::place_in;
use syntax_tree::Loaded;

fn rule_of(broken: Broken) -> Rule
    ensures reading { is_of_readings result ≡ true }
    ensures root { is_of_roots result ≡ true }
{
    match broken {
        Broken::UnknownName => Rule::UnknownName,
        Broken::Ambiguous => Rule::Ambiguous,
        Broken::NoReading => Rule::NoReading,
        Broken::TooManyReadings => Rule::TooManyReadings,
        Broken::RecursiveCall => Rule::RecursiveCall,
        Broken::HigherOrder => Rule::HigherOrder,
        Broken::ArityLimit => Rule::ArityLimit,
    }
}

/// The refusal by a broken rule.
#[tactic(auto, using(crate::proofs::Rules::of_root))]
pub fn refused(loaded: &Loaded, noted: Noted) -> Fault
    ensures { IsFault loaded.now.texts loaded.now.instances result }
{
    match place_in(loaded, noted.instance, noted.place) {
        // No rule is noted for an instance that isn't there.
        None => Fault::Memory,
        Some(place) => Fault::Refused(Refusal {
            rule: rule_of(noted.broken),
            place,
        }),
    }
}

/// The refusal by a broken rule in an expression of its own text.
pub fn refused_value(noted: Noted) -> Fault
    ensures { IsValueFault result }
{
    Fault::Refused(Refusal {
        rule: rule_of(noted.broken),
        place: noted.place,
    })
}
