//! Steps of the walk: one call deeper, the next position, the next parameter, a negation.

ghost use Rattle.std.specs.Prelude.{◌≡◌, ◌↔◌, ◌+◌, ◌-◌, ◌<◌, IfOk, IsTrue};
ghost use Rattle.eval_steps.specs.Judged.{Says};

use eval_sets::EvaluationFault;

/// More calls than any walk nests.
pub const DEEP: u32 = 4_294_967_295;

/// One call deeper. Where there have been 2^32 - 1 already there is no answer.
pub fn deeper(deep: u32) -> Result<u32, EvaluationFault>
    ensures { IfOk result (λ n. n < deep) }
{
    if deep == 0 {
        return Err(EvaluationFault::Unfit);
    }
    Ok(deep - 1)
}

/// The next position. There is none after the greatest 64-bit number.
pub fn after(position: u64) -> Result<u64, EvaluationFault>
    ensures { IfOk result (λ n. n ≡ position + 1) }
{
    match position.checked_add(1) {
        Some(next) => Ok(next),
        None => Err(EvaluationFault::Unfit),
    }
}

/// The number of the next parameter.
pub fn next_name(name: u32) -> Result<u32, EvaluationFault>
    ensures { IfOk result (λ n. n ≡ name + 1) }
{
    match name.checked_add(1) {
        Some(next) => Ok(next),
        None => Err(EvaluationFault::Unfit),
    }
}

/// The value, or its negation.
pub fn says(sense: bool, value: bool) -> bool
    ensures { IsTrue result ↔ Says sense (IsTrue value) }
{
    if sense { value } else { !value }
}
