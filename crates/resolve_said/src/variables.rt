//! The variables of a resolved tree: their numbers, and which of them are one declaration's.

ghost use Rattle.std.specs.Prelude.{◌≡◌, ◌+◌, ◌≤◌, ◌++◌, length, take, true, IfSome};
ghost use Rattle.resolve_said.specs.Said.{apart_from};

use core_tree::Variable;

/// Whether it is the number of the name at that place, with so many names outside the list.
pub fn is_number(number: u32, outside: u64, place: usize) -> bool
    ensures { result ≡ true → number ≡ outside + place }
{
    let number = number as u64;
    number >= outside && number - outside == place as u64
}

/// Whether the variable has the number of the name at that place, and is apart from those before it
/// where that is asked.
pub fn is_variable(variable: &Variable, outside: u64, place: usize, is_disjoint: bool) -> bool
    ensures { result ≡ true → (variable.now.name ≡ outside + place)
        × (variable.now.apart ≡ apart_from is_disjoint place) }
{
    if !is_number(variable.name, outside, place) {
        return false;
    }
    if is_disjoint {
        return variable.apart as usize == place;
    }
    variable.apart == 0
}

/// So many variables from one on.
pub fn variables_from<'a>(
    variables: &'a [Variable],
    from: usize,
    count: usize,
) -> Option<&'a [Variable]>
    ensures { IfSome result (λ own. (from + length own.now ≤ length variables.now)
        × (take (from + length own.now) variables.now ≡ take from variables.now ++ own.now)) }
{
    if from > variables.len() || count > variables.len() - from {
        return None;
    }
    Some(&variables[from..from + count])
}
