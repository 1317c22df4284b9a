//! The settings that words choose by names and numbers.

ghost use Rattle.std.specs.Prelude.{◌≡◌};
ghost use Rattle.std.specs.Prelude.{option_and_then};
ghost use Rattle.cli_words.specs.Given.{lent};
ghost use Rattle.cli_words.specs.Named.{mode_named, part_named};
ghost use Rattle.cli_words.specs.Numbers.{number_in};
ghost use Rattle.cli_words.specs.Settings.{budget_in, gathered};

use crate::named::{Mode, Part, mode_named, part_named};

/// The settings that are chosen by names and numbers.
#[derive(Clone, Copy, Debug, PartialEq, Eq)]
pub struct Choices {
    pub mode: Mode,
    pub command: u32,
    pub conflicts: Option<u64>,
    pub part: Part,
    pub chooser: u32,
    pub position: u64,
}

/// The mode that a text names.
pub fn mode_in(text: Option<&str>) -> Option<Mode>
    ensures { result ≡ option_and_then mode_named (lent text.entry) }
{
    mode_named(text?)
}

/// The part that a text names.
pub fn part_in(text: Option<&str>) -> Option<Part>
    ensures { result ≡ option_and_then part_named (lent text.entry) }
{
    part_named(text?)
}

/// A number of 32 bits.
fn number(text: &str) -> Option<u32>
    ensures { result ≡ number_in 32 text.now }
{
    text.parse::<u32>().ok()
}

/// A number of 64 bits.
fn long_number(text: &str) -> Option<u64>
    ensures { result ≡ number_in 64 text.now }
{
    text.parse::<u64>().ok()
}

/// The number of 32 bits that a text gives.
pub fn number_in(text: Option<&str>) -> Option<u32>
    ensures { result ≡ option_and_then (number_in 32) (lent text.entry) }
{
    number(text?)
}

/// The number of 64 bits that a text gives.
pub fn long_number_in(text: Option<&str>) -> Option<u64>
    ensures { result ≡ option_and_then (number_in 64) (lent text.entry) }
{
    long_number(text?)
}

/// The budget that a text gives; without a text there is none.
pub fn budget_in(text: Option<&str>) -> Option<Option<u64>>
    ensures { result ≡ budget_in (lent text.entry) }
{
    match text {
        None => Some(None),
        Some(text) => Some(Some(long_number(text)?)),
    }
}

/// All choices, where each is there.
pub fn gathered(
    mode: Option<Mode>,
    command: Option<u32>,
    conflicts: Option<Option<u64>>,
    part: Option<Part>,
    chooser: Option<u32>,
    position: Option<u64>,
) -> Option<Choices>
    ensures { result ≡ gathered mode command conflicts part chooser position }
{
    Some(Choices {
        mode: mode?,
        command: command?,
        conflicts: conflicts?,
        part: part?,
        chooser: chooser?,
        position: position?,
    })
}
