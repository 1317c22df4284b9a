//! The texts that the words give come to the settings of a run, or to none.

ghost use Rattle.std.specs.Prelude.{◌≡◌, IfOk, map, option_map, string_bytes};
ghost use Rattle.cli_words.specs.Given.{lent, GivesTexts, IsGiven};
ghost use Rattle.cli_words.specs.Settings.{choices_in, settings_in, settings_of};
ghost use Rattle.clap.specs.Walk.{Row};
ghost use Rattle.std.specs.Prelude.{List};

use crate::choices::{Choices, budget_in, gathered, long_number_in, mode_in, number_in, part_in};
use crate::given::{Given, texts_given};
use crate::named::{Mode, Part};
use base_types::Name;
use std::alloc::{AllocError, Global};

/// What a run is asked to do.
#[derive(Debug, Drop)]
pub struct Settings {
    /// What the run does.
    pub mode: Mode,
    /// The file of the model, or of the clauses; in mode `make` a number.
    pub file: Name,
    /// The file of the proof, or of the trace.
    pub second: Option<Name>,
    /// The number of the model's command.
    pub command: u32,
    /// How many conflicts the search may meet; without a number any.
    pub conflicts: Option<u64>,
    /// Which part of the answer is written.
    pub part: Part,
    /// The number of the chooser that directs the search.
    pub chooser: u32,
    /// The expression that is evaluated.
    pub expression: Option<Name>,
    /// The position at which it is evaluated.
    pub position: u64,
}

/// The settings that the words give: the program's name, the mode, one file or two, and options. None where the command line
/// refuses the words or help is asked for, where a mode or a part has another name, or where a number is out of its range.
#[tactic(auto, unfolding(crate::specs::Settings::settings_of))]
pub fn settings_of_words(alloc: Global, words: &[String]) -> Result<Option<Settings>, AllocError>
    ensures { IfOk result (λ settings. settings ≡ settings_of (map string_bytes words.now)) }
{
    match texts_given(alloc, words)? {
        None => Ok(None),
        Some(given) => settings_in(alloc, given),
    }
}

/// The settings that the texts give.
fn settings_in(alloc: Global, given: Given) -> Result<Option<Settings>, AllocError>
    ensures { (rows : List Row) → IsGiven given.entry rows →
        IfOk result (λ settings. settings ≡ settings_in rows) }
{
    let Some(choices) = choices_in(given) else {
        return Ok(None);
    };
    let Some(file) = given.file else {
        return Ok(None);
    };
    Ok(Some(Settings {
        mode: choices.mode,
        file: Name::copy(alloc, file)?,
        second: copied(alloc, given.second)?,
        command: choices.command,
        conflicts: choices.conflicts,
        part: choices.part,
        chooser: choices.chooser,
        expression: copied(alloc, given.expression)?,
        position: choices.position,
    }))
}

/// The choices that the texts give.
fn choices_in(given: Given) -> Option<Choices>
    ensures { (rows : List Row) → IsGiven given.entry rows → result ≡ choices_in rows }
{
    gathered(
        mode_in(given.mode),
        number_in(given.command),
        budget_in(given.conflicts),
        part_in(given.part),
        number_in(given.chooser),
        long_number_in(given.position),
    )
}

/// A copy of a text that may be there.
fn copied(alloc: Global, text: Option<&str>) -> Result<Option<Name>, AllocError>
    ensures { IfOk result (λ name. name ≡ lent text.entry) }
{
    match text {
        None => Ok(None),
        Some(text) => Ok(Some(Name::copy(alloc, text)?)),
    }
}
