//! The text of a model is read, and the mode decides what is asked of it.

ghost use Rattle.std.specs.Prelude.{◌≡◌, ◌≢◌, ◌≤◌, length, true, IfOk};
ghost use Rattle.base_types.specs.Causes.{NoneFell};
ghost use Rattle.syntax_lexer.specs.Tokens.{tokens_of};
ghost use Rattle.answer_texts.specs.Lines.{command_text};
ghost use Rattle.cli_words.specs.Settings.{has_second};
ghost use Rattle.cli_words.specs.declared.named.Mode.TheVariants.{Lrat, Make};
ghost use Rattle.cli_model.specs.Model.{IsOnModel};
ghost use Rattle.cli_model.specs.Root.{SpellIn};

use crate::Answer;
use crate::analysis::search;
use crate::parsed::{Parsed, Root};
use crate::refusals::refused_at;
use crate::root::root_of;
use crate::traced::traced;
use answer_texts::command_text;
use base_types::limits::MODULE_BYTES;
use base_types::{Bytes, Libraries};
use cli_words::{Mode, Settings};
use sat_decide::Chooser;
use std::alloc::{AllocError, Global};
use syntax_tree::Module;

/// The answer of a run on the text of a model.
#[tactic(auto, using(crate::proofs::OnModel::broken_on))]
pub fn on_model<L: Libraries>(
    alloc: Global,
    settings: &Settings,
    text: &[u8],
    choosers: Vec<Box<dyn Chooser>>,
    libraries: &mut L,
) -> Result<Answer, AllocError>
    requires mode { settings.now.mode ≢ Lrat }
    requires made { settings.now.mode ≢ Make }
    requires second { has_second settings.now ≡ true }
    requires short { length text.now ≤ MODULE_BYTES }
    ensures keeps { L.told libraries.new ≡ L.told libraries.old }
    ensures later { NoneFell (L.counts libraries.old) (L.counts libraries.new) }
    ensures on { IfOk result (λ answer. IsOnModel settings.now (L.told libraries.old) text.now
        (L.counts libraries.old) (L.counts libraries.new) answer) }
{
    match root_of(alloc, text)? {
        Root::Module(parsed) => on_module(alloc, settings, text, parsed, choosers, libraries),
        Root::Broken(refusal) => refused_at(alloc, refusal, settings.file.text()),
    }
}

/// The answer of a run on the text of a module.
#[tactic(auto, using(crate::proofs::OnModel::listed_on))]
fn on_module<L: Libraries>(
    alloc: Global,
    settings: &Settings,
    text: &[u8],
    parsed: Parsed,
    choosers: Vec<Box<dyn Chooser>>,
    libraries: &mut L,
) -> Result<Answer, AllocError>
    requires mode { settings.now.mode ≢ Lrat }
    requires made { settings.now.mode ≢ Make }
    requires second { has_second settings.now ≡ true }
    requires spells { SpellIn (tokens_of 0 text.now) parsed.tree }
    ensures keeps { L.told libraries.new ≡ L.told libraries.old }
    ensures later { NoneFell (L.counts libraries.old) (L.counts libraries.new) }
    ensures on { IfOk result (λ answer. IsOnModel settings.now (L.told libraries.old) text.now
        (L.counts libraries.old) (L.counts libraries.new) answer) }
{
    match settings.mode {
        Mode::Exec => search(alloc, settings, text, parsed, choosers, libraries),
        Mode::Least => search(alloc, settings, text, parsed, choosers, libraries),
        Mode::Core => search(alloc, settings, text, parsed, choosers, libraries),
        Mode::Replay => traced(alloc, settings, text, parsed, libraries),
        Mode::Eval => traced(alloc, settings, text, parsed, libraries),
        Mode::Commands => listed(alloc, &parsed.tree),
        Mode::Make => unreachable!(),
        Mode::Lrat => unreachable!(),
    }
}

/// The list of a module's commands.
fn listed(alloc: Global, tree: &Module) -> Result<Answer, AllocError>
    ensures { IfOk result (λ answer. answer ≡ Answer.Listed (command_text tree.now)) }
{
    let list = command_text(alloc, tree)?;
    Ok(Answer::Listed(Bytes::from_vec(list)))
}
