//! Each mode has its work, which is chosen by the settings that the words give.

ghost use Rattle.std.specs.Prelude.{◌≡◌, ◌≢◌, ◌≤◌, List, length, true, is_some, Some, Ok, IfOk, map, string_bytes};
ghost use Rattle.base_types.specs.Causes.{NoneFell};
ghost use Rattle.cli_words.specs.Settings.{fitting, has_second};
ghost use Rattle.base_types.specs.Texts.{Texts, text_of};
ghost use Rattle.cli_model.specs.Files.{asked, second_asked};
ghost use Rattle.cli_run.specs.Allowed.{Justified, AllowsFiles, AllowsRun, IsOnProof};
ghost use Rattle.std.specs.Prelude.{◌∷◌, []};
ghost use Rattle.cli_words.specs.declared.named.Mode.TheVariants.{Lrat, Make};

use base_types::limits::{FILE_BYTES, MODULE_BYTES};
use base_types::{Libraries, Name};
use cli_model::{Answer, File, make, on_model, read_fault, refused, whole_file};
use cli_words::{Mode, Settings, fits, settings_of_words};
use sat_decide::Chooser;
use sat_verdict::{Verdict, check_texts};
use std::alloc::{AllocError, Global};

/// The answer to these words, where there are so many choosers.
pub fn answer<L: Libraries>(
    alloc: Global,
    words: &[String],
    count: usize,
    choosers: Vec<Box<dyn Chooser>>,
    libraries: &mut L,
) -> Result<Answer, AllocError>
    ensures keeps { L.told libraries.new ≡ L.told libraries.old }
    ensures later { NoneFell (L.counts libraries.old) (L.counts libraries.new) }
    ensures allowed { Justified (fitting count (map string_bytes words.now)) (L.told libraries.old)
        (L.counts libraries.old) (L.counts libraries.new) result }
{
    match fitting_settings(alloc, words, count)? {
        None => Ok(Answer::Usage),
        Some(settings) => work(alloc, &settings, choosers, libraries),
    }
}

/// The settings that the words give, where they fit.
fn fitting_settings(
    alloc: Global,
    words: &[String],
    choosers: usize,
) -> Result<Option<Settings>, AllocError>
    ensures value { (settings : _) → result ≡ Ok settings →
        settings ≡ fitting choosers (map string_bytes words.now) }
    ensures second { (settings : _) → result ≡ Ok (Some settings) → has_second settings ≡ true }
{
    match settings_of_words(alloc, words)? {
        Some(settings) => {
            if fits(&settings, choosers) {
                Ok(Some(settings))
            } else {
                Ok(None)
            }
        }
        None => Ok(None),
    }
}

/// The answer of a run with these settings.
fn work<L: Libraries>(
    alloc: Global,
    settings: &Settings,
    choosers: Vec<Box<dyn Chooser>>,
    libraries: &mut L,
) -> Result<Answer, AllocError>
    requires { has_second settings.now ≡ true }
    ensures keeps { L.told libraries.new ≡ L.told libraries.old }
    ensures later { NoneFell (L.counts libraries.old) (L.counts libraries.new) }
    ensures allowed { (answer : _) → result ≡ Ok answer →
        AllowsRun settings.now (L.told libraries.old) (L.counts libraries.old)
        (L.counts libraries.new) answer }
{
    match settings.mode {
        Mode::Make => make(alloc, settings, choosers, libraries),
        Mode::Lrat => refutation(alloc, settings, libraries),
        _ => model(alloc, settings, choosers, libraries),
    }
}

/// The answer of a run on one model.
fn model<L: Libraries>(
    alloc: Global,
    settings: &Settings,
    choosers: Vec<Box<dyn Chooser>>,
    libraries: &mut L,
) -> Result<Answer, AllocError>
    requires asks { asked settings.now ≡ (settings.now.file, MODULE_BYTES) ∷ [] }
    requires mode { settings.now.mode ≢ Lrat }
    requires made { settings.now.mode ≢ Make }
    requires second { has_second settings.now ≡ true }
    ensures keeps { L.told libraries.new ≡ L.told libraries.old }
    ensures later { NoneFell (L.counts libraries.old) (L.counts libraries.new) }
    ensures allowed { (answer : _) → result ≡ Ok answer →
        AllowsRun settings.now (L.told libraries.old) (L.counts libraries.old)
        (L.counts libraries.new) answer }
{
    let name = settings.file.text();
    match whole_file(alloc, libraries, name, MODULE_BYTES)? {
        File::Whole(text) => on_model(alloc, settings, &text, choosers, libraries),
        File::Broken(rule) => refused(alloc, rule, name),
        File::Failed => read_fault(alloc, name),
    }
}

/// The answer of a run on clauses and a proof.
fn refutation<L: Libraries>(
    alloc: Global,
    settings: &Settings,
    libraries: &mut L,
) -> Result<Answer, AllocError>
    requires mode { settings.now.mode ≡ Lrat }
    requires second { is_some settings.now.second ≡ true }
    ensures keeps { L.told libraries.new ≡ L.told libraries.old }
    ensures later { NoneFell (L.counts libraries.old) (L.counts libraries.new) }
    ensures allowed { (answer : _) → result ≡ Ok answer →
        AllowsRun settings.now (L.told libraries.old) (L.counts libraries.old)
        (L.counts libraries.new) answer }
{
    let name = settings.file.text();
    match whole_file(alloc, libraries, name, FILE_BYTES)? {
        File::Whole(clauses) => proof(alloc, settings, &clauses, libraries),
        File::Broken(rule) => refused(alloc, rule, name),
        File::Failed => read_fault(alloc, name),
    }
}

/// The answer once the clauses are there.
fn proof<L: Libraries>(
    alloc: Global,
    settings: &Settings,
    clauses: &[u8],
    libraries: &mut L,
) -> Result<Answer, AllocError>
    requires mode { settings.now.mode ≡ Lrat }
    requires second { is_some settings.now.second ≡ true }
    requires tells { (told : List Texts) → L.told libraries.old ≡ map Some told →
        text_of told settings.now.file ≡ Some clauses.now }
    requires short { length clauses.now ≤ FILE_BYTES }
    ensures keeps { L.told libraries.new ≡ L.told libraries.old }
    ensures later { NoneFell (L.counts libraries.old) (L.counts libraries.new) }
    ensures allowed { (answer : _) → result ≡ Ok answer →
        AllowsFiles (second_asked settings.now.second) settings.now (L.told libraries.old)
        (L.counts libraries.old) (L.counts libraries.new) answer }
{
    let Some(second) = &settings.second else {
        unreachable!();
    };
    let name = second.text();
    match whole_file(alloc, libraries, name, FILE_BYTES)? {
        File::Whole(lines) => on_proof(alloc, settings, name, clauses, &lines),
        File::Broken(rule) => refused(alloc, rule, name),
        File::Failed => read_fault(alloc, name),
    }
}

/// The answer on clauses and the lines of the file `second`.
fn on_proof(
    alloc: Global,
    settings: &Settings,
    second: &str,
    clauses: &[u8],
    lines: &[u8],
) -> Result<Answer, AllocError>
    requires { length clauses.now ≤ FILE_BYTES }
    ensures { IfOk result (λ answer. IsOnProof settings.now second.now clauses.now lines.now
        answer) }
{
    let verdict = check_texts(alloc, clauses, lines)?;
    checked(alloc, verdict, settings.file.text(), second)
}

/// The answer of a verdict on these two files.
fn checked(
    alloc: Global,
    verdict: Verdict,
    clauses: &str,
    lines: &str,
) -> Result<Answer, AllocError>
    ensures { IfOk result (λ answer. answer ≡ Answer.Checked verdict clauses.now lines.now) }
{
    let clauses = Name::copy(alloc, clauses)?;
    let lines = Name::copy(alloc, lines)?;
    Ok(Answer::Checked(verdict, clauses, lines))
}
