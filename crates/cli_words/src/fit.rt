//! Not all settings fit each mode; a test tells which do.

ghost use Rattle.std.specs.Prelude.{◌≡◌};
ghost use Rattle.cli_words.specs.Settings.{fits, has_input, has_second, is_ring_size};

use crate::named::Mode;
use crate::settings::Settings;

/// Whether the settings fit, where there are so many choosers.
pub fn fits(settings: &Settings, choosers: usize) -> bool
    ensures { result ≡ fits choosers settings.now }
{
    has_second(settings)
        && has_input(settings)
        && (!settings.mode.searches() || (settings.chooser as usize) < choosers)
}

/// Whether a second file is there just where the mode takes one.
fn has_second(settings: &Settings) -> bool
    ensures { result ≡ has_second settings.now }
{
    if settings.mode.takes_second() {
        settings.second.is_some()
    } else {
        settings.second.is_none()
    }
}

/// Whether what the mode asks of the file and of the expression is there.
fn has_input(settings: &Settings) -> bool
    ensures { result ≡ has_input settings.now }
{
    match settings.mode {
        Mode::Make => is_ring_size(settings.file.text().as_bytes()),
        Mode::Eval => settings.expression.is_some(),
        Mode::Exec | Mode::Commands | Mode::Lrat | Mode::Replay | Mode::Least | Mode::Core => true,
    }
}

/// Whether the text is a decimal from 1 to 15.
fn is_ring_size(text: &[u8]) -> bool
    ensures { result ≡ is_ring_size text.now }
{
    match text {
        [digit] => 49 <= *digit && *digit <= 57,
        [ten, digit] => *ten == 49 && 48 <= *digit && *digit <= 53,
        _ => false,
    }
}
