//! Which instance the integers are that are opened implicitly.

ghost use Rattle.std.specs.Prelude.{◌≡◌, ◌+◌, ◌≤◌, length, slice_get};
ghost use Rattle.std.specs.Option.{option_map};
ghost use Rattle.resolve_names.specs.Gathered.{module_in};
ghost use Rattle.resolve_told_sigs.specs.Integers.{enums_in, integers_of, opened_by, opens_before};

use syntax_tree::{Loaded, Open, Opened, Paragraph, Text};

/// How many opens a paragraph implies: one, if it is an enum.
fn opened_by(paragraph: &Paragraph) -> usize
    ensures exact { result ≡ opened_by paragraph.now }
    ensures few { result ≤ 1 }
{
    match paragraph {
        Paragraph::Enum(_) => 1,
        _ => 0,
    }
}

/// How many enums stand among paragraphs, each of which implies an open.
fn enums_in(paragraphs: &[Paragraph]) -> usize
    ensures exact { result ≡ enums_in paragraphs.now }
    ensures few { result ≤ length paragraphs.now }
{
    let mut count = 0;
    for paragraph in paragraphs {
        count += opened_by(paragraph);
    }
    count
}

/// How many opens are written or implied by enums.
fn opens_in(opens: &[Open], paragraphs: &[Paragraph]) -> usize
    ensures { result ≡ length opens.now + enums_in paragraphs.now }
{
    opens.len() + enums_in(paragraphs)
}

/// How many opens the module of a text has that are written or implied by enums.
fn opens_before(texts: &[Text], text: u32) -> usize
    ensures { result ≡ opens_before (module_in (slice_get texts.now text)) }
{
    match texts.get(text as usize) {
        None => 0,
        Some(text) => {
            let (opens, paragraphs) = (&text.tree.opens, &text.tree.paragraphs);
            opens_in(opens.as_slice(), paragraphs.as_slice())
        }
    }
}

/// The instance that is opened at this place.
fn opened_at(opens: &[Opened], place: usize) -> Option<u32>
    ensures { result ≡ option_map (λ o. o.instance) (slice_get opens.now place) }
{
    match opens.get(place) {
        None => None,
        Some(opened) => Some(opened.instance),
    }
}

/// The instance of the integers that the root opens implicitly, by its open behind those that are written and those that enums
/// imply; none where there is no such open.
pub fn integers_of(loaded: &Loaded) -> Option<u32>
    ensures { result ≡ integers_of loaded.now.texts loaded.now.instances }
{
    match loaded.instances.as_slice().get(0) {
        None => None,
        Some(root) => {
            let place = opens_before(loaded.texts.as_slice(), root.text);
            opened_at(root.opens.as_slice(), place)
        }
    }
}
