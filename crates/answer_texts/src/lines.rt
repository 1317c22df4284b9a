//! The list of a module's commands as text.
ghost use Rattle.std.specs.Prelude.{◌≡◌, ◌++◌, List, IfOk, string_bytes};
ghost use Rattle.answer_texts.specs.Lines.{subject_title, title_of, keyword_of, titled_line, command_line, command_in, lines_from, command_text};
ghost use Rattle.syntax_tree.specs.declared.module.Command.{Command};

use base_types::Position;
use load_state::path_text;
use std::alloc::{AllocError, Global};
use syntax_tree::{Command, Module, Named, Paragraph, Subject};

/// The list of a module's commands, one line for each in the order of the text: its number from 0 on, `run` or `check`, the
/// line and column of that word, and its label, or the name that follows the word, or `-`.
#[tactic(auto, using(crate::proofs::Text::line_end))]
pub fn command_text(alloc: Global, tree: &Module) -> Result<Vec<u8>, AllocError>
    ensures { IfOk result (λ text. text.items ≡ command_text tree.now) }
{
    let mut text = Vec::new(alloc);
    let mut number: u64 = 0;
    for paragraph in tree.paragraphs.as_slice() {
        number = add_line(alloc, &mut text, number, paragraph)?;
    }
    Ok(text)
}

/// Adds the line of a paragraph that is a command of this number. The answer is the number of the next command.
#[tactic(auto, using(crate::proofs::Text::regrouped))]
fn add_line(
    alloc: Global,
    text: &mut Vec<u8>,
    number: u64,
    paragraph: &Paragraph,
) -> Result<u64, AllocError>
    ensures { IfOk result (λ next. (rest : List Command) →
        text.new.items ++ lines_from next rest ≡ text.old.items
        ++ lines_from number (command_in paragraph.now ++ rest)) }
{
    match paragraph {
        Paragraph::Command(command) => {
            let line = command_line(alloc, number, command)?;
            text.extend_from_slice(line.as_bytes())?;
            number.checked_add(1).ok_or(AllocError)
        }
        _ => Ok(number),
    }
}

/// The line of a command.
fn command_line(alloc: Global, number: u64, command: &Command) -> Result<String, AllocError>
    ensures { IfOk result (λ line. string_bytes line ≡ command_line number command.now) }
{
    let title = title_of(alloc, &command.label, &command.subject)?;
    let keyword = keyword_of(command.is_check);
    titled_line(alloc, number, keyword, command.keyword, title.as_str())
}

/// The line of a command with these parts.
fn titled_line(
    alloc: Global,
    number: u64,
    keyword: &str,
    place: Position,
    title: &str,
) -> Result<String, AllocError>
    ensures { IfOk result (λ line. string_bytes line
        ≡ titled_line number keyword.now place title.now) }
{
    let line = place.line;
    let column = place.column;
    format!(in alloc; "{number} {keyword} {line}:{column} {title}\n")
}

/// `run` or `check`.
fn keyword_of(is_check: bool) -> &'static str
    ensures { result.now ≡ keyword_of is_check }
{
    if is_check { "check" } else { "run" }
}

/// What a command is called.
fn title_of(alloc: Global, label: &Option<Named>, subject: &Subject) -> Result<String, AllocError>
    ensures { IfOk result (λ title. string_bytes title ≡ title_of label.now subject.now) }
{
    match label {
        Some(label) => String::from_str(alloc, label.name.text()),
        None => subject_title(alloc, subject),
    }
}

/// The name after the keyword, or a dash.
fn subject_title(alloc: Global, subject: &Subject) -> Result<String, AllocError>
    ensures { IfOk result (λ title. string_bytes title ≡ subject_title subject.now) }
{
    match subject {
        Subject::Name(path) => path_text(alloc, path),
        Subject::Labelled(path, _) => path_text(alloc, path),
        Subject::Block(_) => String::from_str(alloc, "-"),
    }
}
