//! Names between quotes, as XML, Graphviz and JSON have them, and numbers.
//!
//! What is written for a name adds no byte that means something there. So a name can't end the text that it stands in.
#![tactic(auto)]

ghost use Rattle.std.specs.Prelude.{◌≡◌, ◌<◌, OnOk, IfSome, IfNone, false, []};
ghost use Rattle.view_quotes.specs.Quoting.{is_mark, marks, is_end, ends};

use itoa::Buffer;
use std::alloc::AllocError;

/// Writes a number.
pub fn push_number(out: &mut Vec<u8>, number: u64) -> Result<(), AllocError> {
    let mut buffer = Buffer::new();
    out.extend_from_slice(buffer.format(number).as_bytes())
}

/// How XML and dot write a byte that means something between quotes.
fn entity(byte: u8) -> Option<&'static [u8]>
    ensures text { IfSome result (λ text. marks text.now ≡ []) }
    ensures other { IfNone result (is_mark byte ≡ false) }
{
    match byte {
        b'"' => Some(b"&quot;"),
        b'&' => Some(b"&amp;"),
        b'\'' => Some(b"&#39;"),
        b'<' => Some(b"&lt;"),
        b'>' => Some(b"&gt;"),
        b'\\' => Some(b"&#92;"),
        _ => None,
    }
}

/// Writes a byte as XML and dot have it between quotes.
#[tactic(auto, using(crate::proofs::Quoted::more, crate::proofs::Quoted::one_more))]
fn push_entity(out: &mut Vec<u8>, byte: u8) -> Result<(), AllocError>
    ensures { OnOk result (marks out.new.items ≡ marks out.old.items) }
{
    match entity(byte) {
        Some(text) => {
            out.extend_from_slice(text)?;
            Ok(())
        }
        None => {
            out.push(byte)?;
            Ok(())
        }
    }
}

/// Writes a text as XML and dot have it between quotes. It adds no quote, apostrophe, backslash or angle bracket.
pub fn push_entities(out: &mut Vec<u8>, text: &[u8]) -> Result<(), AllocError>
    ensures { OnOk result (marks out.new.items ≡ marks out.old.items) }
{
    for byte in text {
        push_entity(out, *byte)?;
    }
    Ok(())
}

/// A digit of a number in hexadecimal.
fn digit(value: u8) -> u8
    requires { value < 16 }
    ensures { is_end result ≡ false }
{
    if value < 10 {
        b'0' + value
    } else {
        b'a' + (value - 10)
    }
}

/// Whether a byte ends a JSON string or a script.
fn is_end(byte: u8) -> bool
    ensures { result ≡ is_end byte }
{
    byte == b'"' || byte == b'&' || byte == b'<' || byte == b'>'
}

/// Whether a byte is printable and no backslash.
fn is_printable(byte: u8) -> bool {
    32 <= byte && byte <= 126 && byte != b'\\'
}

/// Writes a byte by its number in hexadecimal.
#[tactic(auto, using(crate::proofs::Quoted::more, crate::proofs::Quoted::one_more))]
fn push_escape(out: &mut Vec<u8>, byte: u8) -> Result<(), AllocError>
    ensures { OnOk result (ends out.new.items ≡ ends out.old.items) }
{
    out.extend_from_slice(b"\\u00")?;
    out.push(digit(byte / 16))?;
    out.push(digit(byte % 16))?;
    Ok(())
}

/// Writes a byte as JSON has it between quotes.
#[tactic(auto, using(crate::proofs::Quoted::one_more))]
fn push_json_byte(out: &mut Vec<u8>, byte: u8) -> Result<(), AllocError>
    ensures { OnOk result (ends out.new.items ≡ ends out.old.items) }
{
    if is_end(byte) {
        return push_escape(out, byte);
    }
    if !is_printable(byte) {
        return push_escape(out, byte);
    }
    out.push(byte)?;
    Ok(())
}

/// Writes a text as JSON has it between quotes. It adds no quote, angle bracket or ampersand, so that it ends neither
/// the string nor a script that it stands in.
pub fn push_json(out: &mut Vec<u8>, text: &[u8]) -> Result<(), AllocError>
    ensures { OnOk result (ends out.new.items ≡ ends out.old.items) }
{
    for byte in text {
        push_json_byte(out, *byte)?;
    }
    Ok(())
}
