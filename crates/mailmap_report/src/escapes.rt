//! Escapes in JSON of what it needn't escape, but controls a terminal or can't be seen.
ghost use Rattle.std.specs.Prelude.{◌≡◌, ◌++◌, OnOk};
ghost use Rattle.mailmap_report.specs.Escapes.{code_unit, escaped_char, escaped_json, escaped_piece, is_escaped};

use crate::texts::push_text;
use bstr::decode_utf8;
use shown_text::shown::{is_hidden, last_four};
use std::alloc::AllocError;

/// Appends JSON with the control characters from U+007F on, and the hidden characters, in its strings by their numbers, as
/// in `\u202e`.
pub(crate) fn push_escaped_json(line: &mut Vec<u8>, text: &[u8]) -> Result<(), AllocError>
    ensures { OnOk result (line.new.items ≡ line.old.items ++ escaped_json text.now) }
{
    let mut rest = text;
    while let [_, ..] = rest {
        let (char, size) = decode_utf8(rest);
        let (piece, after) = rest.split_at(size);
        push_piece(line, char, piece)?;
        rest = after;
    }
    Ok(())
}

// Appends a character, or bytes that are none.
fn push_piece(line: &mut Vec<u8>, char: Option<char>, bytes: &[u8]) -> Result<(), AllocError>
    ensures { OnOk result (line.new.items ≡ line.old.items ++ escaped_piece char bytes.now) }
{
    let Some(char) = char else {
        return push_text(line, bytes);
    };
    if is_escaped(char) {
        return push_char(line, u32::from(char));
    }
    push_text(line, bytes)
}

fn is_escaped(char: char) -> bool
    ensures { result ≡ is_escaped char }
{
    let code = u32::from(char);
    126 < code && (code < 160 || is_hidden(char))
}

// Appends a character by its number.
fn push_char(line: &mut Vec<u8>, code: u32) -> Result<(), AllocError>
    ensures { OnOk result (line.new.items ≡ line.old.items ++ escaped_char code) }
{
    if code < 65536 {
        return push_code_unit(line, code);
    }
    push_code_unit(line, 55296 + (code - 65536) / 1024)?;
    push_code_unit(line, 56320 + code % 1024)
}

fn push_code_unit(line: &mut Vec<u8>, code: u32) -> Result<(), AllocError>
    ensures { OnOk result (line.new.items ≡ line.old.items ++ code_unit code) }
{
    push_text(line, b"\\u")?;
    push_text(line, &last_four(code))
}
