//! Notices as GitHub's annotations.
ghost use Rattle.std.specs.Prelude.{◌≡◌, ◌++◌, IfOk, OnOk};
ghost use Rattle.std.specs.List.{flat_map};
ghost use Rattle.mailmap_report.specs.Github.{annotation_line, command_name, escaped_byte, escaped_text, properties};
ghost use Rattle.mailmap_report.specs.Json.{notice_of};

use crate::kinds::Level;
use crate::notice::Notice;
use crate::texts::push_text;
use itoa::Buffer;
use shown_text::shown::push_shown;
use std::alloc::{AllocError, Global};
use std::slice;

/// The line of a notice that a GitHub workflow shows at the line of the file, as in
///
/// ```text
/// ::error file=team,line=3,title=no-email::no email in brackets
/// ```
///
/// Texts are escaped by [`push_shown`], and then for GitHub, so that none ends its part of the line.
pub(crate) fn annotation_line(alloc: Global, notice: &Notice<'_>) -> Result<Vec<u8>, AllocError>
    ensures { IfOk result (λ line. line.items ≡ annotation_line (notice_of notice.now)) }
{
    let mut line = Vec::new(alloc);
    push_annotation(&mut line, notice)?;
    Ok(line)
}

fn push_annotation(line: &mut Vec<u8>, notice: &Notice<'_>) -> Result<(), AllocError>
    ensures { OnOk result (line.new.items ≡ line.old.items ++ annotation_line (notice_of notice.now)) }
{
    push_text(line, b"::")?;
    push_text(line, command_name(notice.kind.level()).as_bytes())?;
    push_properties(line, notice)?;
    push_text(line, b"::")?;
    push_escaped(line, notice.message.as_slice(), false)?;
    push_text(line, b"\n")
}

fn push_properties(line: &mut Vec<u8>, notice: &Notice<'_>) -> Result<(), AllocError>
    ensures { OnOk result (line.new.items ≡ line.old.items ++ properties (notice_of notice.now)) }
{
    let mut digits = Buffer::new();
    push_text(line, b" file=")?;
    push_escaped(line, notice.place.file, true)?;
    push_text(line, b",line=")?;
    push_text(line, digits.format(notice.place.line).as_bytes())?;
    push_text(line, b",title=")?;
    push_escaped(line, notice.kind.name().as_bytes(), true)
}

// GitHub has no notes.
fn command_name(level: Level) -> &'static str
    ensures { result.now ≡ command_name level }
{
    match level {
        Level::Note => "notice",
        _ => level.name(),
    }
}

// Appends a text with escapes for terminals, and then for GitHub. It may be the value of a property.
fn push_escaped(line: &mut Vec<u8>, text: &[u8], in_property: bool) -> Result<(), AllocError>
    ensures { OnOk result (line.new.items ≡ line.old.items ++ escaped_text in_property text.now) }
{
    let mut shown = Vec::new(*line.allocator());
    push_shown(&mut shown, text)?;
    push_bytes(line, shown.as_slice(), in_property)
}

fn push_bytes(line: &mut Vec<u8>, bytes: &[u8], in_property: bool) -> Result<(), AllocError>
    ensures { OnOk result (line.new.items ≡ line.old.items ++ flat_map (escaped_byte in_property) bytes.now) }
{
    for byte in bytes {
        push_text(line, escaped_byte(byte, in_property))?;
    }
    Ok(())
}

// A colon and a comma end the value of a property.
fn escaped_byte(byte: &u8, in_property: bool) -> &[u8]
    ensures { result.now ≡ escaped_byte in_property byte.now }
{
    match byte {
        b'%' => b"%25",
        b'\r' => b"%0D",
        b'\n' => b"%0A",
        b':' if in_property => b"%3A",
        b',' if in_property => b"%2C",
        _ => slice::from_ref(byte),
    }
}
