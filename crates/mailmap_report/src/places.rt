//! Places of lines: the file and the number.
ghost use Rattle.std.specs.Prelude.{◌≡◌, ◌++◌, ◌∷◌, OnOk, option_to_list};
ghost use Rattle.mailmap_entries.specs.Texts.{texts};
ghost use Rattle.mailmap_report.specs.Json.{file_line_of};
ghost use Rattle.mailmap_report.specs.Report.{file_name, place_at, place_text, position_text, positions_text};

use crate::texts::push_text;
use itoa::Buffer;
use mailmap_findings::verify::Position;
use std::alloc::AllocError;

/// A line of a file.
#[derive(Clone, Copy)]
pub struct Place<'a> {
    pub file: &'a [u8],
    pub line: usize,
}

/// Appends FILE:LINE, without escapes.
pub fn push_position(
    text: &mut Vec<u8>,
    paths: &[Vec<u8>],
    position: Position,
) -> Result<(), AllocError>
    ensures { OnOk result (text.new.items
        ≡ text.old.items ++ position_text (texts paths.now) position.buffer position.line) }
{
    push_place(text, place_at(paths, position))
}

pub(crate) fn push_place(text: &mut Vec<u8>, place: Place<'_>) -> Result<(), AllocError>
    ensures { OnOk result (text.new.items ≡ text.old.items ++ place_text (file_line_of place.entry)) }
{
    let mut digits = Buffer::new();
    push_text(text, place.file)?;
    push_text(text, b":")?;
    push_text(text, digits.format(place.line).as_bytes())
}

/// Appends the positions of one or two lines.
pub(crate) fn push_positions(
    text: &mut Vec<u8>,
    paths: &[Vec<u8>],
    first: Position,
    second: Option<Position>,
) -> Result<(), AllocError>
    ensures { OnOk result (text.new.items ≡ text.old.items ++ positions_text (texts paths.now)
        (first ∷ option_to_list second)) }
{
    push_position(text, paths, first)?;
    match second {
        Some(second) => {
            push_text(text, b", ")?;
            push_position(text, paths, second)
        }
        None => Ok(()),
    }
}

// The place of a line, with the name of its buffer in messages.
pub(crate) fn place_at(paths: &[Vec<u8>], position: Position) -> Place<'_>
    ensures { file_line_of result ≡ place_at (texts paths.now) position.buffer position.line }
{
    Place {
        file: name_of(paths, position.buffer),
        line: position.line,
    }
}

fn name_of(paths: &[Vec<u8>], buffer: usize) -> &[u8]
    ensures { result.now ≡ file_name (texts paths.now) buffer }
{
    if paths.is_empty() {
        return b"<stdin>";
    }
    match paths.get(buffer) {
        Some(path) => path.as_slice(),
        None => &[],
    }
}
