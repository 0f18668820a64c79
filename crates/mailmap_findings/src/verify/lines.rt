//! The lines of buffers, with their positions.
ghost use Rattle.std.specs.Prelude.{◌≡◌, ◌≢◌, ◌<◌, ◌^◌, [], false, length, map, true};
ghost use Rattle.std.specs.Iterator.{YieldsFirstBy, item_count};
ghost use Rattle.std.specs.Option.{option_copied};
ghost use Rattle.mailmap_findings.specs.Marks.{after_mark, text_after_mark};
ghost use Rattle.mailmap_findings.specs.Positions.{line_of, located_lines, whole_lines};

use bstr::{ByteSlice, LinesWithTerminator};
use mailmap_redundancy::Position;
use std::marker::Model;

/// A line of a buffer, including its line feed.
#[derive(Clone, Copy)]
pub(crate) struct Line<'a> {
    pub(crate) position: Position,
    pub(crate) text: &'a [u8],
}

/// The text of a line after the byte order mark that its buffer begins with, `None` if it isn't the first line or there
/// is none.
pub(crate) fn text_after_mark<'a>(line: &Line<'a>) -> Option<&'a [u8]>
    ensures { option_copied result ≡ text_after_mark (line_of line.now) }
{
    if line.position.line != 1 {
        return None;
    }
    after_mark(line.text)
}

/// The text after U+FEFF in UTF-8, `None` if it doesn't begin with that.
pub(crate) fn after_mark(text: &[u8]) -> Option<&[u8]>
    ensures { option_copied result ≡ after_mark text.now }
{
    match text {
        [a, b, c, rest @ ..] if (*a == 0xEF) & (*b == 0xBB) & (*c == 0xBF) => Some(rest),
        _ => None,
    }
}

/// Iterates over the lines of all buffers in order.
///
/// Contracts see it as the list of the remaining lines.
#[derive(Drop)]
pub(crate) struct BufferLines<'b, 'a> {
    buffers: &'b [&'a [u8]],
    // how many buffers were reached
    reached: usize,
    // the index of the last buffer reached, the number of its last line returned, and its remaining lines
    buffer: usize,
    line_number: usize,
    lines: LinesWithTerminator<'a>,
}

impl<'b, 'a> Model for BufferLines<'b, 'a> {
    ghost use Rattle.std.specs.Prelude.{◌++◌, ◌+◌, ◌^◌, ◌<◌, List, drop, length, map};
    ghost use Rattle.mailmap_findings.specs.Positions.{Line, lines_from, located_from};

    ghost Value = { List Line };

    ghost view = { λ s. located_from s.buffer (s.line_number + 1) s.lines
        ++ lines_from s.reached (map (λ b. b.now) (drop s.reached s.buffers.now)) };

    ghost invariant = { λ s. s.line_number + length s.lines < 2 ^ 64 };
}

impl<'b, 'a> BufferLines<'b, 'a> {
    #[tactic(auto, unfolding(crate::specs::Positions::located_from))]
    pub(crate) fn of(buffers: &'b [&'a [u8]]) -> BufferLines<'b, 'a>
        ensures { result ≡ located_lines (map (λ b. b.now) buffers.now) }
    {
        let none: &[u8] = b"";
        BufferLines {
            buffers,
            reached: 0,
            buffer: 0,
            line_number: 0,
            lines: none.lines_with_terminator(),
        }
    }
}

impl<'b, 'a> Iterator for BufferLines<'b, 'a> {
    type Item = Line<'a>;

    ghost next_gives = { YieldsFirstBy line_of (λ s. s) };

    ghost remaining = { item_count (λ s. s) };

    #[tactic(auto, using(crate::proofs::Lines::left_next, crate::proofs::Lines::left), unfolding(crate::specs::Positions::located_from, crate::specs::Positions::lines_from))]
    fn next(&mut self) -> Option<Line<'a>> {
        loop {
            if let Some(text) = self.lines.next() {
                self.line_number += 1;
                let position = Position {
                    buffer: self.buffer,
                    line: self.line_number,
                };
                return Some(Line { position, text });
            }
            let text = self.buffers.get(self.reached)?;
            self.buffer = self.reached;
            self.reached += 1;
            self.line_number = 0;
            self.lines = lines_in(*text);
        }
    }
}

fn lines_in<'a>(text: &'a [u8]) -> LinesWithTerminator<'a>
    ensures value { result ≡ whole_lines text.now }
    ensures countable { length result < 2 ^ 64 }
{
    text.lines_with_terminator()
}

/// Whether any buffer has a line, that is, isn't empty.
pub(crate) fn has_lines(buffers: &[&[u8]]) -> bool
    ensures some { result ≡ true → located_lines (map (λ b. b.now) buffers.now) ≢ [] }
    ensures none { result ≡ false → located_lines (map (λ b. b.now) buffers.now) ≡ [] }
{
    BufferLines::of(buffers).next().is_some()
}
