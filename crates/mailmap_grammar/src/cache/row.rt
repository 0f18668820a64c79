//! A line and its answer in a row of fixed size.
ghost use Rattle.std.specs.Prelude.{◌≡◌, ◌+◌, ◌≤◌, ◌↔◌, IfSome, IsSome, drop, length, take};
ghost use Rattle.mailmap_grammar.specs.CachedLines.{CachedLine};

use std::marker::Model;

/// The maximum length of a line and its answer together.
pub const ROW_LEN: usize = 250;

#[derive(Drop)]
pub(crate) struct Row {
    line_len: u8,
    answer_len: u8,
    bytes: [u8; ROW_LEN],
}

impl Model for Row {
    ghost Value = { CachedLine };

    ghost view = { λ r. record {
      line = take r.line_len r.bytes;
      answer = take r.answer_len (drop r.line_len r.bytes);
    } };

    ghost invariant = { λ r. r.line_len + r.answer_len ≤ 250 };
}

impl Row {
    // Stores a line and its answer, `None` if they are too long.
    pub(crate) fn new(line: &[u8], answer: &[u8]) -> Option<Row>
        ensures fits { IsSome result ↔ (length line.now + length answer.now ≤ ROW_LEN) }
        ensures row { IfSome result (λ r. r ≡ record { line = line.now; answer = answer.now }) }
    {
        if line.len() > ROW_LEN || answer.len() > ROW_LEN - line.len() {
            return None;
        }
        let middle = line.len();
        let end = middle + answer.len();
        let mut bytes = [0; ROW_LEN];
        bytes[..middle].copy_from_slice(line);
        bytes[middle..end].copy_from_slice(answer);
        Some(Row {
            line_len: middle as u8,
            answer_len: answer.len() as u8,
            bytes,
        })
    }

    pub(crate) fn line(&self) -> &[u8]
        ensures { result.now ≡ self.now.line }
    {
        &self.bytes[..self.line_len as usize]
    }

    pub(crate) fn answer(&self) -> &[u8]
        ensures { result.now ≡ self.now.answer }
    {
        let begin = self.line_len as usize;
        &self.bytes[begin..begin + self.answer_len as usize]
    }
}
