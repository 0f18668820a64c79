//! The text of suggestions in pieces.
ghost use Rattle.std.specs.Prelude.{map};
ghost use Rattle.std.specs.Slice.Iter.{iter_rest};
ghost use Rattle.mailmap_report.specs.Suggested.{suggestion_pieces};
ghost use Rattle.mailmap_suggestions.specs.Views.{suggestion_of};

use crate::pieces::{Piece, Pieces};
use mailmap_suggestions::suggestions::Suggestion;
use mailmap_suggestions::text::push_suggestion;
use std::alloc::{AllocError, Global};
use std::slice;

/// The text of suggestions, a piece for each: comments, and the lines of its entries. No piece is a finding.
#[derive(Drop)]
pub struct SuggestionPieces<'t, 's, 'a> {
    /// What comes before the first one: the line feed that the last mailmap lacks, as
    /// [`feed_after`](mailmap_suggestions::text::feed_after) has it.
    pub start: &'t [u8],
    pub suggestions: slice::Iter<'s, Suggestion<'a>>,
}

impl Pieces for SuggestionPieces<'_, '_, '_> {
    ghost left = { λ s. suggestion_pieces s.start.now (map suggestion_of (iter_rest s.suggestions)) };

    fn next_piece(&mut self, alloc: Global) -> Result<Option<Piece>, AllocError> {
        let Some(suggestion) = self.suggestions.next() else {
            return Ok(None);
        };
        let mut text = Vec::from_slice(alloc, self.start)?;
        push_suggestion(&mut text, suggestion)?;
        self.start = b"";
        Ok(Some(Piece {
            text,
            counts: false,
        }))
    }
}
