//! Strict parsing of a line that keeps its trailing text. `gix_mailmap` doesn't re-export this.
ghost use Rattle.std.specs.Prelude.{◌≡◌, IfOk, IfSome, option_map};
ghost use Rattle.mailmap_grammar.specs.Lines.{trailing_text, cut, reading_with_trailing, strict_reading};
ghost use Rattle.mailmap_grammar.specs.Trimming.{trim};

use crate::lines::{Error, Strictness, read_with_trailing};
use crate::trailing::WithTrailing;

/// Parses a line strictly, as [`read_line`](crate::lines::read_line) does, and keeps the text after the last email
/// that counts.
///
/// `Joe <joe@x> joe` gives the entry that maps `joe@x` to `Joe`, and the trailing text ` joe`.
#[inline(always)]
pub fn read_strictly(text: &[u8], line: usize) -> Option<Result<WithTrailing<'_>, Error<'_>>>
    ensures reading { option_map reading_with_trailing result ≡ strict_reading line text.now }
    ensures trailing { IfSome result (λ r. IfOk r (λ w. w.trailing.now ≡ trailing_text (cut (trim text.now)))) }
{
    read_with_trailing(text, line, Strictness::Strict)
}
