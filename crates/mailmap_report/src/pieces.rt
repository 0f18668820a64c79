//! Reports in pieces, each of which is a line, an object of JSON or several lines.
ghost use Rattle.std.specs.Prelude.{◌≡◌, ◌++◌, ◌∷◌, [], IfOk, List, OnOk, map};
ghost use Rattle.std.specs.Iterator.{YieldsFirstBy};
ghost use Rattle.std.specs.Slice.Iter.{iter_rest};
ghost use Rattle.mailmap_entries.specs.Texts.{texts};
ghost use Rattle.shown_text.specs.Shown.{shown};
ghost use Rattle.mailmap_report.specs.Json.{notice_of};
ghost use Rattle.mailmap_report.specs.Report.{Piece as ThePiece, notice_piece, notice_text, piece_of, pieces_beside};
ghost use Rattle.mailmap_report.specs.Report.{report_pieces, reported_text, shown_line, text_of};
ghost use Rattle.mailmap_report.specs.Settings.{choices_of};
ghost use Rattle.mailmap_suggestions.specs.FindingViews.{finding_view};

use crate::github::annotation_line;
use crate::json::object_line;
use crate::notice::{Notice, contact_notice, finding_notice, remark_notice};
use crate::places::push_place;
use crate::settings::{Format, Settings};
use crate::texts::push_text;
use bstr::ByteSlice;
use mailmap_findings::remarks::Remarks;
use mailmap_findings::verify::Findings;
use mailmap_suggestions::findings::ContactFinding;
use shown_text::shown::{may_need_escapes, push_shown};
use std::alloc::{AllocError, Global};
use std::slice;

/// A piece of output, and whether it is a finding that counts.
#[derive(Drop)]
pub struct Piece {
    pub text: Vec<u8>,
    pub counts: bool,
}

/// Pieces that are made one after another.
pub trait Pieces {
    // the pieces that are left
    ghost left: { Self → List ThePiece };

    /// The next piece, `None` after the last.
    fn next_piece(&mut self, alloc: Global) -> Result<Option<Piece>, AllocError>
        ensures { IfOk result (λ next. YieldsFirstBy piece_of left self.old next self.new) };
}

/// The text of all pieces.
pub fn text_of<S: Pieces + Drop>(alloc: Global, mut pieces: S) -> Result<Vec<u8>, AllocError>
    ensures { IfOk result (λ text. text.items ≡ text_of (S.left pieces)) }
{
    let mut text = Vec::new(alloc);
    while let Some(piece) = pieces.next_piece(alloc)? {
        push_text(&mut text, piece.text.as_slice())?;
    }
    Ok(text)
}

/// The report on findings in mailmaps: a line or an object for each that is reported, and an empty piece for any other.
///
/// `names` has the names of the buffers; without names, the one buffer is standard input. Each line is escaped by
/// [`push_shown`], and texts of more than 256 bytes are cut. A finding on line 3 of the file `team` is one of these:
///
/// ```text
/// team:3: error: no email in brackets [no-email]
/// team:3: warning: ignored text: # since 2019 [ignored-text]
/// team:3: warning: ignored text: jd (an old name needs an email after it) [ignored-text]
/// team:3: warning: git reads it as Jane < jane@x > [git-reads]
/// team:3: warning: no effect: team:7 says the same [no-effect]
/// team:3: warning: no effect: team:7 says something else [no-effect]
/// team:3: warning: Jane <jane@x> is itself mapped, to Jane Doe <jane@y> by team:7, team:9 [itself-mapped]
/// ```
#[derive(Drop)]
pub struct FindingPieces<'n, 'v, 'a> {
    pub settings: &'n Settings,
    pub names: &'n [Vec<u8>],
    pub findings: Findings<'v, 'a>,
}

impl Pieces for FindingPieces<'_, '_, '_> {
    ghost left = { λ s. report_pieces (choices_of s.settings.now) (texts s.names.now) s.findings };

    fn next_piece(&mut self, alloc: Global) -> Result<Option<Piece>, AllocError> {
        let Some(finding) = self.findings.next() else {
            return Ok(None);
        };
        let notice = finding_notice(alloc, self.names, &finding)?;
        Ok(Some(notice_piece(alloc, self.settings, notice)?))
    }
}

/// The report on mailmaps and contacts. The findings about contacts come last; `file` is the name of their file.
#[derive(Drop)]
pub struct PiecesBeside<'n, 'v, 'a, 'f, 'c> {
    pub settings: &'n Settings,
    pub names: &'n [Vec<u8>],
    pub file: &'n [u8],
    pub remarks: Remarks<'v, 'a>,
    pub findings: slice::Iter<'f, ContactFinding<'c>>,
}

impl Pieces for PiecesBeside<'_, '_, '_, '_, '_> {
    ghost left = { λ s. pieces_beside (choices_of s.settings.now) (texts s.names.now) s.file.now s.remarks
        (map finding_view (iter_rest s.findings)) };

    fn next_piece(&mut self, alloc: Global) -> Result<Option<Piece>, AllocError> {
        if let Some(remark) = self.remarks.next() {
            let notice = remark_notice(alloc, self.names, &remark)?;
            return Ok(Some(notice_piece(alloc, self.settings, notice)?));
        }
        let Some(finding) = self.findings.next() else {
            return Ok(None);
        };
        let notice = contact_notice(alloc, self.file, finding)?;
        Ok(Some(notice_piece(alloc, self.settings, notice)?))
    }
}

// The text of a notice if it is reported, and whether it counts.
fn notice_piece(alloc: Global, settings: &Settings, notice: Notice<'_>) -> Result<Piece, AllocError>
    ensures { IfOk result (λ piece. piece_of piece ≡ notice_piece (choices_of settings.now) (notice_of notice.entry)) }
{
    let text = formatted(alloc, settings, &notice)?;
    let counts = settings.counts(notice.kind);
    Ok(Piece { text, counts })
}

// A notice in the format that is asked for, with a line feed; nothing if it isn't reported.
fn formatted(alloc: Global, settings: &Settings, notice: &Notice<'_>) -> Result<Vec<u8>, AllocError>
    ensures { IfOk result (λ text. text.items ≡ reported_text (choices_of settings.now) (notice_of notice.now)) }
{
    if !settings.reports(notice.kind) {
        return Ok(Vec::new(alloc));
    }
    match settings.format() {
        Format::Gcc => line_of(alloc, notice),
        Format::Json => object_line(alloc, notice),
        Format::Github => annotation_line(alloc, notice),
    }
}

// The line of a notice, as in `team:3: error: no email in brackets [no-email]`.
fn line_of(alloc: Global, notice: &Notice<'_>) -> Result<Vec<u8>, AllocError>
    ensures { IfOk result (λ line. line.items ≡ shown_line (notice_text (notice_of notice.now))) }
{
    let mut text = Vec::new(alloc);
    push_notice(&mut text, notice)?;
    shown_line(alloc, text)
}

fn push_notice(text: &mut Vec<u8>, notice: &Notice<'_>) -> Result<(), AllocError>
    ensures { OnOk result (text.new.items ≡ text.old.items ++ notice_text (notice_of notice.now)) }
{
    push_place(text, notice.place)?;
    push_text(text, b": ")?;
    push_text(text, notice.kind.level().name().as_bytes())?;
    push_text(text, b": ")?;
    push_text(text, notice.message.as_slice())?;
    push_text(text, b" [")?;
    push_text(text, notice.kind.name().as_bytes())?;
    push_text(text, b"]")
}

// Escapes a line, and ends it. Few lines need escapes, so others aren't copied.
#[tactic(auto, using(shown_text::proofs::Escapes::plain), unfolding(crate::specs::Report::shown_from_start))]
pub(crate) fn shown_line(alloc: Global, mut text: Vec<u8>) -> Result<Vec<u8>, AllocError>
    ensures { IfOk result (λ line. line.items ≡ shown_line text.items) }
{
    let rest = text.as_slice().trim_start();
    if rest.starts_with(b"::") {
        let start = text.len().saturating_sub(rest.len());
        return escaped_line(alloc, &text[..start], b"\\x3a:", &rest[2..]);
    }
    if may_need_escapes(text.as_slice()) {
        return escaped_line(alloc, b"", b"", text.as_slice());
    }
    text.push(b'\n')?;
    Ok(text)
}

// A start and a rest that are escaped, and between them what already is.
fn escaped_line(
    alloc: Global,
    start: &[u8],
    escaped: &[u8],
    rest: &[u8],
) -> Result<Vec<u8>, AllocError>
    ensures { IfOk result (λ line. line.items ≡ (shown start.now ++ escaped.now ++ shown rest.now) ++ 10 ∷ []) }
{
    let mut line = Vec::new(alloc);
    push_shown(&mut line, start)?;
    push_text(&mut line, escaped)?;
    push_shown(&mut line, rest)?;
    push_text(&mut line, b"\n")?;
    Ok(line)
}
