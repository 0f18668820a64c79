//! The kinds and the levels of findings, and their names.
ghost use Rattle.std.specs.Prelude.{◌≡◌, ◌∷◌, ◌++◌, IfSome, OnOk, Some};
ghost use Rattle.mailmap_suggestions.specs.FindingViews.{finding_view};
ghost use Rattle.mailmap_findings.specs.Findings.{kind_of};
ghost use Rattle.mailmap_report.specs.Kinds.{contact_kind, finding_kind, kind_level, kind_name, kind_named};
ghost use Rattle.mailmap_report.specs.Kinds.{kind_names, kinds, level_name, likeness_kind};
ghost use Rattle.mailmap_report.specs.declared.kinds.Kind.{Kind as TheKind};

use crate::texts::push_text;
use mailmap_findings::verify::FindingKind;
use mailmap_grammar::lines::Error;
use mailmap_suggestions::findings::{ContactFinding, Likeness};
use std::alloc::AllocError;

/// How bad a finding is, from the least to the worst. Notes don't count for the exit status.
#[derive(Clone, Copy)]
pub enum Level {
    Note,
    Warning,
    Error,
}

impl Level {
    /// The word that a finding begins with, as in `error: no contact`.
    pub fn name(self) -> &'static str
        ensures { result.now ≡ level_name self }
    {
        match self {
            Level::Note => "note",
            Level::Warning => "warning",
            Level::Error => "error",
        }
    }
}

/// The kinds of findings, without their details. The first five are faults of lines.
#[derive(Clone, Copy)]
pub enum Kind {
    NoEmail,
    UnclosedEmail,
    EmptyEmail,
    NothingToMap,
    UnclosedSecondEmail,
    ByteOrderMark,
    IgnoredText,
    CommentInLine,
    GitReads,
    NoEffect,
    ItselfMapped,
    /// No contact needs the line.
    Unneeded,
    NoContact,
    SameEmail,
    SharedEmail,
    SameName,
    SimilarName,
    GitAnswers,
}

const KINDS: [Kind; 18] = [
    Kind::NoEmail,
    Kind::UnclosedEmail,
    Kind::EmptyEmail,
    Kind::NothingToMap,
    Kind::UnclosedSecondEmail,
    Kind::ByteOrderMark,
    Kind::IgnoredText,
    Kind::CommentInLine,
    Kind::GitReads,
    Kind::NoEffect,
    Kind::ItselfMapped,
    Kind::Unneeded,
    Kind::NoContact,
    Kind::SameEmail,
    Kind::SharedEmail,
    Kind::SameName,
    Kind::SimilarName,
    Kind::GitAnswers,
];

impl Kind {
    pub(crate) fn of_finding(kind: FindingKind<'_>) -> Kind
        ensures { result ≡ finding_kind (kind_of kind.entry) }
    {
        match kind {
            FindingKind::Fault(Error::NoEmail { .. }) => Kind::NoEmail,
            FindingKind::Fault(Error::MissingClosingBracket { .. }) => Kind::UnclosedEmail,
            FindingKind::Fault(Error::EmptyEmail { .. }) => Kind::EmptyEmail,
            FindingKind::Fault(Error::NothingToMap { .. }) => Kind::NothingToMap,
            FindingKind::Fault(Error::UnclosedSecond { .. }) => Kind::UnclosedSecondEmail,
            FindingKind::ByteOrderMark => Kind::ByteOrderMark,
            FindingKind::IgnoredText(_) => Kind::IgnoredText,
            FindingKind::CommentInLine => Kind::CommentInLine,
            FindingKind::GitReads(_) => Kind::GitReads,
            FindingKind::NoEffect { .. } => Kind::NoEffect,
            FindingKind::ItselfMapped { .. } => Kind::ItselfMapped,
        }
    }

    pub(crate) fn of_contact_finding(finding: &ContactFinding<'_>) -> Kind
        ensures { result ≡ contact_kind (finding_view finding.now) }
    {
        match finding {
            ContactFinding::NoContact(_) => Kind::NoContact,
            ContactFinding::SharedEmail(_, _) => Kind::SharedEmail,
            ContactFinding::IsLike(likeness, _, _) => Kind::of_likeness(*likeness),
            ContactFinding::GitAnswers(_) => Kind::GitAnswers,
        }
    }

    fn of_likeness(likeness: Likeness) -> Kind
        ensures { result ≡ likeness_kind likeness }
    {
        match likeness {
            Likeness::Email => Kind::SameEmail,
            Likeness::Name => Kind::SameName,
            Likeness::AlikeName | Likeness::Login => Kind::SimilarName,
        }
    }

    /// The name in brackets at the end of a finding, as in `error: no contact [no-contact]`.
    pub fn name(self) -> &'static str
        ensures { result.now ≡ kind_name self }
    {
        match self {
            Kind::NoEmail => "no-email",
            Kind::UnclosedEmail => "unclosed-email",
            Kind::EmptyEmail => "empty-email",
            Kind::NothingToMap => "nothing-to-map",
            Kind::UnclosedSecondEmail => "unclosed-second-email",
            Kind::ByteOrderMark => "byte-order-mark",
            Kind::IgnoredText => "ignored-text",
            Kind::CommentInLine => "comment-in-line",
            Kind::GitReads => "git-reads",
            Kind::NoEffect => "no-effect",
            Kind::ItselfMapped => "itself-mapped",
            Kind::Unneeded => "unneeded",
            Kind::NoContact => "no-contact",
            Kind::SameEmail => "same-email",
            Kind::SharedEmail => "shared-email",
            Kind::SameName => "same-name",
            Kind::SimilarName => "similar-name",
            Kind::GitAnswers => "git-answers",
        }
    }

    /// The kind of this name, `None` if no kind has it.
    pub fn of_name(name: &[u8]) -> Option<Kind>
        ensures first { result ≡ kind_named name.now }
        ensures named { IfSome result (λ kind. kind_name kind ≡ name.now) }
        ensures each { (kind : TheKind) → kind_name kind ≡ name.now → result ≡ Some kind }
    {
        KINDS
            .iter()
            .find(|kind| kind.name().as_bytes() == name)
            .copied()
    }

    pub fn level(self) -> Level
        ensures { result ≡ kind_level self }
    {
        match self {
            Kind::NoEmail
            | Kind::UnclosedEmail
            | Kind::EmptyEmail
            | Kind::NothingToMap
            | Kind::UnclosedSecondEmail
            | Kind::NoContact => Level::Error,
            Kind::SharedEmail | Kind::SameName | Kind::SimilarName => Level::Note,
            _ => Level::Warning,
        }
    }
}

/// Appends the names of all kinds, each after a space.
pub fn push_kind_names(text: &mut Vec<u8>) -> Result<(), AllocError>
    ensures { OnOk result (text.new.items ≡ text.old.items ++ kind_names kinds) }
{
    push_names(text, &KINDS)
}

fn push_names(text: &mut Vec<u8>, listed: &[Kind]) -> Result<(), AllocError>
    ensures { OnOk result (text.new.items ≡ text.old.items ++ kind_names listed.now) }
{
    for kind in listed {
        push_name(text, *kind)?;
    }
    Ok(())
}

fn push_name(text: &mut Vec<u8>, kind: Kind) -> Result<(), AllocError>
    ensures { OnOk result (text.new.items ≡ text.old.items ++ 32 ∷ kind_name kind) }
{
    push_text(text, b" ")?;
    push_text(text, kind.name().as_bytes())
}
