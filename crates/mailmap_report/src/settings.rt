//! Which findings are reported and how, and under which names.
ghost use Rattle.std.specs.Prelude.{◌≡◌};
ghost use Rattle.std.specs.List.{list_any};
ghost use Rattle.mailmap_entries.specs.Texts.{texts};
ghost use Rattle.mailmap_report.specs.Kinds.{same_kind};
ghost use Rattle.mailmap_report.specs.Settings.{choices_of, counts, format_of, input_name, is_reported, level_rank};
ghost use Rattle.mailmap_report.specs.Settings.{mailmap_names, no_choices};

use crate::kinds::{Kind, Level};
use std::alloc::Global;
use std::slice;

/// How findings are printed.
#[derive(Clone, Copy)]
pub enum Format {
    /// Lines as compilers print them.
    Gcc,
    /// One object of JSON on each line.
    Json,
    /// One annotation of GitHub on each line.
    Github,
}

/// Which findings are reported, and how.
#[derive(Drop)]
pub struct Settings {
    /// The least level that is reported. Each finding that is reported counts for the exit status then; otherwise notes
    /// don't.
    pub severity: Option<Level>,
    /// The kinds that are not reported.
    pub excluded: Vec<Kind>,
    /// Without it, the format is [`Format::Gcc`].
    pub format: Option<Format>,
    /// The name of standard input in messages, `<stdin>` without it.
    pub stdin_name: Option<Vec<u8>>,
}

impl Settings {
    /// Reports everything, and counts all but notes.
    pub fn new(alloc: Global) -> Settings
        ensures { choices_of result ≡ no_choices }
    {
        Settings {
            severity: None,
            excluded: Vec::new(alloc),
            format: None,
            stdin_name: None,
        }
    }

    /// Whether findings of this kind are reported.
    pub fn reports(&self, kind: Kind) -> bool
        ensures { result ≡ is_reported (choices_of self.now) kind }
    {
        let least = self.severity.unwrap_or(Level::Note);
        rank(least) <= rank(kind.level()) && !self.excludes(kind)
    }

    fn excludes(&self, kind: Kind) -> bool
        ensures { result ≡ list_any (same_kind kind) self.now.excluded.items }
    {
        let name = kind.name().as_bytes();
        self.excluded
            .iter()
            .any(|other| name == other.name().as_bytes())
    }

    /// Whether findings of this kind count for the exit status.
    pub fn counts(&self, kind: Kind) -> bool
        ensures { result ≡ counts (choices_of self.now) kind }
    {
        let least = self.severity.unwrap_or(Level::Warning);
        self.reports(kind) && rank(least) <= rank(kind.level())
    }

    /// The format that is asked for, or the default one.
    pub fn format(&self) -> Format
        ensures { result ≡ format_of (choices_of self.now) }
    {
        self.format.unwrap_or(Format::Gcc)
    }

    /// The names of the mailmaps in messages; none if the mailmap is standard input under its usual name.
    pub fn mailmap_names<'a>(&'a self, paths: &'a [Vec<u8>]) -> &'a [Vec<u8>]
        ensures { texts result.now ≡ mailmap_names (choices_of self.now) (texts paths.now) }
    {
        match (&self.stdin_name, paths) {
            (Some(name), []) => slice::from_ref(name),
            _ => paths,
        }
    }

    /// The name of standard input in messages.
    pub fn input_name(&self) -> &[u8]
        ensures { result.now ≡ input_name (choices_of self.now) }
    {
        match &self.stdin_name {
            Some(name) => name.as_slice(),
            None => b"<stdin>",
        }
    }
}

// Levels by how bad they are.
fn rank(level: Level) -> u8
    ensures { result ≡ level_rank level }
{
    match level {
        Level::Note => 0,
        Level::Warning => 1,
        Level::Error => 2,
    }
}
