//! What arguments can ask for.
ghost use Rattle.std.specs.Prelude.{◌≡◌};
ghost use Rattle.verify_command.specs.declared.asked.ParseError.TheVariants.{Memory};

use mailmap_report::settings::Settings;
use std::alloc::{AllocError, AllocFailed};

pub const USAGE: &str = "\
usage: mailmap_verify [OPTION..] [--] [FILE..]
Prints what is wrong with the mailmaps, or as one of these modes:
  --prune              prints the one mailmap without the lines that have no effect
  --prune --in-place   does so in each FILE, and prints nothing
  --explain            prints which lines map each contact of standard input
  --contacts CONTACTS  also prints which lines no contact needs, and which contacts are alike
  --suggest CONTACTS   prints lines that the mailmaps lack
Options:
  -S, --severity LEVEL     reports only findings of this level or worse: error, warning or note
  -e, --exclude KIND,..    leaves findings of these kinds out
  -f, --format FORMAT      prints findings as gcc does, the default, or as json, or as github annotations
      --stdin-name NAME    the name of standard input in messages
  -h, --help               prints this
      --version            prints the version
Without a FILE, the mailmap is .mailmap in the current folder; --contacts and --suggest do without one if it isn't
there, and --explain always does. A single - is standard input, but for --explain, --suggest and --in-place, and if
CONTACTS is -.
Kinds: no-email, unclosed-email, empty-email, nothing-to-map, unclosed-second-email, byte-order-mark, ignored-text,
comment-in-line, git-reads, no-effect, itself-mapped, unneeded, no-contact, same-email, shared-email, same-name,
similar-name, git-answers.
Status 0: nothing or only notes were found. 1: an error or a warning was found, or with -S anything was reported.
2: a failure.
";

#[derive(Clone, Copy, PartialEq, Eq)]
pub enum Mode {
    /// Print the usage.
    Help,
    /// Print the version.
    Version,
    /// Print the findings in the mailmaps.
    Verify,
    /// Print the one mailmap without its lines that have no effect.
    Prune,
    /// Replace each mailmap by that.
    PruneInPlace,
    /// Print what the contacts on standard input map to, and by which lines.
    Explain,
    /// Print the findings in the mailmaps and in contacts, and the lines that no contact needs.
    Contacts,
    /// Print lines that the mailmaps lack.
    Suggest,
}

/// What arguments ask for.
#[derive(Drop)]
pub struct Request {
    pub mode: Mode,
    /// The path of the file with contacts, `-` for standard input. Only [`Mode::Contacts`] and [`Mode::Suggest`]
    /// use it.
    pub contacts: Vec<u8>,
    pub settings: Settings,
    /// The paths of the mailmaps. Without a path, standard input is the mailmap, unless it has contacts or lines are
    /// suggested.
    pub paths: Vec<Vec<u8>>,
    /// Whether no path was given, so that with contacts the mailmap is git's own, if it is there.
    pub by_default: bool,
    /// Whether `--in-place` was given.
    pub in_place: bool,
}

/// An option with a value. The first two are also modes.
#[derive(Clone, Copy, PartialEq, Eq)]
pub enum Setting {
    Contacts,
    Suggest,
    Severity,
    Exclude,
    Format,
    StdinName,
}

impl Setting {
    /// The long name, as in `--severity`.
    pub fn name(self) -> &'static str {
        match self {
            Setting::Contacts => "--contacts",
            Setting::Suggest => "--suggest",
            Setting::Severity => "--severity",
            Setting::Exclude => "--exclude",
            Setting::Format => "--format",
            Setting::StdinName => "--stdin-name",
        }
    }
}

/// Why arguments can't be parsed.
#[derive(Drop)]
pub enum ParseError {
    /// An unknown option.
    UnknownOption(Vec<u8>),
    /// An option for a mode after another one or itself.
    SecondMode(Vec<u8>),
    /// An option without the value that it needs.
    NoValue(Setting, Vec<u8>),
    /// An unknown level, kind or format.
    UnknownValue(Setting, Vec<u8>),
    /// An option that the mode doesn't use.
    Unused(Mode, Setting),
    /// `--in-place` without `--prune`.
    InPlaceAlone,
    Memory,
}

impl From<AllocError> for ParseError {
    ghost from_gives = { λ _ error. error ≡ Memory };

    fn from(_error: AllocError) -> ParseError {
        ParseError::Memory
    }
}

impl<T: Drop> From<AllocFailed<T>> for ParseError {
    ghost from_gives = { λ _ error. error ≡ Memory };

    fn from(_error: AllocFailed<T>) -> ParseError {
        ParseError::Memory
    }
}
