//! Parses the arguments of `mailmap_verify`.
ghost use Rattle.std.specs.Prelude.{◌≡◌, [], Err, None, OnOk, drop, false, length, true};
ghost use Rattle.std.specs.Option.{option_copied};
ghost use Rattle.std.specs.Vec.Iter.{into_iter_items, into_iter_len};
ghost use Rattle.mailmap_entries.specs.Texts.{texts};
ghost use Rattle.verify_command.specs.Arguments.{IsAnswer, IsAsked, asked, asked_in, can_be_mailmap, checked, contacts_name};
ghost use Rattle.verify_command.specs.Arguments.{ended, finished, format_named, is_only_dash, kinds_after, level_named, name_in, names_in};
ghost use Rattle.verify_command.specs.Arguments.{plain, reads_contacts, reads_default, reads_mailmap, reports, setting_named, setting_word};
ghost use Rattle.verify_command.specs.Arguments.{takes_contacts, takes_default, unused_setting, value_in, wanted_of, with_mode, with_paths};
ghost use Rattle.verify_command.specs.Arguments.{with_setting, without_value, word_of};

use crate::asked::{Mode, ParseError, Request, Setting};
use bstr::ByteSlice;
use command_line::files::DEFAULT_PATH;
use mailmap_report::kinds::{Kind, Level};
use mailmap_report::settings::{Format, Settings};
use std::alloc::{AllocError, Global};
use std::vec::IntoIter;

/// The kinds of arguments where an option can stand.
#[derive(Clone, Copy)]
pub(crate) enum Word {
    /// `--`, which ends the options.
    End,
    /// The option for a mode without a value, such as `--prune`.
    Mode(Mode),
    /// `-h`, `--help` or `--version`, which ends the arguments.
    Alone(Mode),
    /// An option whose value is the next argument.
    Next(Setting),
    /// An option with its value, as in `--format=json`.
    Joined(Setting),
    /// `--in-place`.
    InPlace,
    /// An unknown option.
    Unknown,
    /// A path.
    Path,
}

/// Parses arguments, of which the first is the program's own name.
///
/// Arguments are parsed from left to right, and options may come after paths, up to `--`. Parsing ends at the first of
/// `-h`, `--help`, `--version` and an error: `--prune --help` asks for help, and `--foo --help` is an error. The value
/// of an option is the next argument, whatever it looks like, or comes after a `=`. If an option is given again, the
/// last value counts, except that excluded kinds add up.
pub fn request_of(alloc: Global, arguments: Vec<Vec<u8>>) -> Result<Request, ParseError>
    ensures { IsAsked result (asked (drop 1 (texts arguments.items))) }
{
    let mut words = arguments.into_iter();
    let _program = words.next();
    let mut request = Request::new(alloc, Mode::Verify);
    request.read(alloc, words)?;
    Ok(request)
}

impl Request {
    fn new(alloc: Global, mode: Mode) -> Request
        ensures { wanted_of result ≡ plain mode }
    {
        Request {
            mode,
            contacts: Vec::new(alloc),
            settings: Settings::new(alloc),
            paths: Vec::new(alloc),
            by_default: false,
            in_place: false,
        }
    }

    // Parses arguments without the program's name.
    fn read(
        &mut self,
        alloc: Global,
        mut words: IntoIter<Vec<u8>, Global>,
    ) -> Result<(), ParseError>
        requires { into_iter_len words ≡ length (into_iter_items words) }
        ensures { IsAnswer (λ _. wanted_of self.new) result
            (asked_in (texts (into_iter_items words)) (wanted_of self.old) None) }
    {
        while let Some(argument) = words.next() {
            match word_of(argument.as_slice()) {
                Word::Mode(mode) => self.set_mode(mode, Vec::new(alloc), argument)?,
                Word::Next(setting) => {
                    let Some(value) = words.next() else {
                        return Err(self.without_value(setting, argument));
                    };
                    self.set(setting, argument, value)?;
                }
                Word::Joined(setting) => {
                    let (_, value) = parts(argument.as_slice());
                    let value = Vec::from_slice(alloc, value.unwrap_or(&[]))?;
                    self.set(setting, argument, value)?;
                }
                Word::Path => self.paths.push(argument)?,
                Word::InPlace => self.in_place = true,
                Word::End => return self.end_with(words),
                Word::Alone(mode) => {
                    *self = Request::new(alloc, mode);
                    return Ok(());
                }
                Word::Unknown => return Err(ParseError::UnknownOption(argument)),
            }
        }
        self.end()
    }

    fn set_mode(&mut self, mode: Mode, contacts: Vec<u8>, option: Vec<u8>) -> Result<(), ParseError>
        ensures { IsAnswer (λ _. wanted_of self.new) result
            (with_mode (wanted_of self.old) mode contacts.items option.items) }
    {
        if self.mode != Mode::Verify {
            return Err(ParseError::SecondMode(option));
        }
        self.mode = mode;
        self.contacts = contacts;
        self.check()
    }

    fn set(&mut self, setting: Setting, option: Vec<u8>, value: Vec<u8>) -> Result<(), ParseError>
        ensures { IsAnswer (λ _. wanted_of self.new) result
            (with_setting (wanted_of self.old) setting option.items value.items) }
    {
        match setting {
            Setting::Contacts => self.set_mode(Mode::Contacts, value, option),
            Setting::Suggest => self.set_mode(Mode::Suggest, value, option),
            Setting::Severity => {
                let Some(level) = level_named(value.as_slice()) else {
                    return Err(ParseError::UnknownValue(setting, value));
                };
                self.settings.severity = Some(level);
                self.check()
            }
            Setting::Exclude => {
                push_kinds(&mut self.settings.excluded, value.as_slice())?;
                self.check()
            }
            Setting::Format => {
                let Some(format) = format_named(value.as_slice()) else {
                    return Err(ParseError::UnknownValue(setting, value));
                };
                self.settings.format = Some(format);
                self.check()
            }
            Setting::StdinName => {
                self.settings.stdin_name = Some(value);
                self.check()
            }
        }
    }

    fn without_value(&self, setting: Setting, option: Vec<u8>) -> ParseError
        ensures { IsAsked (Err result) (Err (without_value (wanted_of self.now) setting option.items)) }
    {
        let names_mode = setting == Setting::Contacts || setting == Setting::Suggest;
        if names_mode && self.mode != Mode::Verify {
            return ParseError::SecondMode(option);
        }
        ParseError::NoValue(setting, option)
    }

    // Takes all words as paths.
    fn end_with(&mut self, words: IntoIter<Vec<u8>, Global>) -> Result<(), ParseError>
        requires { into_iter_len words ≡ length (into_iter_items words) }
        ensures { IsAnswer (λ _. wanted_of self.new) result
            (ended (with_paths (wanted_of self.old) (texts (into_iter_items words)))) }
    {
        for word in words {
            self.paths.push(word)?;
        }
        self.end()
    }

    // What is asked for after all arguments. `--in-place` needs `--prune`, and makes another mode of it.
    fn end(&mut self) -> Result<(), ParseError>
        ensures { IsAnswer (λ _. wanted_of self.new) result (ended (wanted_of self.old)) }
    {
        if self.in_place {
            if self.mode != Mode::Prune {
                return Err(ParseError::InPlaceAlone);
            }
            self.mode = Mode::PruneInPlace;
            self.check()?;
        }
        self.finish()?;
        Ok(())
    }

    // Makes a single `-` standard input, if that can be the mailmap. Without a path, the mailmap is git's own.
    fn finish(&mut self) -> Result<(), AllocError>
        ensures { OnOk result (wanted_of self.new ≡ finished (wanted_of self.old)) }
    {
        if can_be_mailmap(self.mode, self.contacts.as_slice())
            && is_only_dash(self.paths.as_slice())
        {
            self.paths.clear();
            return Ok(());
        }
        if takes_default(self.mode) && self.paths.is_empty() {
            let path = Vec::from_slice(*self.contacts.allocator(), DEFAULT_PATH)?;
            self.paths.push(path)?;
            self.by_default = true;
        }
        Ok(())
    }

    /// Whether the mailmap is git's own, if it is there.
    pub(crate) fn reads_default(&self) -> bool
        ensures { result ≡ reads_default (wanted_of self.now) }
    {
        takes_contacts(self.mode) && self.by_default
    }

    /// Whether standard input is the mailmap.
    pub fn reads_mailmap(&self) -> bool
        ensures { result ≡ reads_mailmap (wanted_of self.now) }
    {
        can_be_mailmap(self.mode, self.contacts.as_slice()) && self.paths.is_empty()
    }

    /// Whether standard input has the contacts.
    pub fn reads_contacts(&self) -> bool
        ensures { result ≡ reads_contacts self.now.mode self.now.contacts.items }
    {
        match self.mode {
            Mode::Explain => true,
            Mode::Contacts | Mode::Suggest => self.contacts.as_slice() == b"-".as_slice(),
            Mode::Help | Mode::Version | Mode::Verify | Mode::Prune | Mode::PruneInPlace => false,
        }
    }

    /// The name of the file of contacts in messages.
    pub(crate) fn contacts_name(&self) -> &[u8]
        ensures { result.now ≡ contacts_name (wanted_of self.now) }
    {
        if self.contacts.as_slice() == b"-".as_slice() {
            return self.settings.input_name();
        }
        self.contacts.as_slice()
    }

    // Whether the mode uses all the settings.
    fn check(&self) -> Result<(), ParseError>
        ensures { IsAnswer (λ _. wanted_of self.now) result (checked (wanted_of self.now)) }
    {
        match self.unused_setting() {
            Some(setting) => Err(ParseError::Unused(self.mode, setting)),
            None => Ok(()),
        }
    }

    fn unused_setting(&self) -> Option<Setting>
        ensures { result ≡ unused_setting (wanted_of self.now) }
    {
        let settings = &self.settings;
        let reports = reports(self.mode);
        let names_input = reports || self.mode == Mode::Prune;
        match settings {
            _ if settings.severity.is_some() && !reports => Some(Setting::Severity),
            _ if !settings.excluded.is_empty() && !reports => Some(Setting::Exclude),
            _ if settings.format.is_some() && !reports => Some(Setting::Format),
            _ if settings.stdin_name.is_some() && !names_input => Some(Setting::StdinName),
            _ => None,
        }
    }
}

// Appends the kinds with these names, which are separated by commas.
fn push_kinds(kinds: &mut Vec<Kind>, names: &[u8]) -> Result<(), ParseError>
    ensures { IsAnswer (λ _. kinds.new.items) result (kinds_after kinds.old.items (names_in names.now)) }
{
    for name in names.split_str(b",") {
        let Some(kind) = Kind::of_name(name) else {
            let name = Vec::from_slice(*kinds.allocator(), name)?;
            return Err(ParseError::UnknownValue(Setting::Exclude, name));
        };
        kinds.push(kind)?;
    }
    Ok(())
}

// Whether the mode prints findings.
fn reports(mode: Mode) -> bool
    ensures { result ≡ reports mode }
{
    mode == Mode::Verify || mode == Mode::Contacts
}

// Whether there is a file of contacts.
fn takes_contacts(mode: Mode) -> bool
    ensures { result ≡ takes_contacts mode }
{
    mode == Mode::Contacts || mode == Mode::Suggest
}

// Whether the mailmap is git's own without a path.
fn takes_default(mode: Mode) -> bool
    ensures { result ≡ takes_default mode }
{
    match mode {
        Mode::Help | Mode::Version | Mode::Explain => false,
        _ => true,
    }
}

// Whether standard input can be the mailmap: it hasn't contacts, and lines aren't suggested.
fn can_be_mailmap(mode: Mode, contacts: &[u8]) -> bool
    ensures { result ≡ can_be_mailmap mode contacts.now }
{
    match mode {
        Mode::Verify | Mode::Prune => true,
        Mode::Contacts => contacts != b"-".as_slice(),
        _ => false,
    }
}

fn is_only_dash(paths: &[Vec<u8>]) -> bool
    ensures { result ≡ is_only_dash (texts paths.now) }
{
    match paths {
        [path] => path.as_slice() == b"-".as_slice(),
        _ => false,
    }
}

fn word_of(argument: &[u8]) -> Word
    ensures { result ≡ word_of argument.now }
{
    match argument {
        _ if argument == b"--".as_slice() => Word::End,
        _ if argument == b"-h".as_slice() => Word::Alone(Mode::Help),
        _ if argument == b"--help".as_slice() => Word::Alone(Mode::Help),
        _ if argument == b"--version".as_slice() => Word::Alone(Mode::Version),
        _ if argument == b"--prune".as_slice() => Word::Mode(Mode::Prune),
        _ if argument == b"--explain".as_slice() => Word::Mode(Mode::Explain),
        _ if argument == b"--in-place".as_slice() => Word::InPlace,
        _ if argument == b"-S".as_slice() => Word::Next(Setting::Severity),
        _ if argument == b"-e".as_slice() => Word::Next(Setting::Exclude),
        _ if argument == b"-f".as_slice() => Word::Next(Setting::Format),
        _ => setting_word(argument),
    }
}

// A long option with a value, or an unknown option, or a path.
fn setting_word(argument: &[u8]) -> Word
    ensures { result ≡ setting_word argument.now }
{
    let (name, value) = parts(argument);
    if let Some(setting) = setting_named(name) {
        return match value {
            Some(_) => Word::Joined(setting),
            None => Word::Next(setting),
        };
    }
    match argument {
        [b'-', _, ..] => Word::Unknown,
        _ => Word::Path,
    }
}

// The name and the value in `NAME=VALUE`; all of an argument without `=` is the name.
fn parts(argument: &[u8]) -> (&[u8], Option<&[u8]>)
    ensures name { result.0.now ≡ name_in argument.now }
    ensures value { option_copied result.1 ≡ value_in argument.now }
{
    match argument.split_once_str(b"=") {
        Some((name, value)) => (name, Some(value)),
        None => (argument, None),
    }
}

fn setting_named(name: &[u8]) -> Option<Setting>
    ensures { result ≡ setting_named name.now }
{
    match name {
        _ if name == b"--contacts".as_slice() => Some(Setting::Contacts),
        _ if name == b"--suggest".as_slice() => Some(Setting::Suggest),
        _ if name == b"--severity".as_slice() => Some(Setting::Severity),
        _ if name == b"--exclude".as_slice() => Some(Setting::Exclude),
        _ if name == b"--format".as_slice() => Some(Setting::Format),
        _ if name == b"--stdin-name".as_slice() => Some(Setting::StdinName),
        _ => None,
    }
}

fn level_named(name: &[u8]) -> Option<Level>
    ensures { result ≡ level_named name.now }
{
    match name {
        _ if name == b"error".as_slice() => Some(Level::Error),
        _ if name == b"warning".as_slice() => Some(Level::Warning),
        _ if name == b"note".as_slice() => Some(Level::Note),
        _ => None,
    }
}

fn format_named(name: &[u8]) -> Option<Format>
    ensures { result ≡ format_named name.now }
{
    match name {
        _ if name == b"gcc".as_slice() => Some(Format::Gcc),
        _ if name == b"json".as_slice() => Some(Format::Json),
        _ if name == b"github".as_slice() => Some(Format::Github),
        _ => None,
    }
}
