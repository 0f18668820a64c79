//! Snapshots: how they are made, changed, listed, compared and written.
use crate::answers;
use crate::lines::{entries_of, entry_of, push_entries};
use crate::orders::is_same;
use crate::script::{Run, cut, push, push_shown, push_text, push_value};
use mailmap_entries::Entry;
use mailmap_grammar::lines::Error;
use mailmap_grammar::{parse, parse_ignore_errors};
use mailmap_snapshot::Snapshot;
use mailmap_snapshot::snapshot::{Source, WriteError};
use std::alloc::{AllocError, Global};
use std::fmt;

pub fn call(run: &mut Run, word: &str, given: &[u8]) {
    match word {
        "#" | "##" => clear(run),
        "new" => make(run, given),
        "from_bytes" => read(run, given),
        "numbered" | "backwards" | "repeated" => read_numbered(run, word, given),
        "collect" => collect(run, given),
        "try_clone" => copy(run),
        "merge" => merge(run, given),
        "merge_source" => merge_source(run, given),
        "merge_sources" => merge_sources(run),
        "iter" => push_iter(run),
        "entries" => push_listed(run),
        "equals" => push_equality(run, given),
        "write" => push_lines(run),
        "debug" => push_debug(run),
        _ => answers::call(run, word, given),
    }
}

fn clear(run: &mut Run) {
    place(run, Ok(Snapshot::empty(run.alloc)));
}

/// Makes this the snapshot that calls change and ask.
fn place(run: &mut Run, made: Result<Snapshot, AllocError>) {
    if let Ok(snapshot) = made {
        run.snapshot = snapshot;
    } else {
        push(&mut run.text, "    out of memory\n");
    }
}

fn made(alloc: Global, entries: &[Entry<'_>]) -> Result<Snapshot, AllocError> {
    Snapshot::new(alloc, entries.iter().copied())
}

fn make(run: &mut Run, given: &[u8]) {
    let entries = entries_of(run.alloc, given);
    place(run, made(run.alloc, &entries));
}

fn read(run: &mut Run, mailmap: &[u8]) {
    place(run, Snapshot::from_bytes(run.alloc, mailmap));
}

fn copy(run: &mut Run) {
    let copied = run.snapshot.try_clone(run.alloc);
    place(run, copied);
}

fn merge(run: &mut Run, given: &[u8]) {
    let entries = entries_of(run.alloc, given);
    let merged = merge_all(&mut run.snapshot, &entries);
    push_value(&mut run.text, &merged);
}

fn merge_all(snapshot: &mut Snapshot, entries: &[Entry<'_>]) -> Result<(), AllocError> {
    snapshot.merge(entries.iter().copied())
}

/// Makes a snapshot of the entries of a mailmap without faults.
fn collect(run: &mut Run, mailmap: &[u8]) {
    if let Ok(parsed) = collected(run.alloc, mailmap) {
        place(run, Snapshot::new(run.alloc, parsed.into_iter()));
    }
}

fn collected(alloc: Global, mailmap: &[u8]) -> Result<Vec<Entry<'_>>, fmt::Error> {
    parse(mailmap).map(without_fault).try_collect(alloc)
}

fn without_fault<'a>(item: Result<Entry<'a>, Error<'a>>) -> Result<Entry<'a>, fmt::Error> {
    item.or(Err(fmt::Error))
}

/// Makes a snapshot of as many lines as are asked for, each made of a pattern and its number, one by one. Appends
/// whether it is the same if it is made at once.
fn read_numbered(run: &mut Run, word: &str, given: &[u8]) {
    let (count, pattern) = cut(given);
    let mailmap = numbered(run.alloc, word, number_of(count), pattern);
    place(run, Ok(merged(run.alloc, mailmap.as_bytes())));
    let entries = parse_ignore_errors(mailmap.as_bytes());
    push_if_same(run, Snapshot::new(run.alloc, entries));
}

fn number_of(digits: &[u8]) -> usize {
    str::from_utf8(digits).unwrap_or("").parse().unwrap_or(0)
}

/// A snapshot of lines that are merged one by one, as far as there is memory.
fn merged(alloc: Global, mailmap: &[u8]) -> Snapshot {
    let mut snapshot = Snapshot::empty(alloc);
    for entry in parse_ignore_errors(mailmap) {
        let _ = merge_all(&mut snapshot, &[entry]);
    }
    snapshot
}

/// Lines with numbers: for `backwards` from the last to the first, for `repeated` all with 0, which leaves letters as
/// they are.
fn numbered(alloc: Global, word: &str, count: usize, pattern: &[u8]) -> String {
    let mut mailmap = String::new(alloc);
    for i in 0..count {
        let number = match word {
            "backwards" => count - 1 - i,
            "repeated" => 0,
            _ => i,
        };
        push_numbered(&mut mailmap, pattern, number);
    }
    mailmap
}

/// Appends a pattern with the number in place of `#`, and letters in the other case where the number's binary digit for
/// them is 1. The last digit is that of `a`.
fn push_numbered(text: &mut String, pattern: &[u8], number: usize) {
    for byte in pattern {
        if *byte == b'#' {
            push_shown(text, &number);
        } else {
            let _ = text.push(letter_of(*byte, number));
        }
    }
    push(text, "\n");
}

fn letter_of(byte: u8, number: usize) -> char {
    let is_other = byte.is_ascii_alphabetic() & ((number << 1 >> (byte % 32)) % 2 == 1);
    char::from(byte ^ (u8::from(is_other) << 5))
}

/// Merges buffers and a list of entries, and appends which of them were merged.
fn merge_sources(run: &mut Run) {
    let entries = [entry_of(b"<n@y> <B@x>")];
    let sources = [
        Source::Buffer(b"N <a@x>"),
        Source::Buffer(b""),
        Source::Buffer(b"M <a@x>"),
        Source::Entries(&entries),
    ];
    let mut made = [false, true, false, false];
    run.snapshot.merge_sources(&sources, &mut made);
    push_value(&mut run.text, &made);
}

fn merge_source(run: &mut Run, given: &[u8]) {
    let merged = run.snapshot.merge_source(&Source::Buffer(given));
    push_value(&mut run.text, &merged);
}

/// Appends the entries, and how many there are.
fn push_iter(run: &mut Run) {
    push_entries(&mut run.text, run.snapshot.iter());
    push_value(&mut run.text, &run.snapshot.len());
}

fn push_listed(run: &mut Run) {
    if let Ok(entries) = run.snapshot.entries(run.alloc) {
        push_all(&mut run.text, &entries);
    }
}

fn push_all(text: &mut String, entries: &[Entry<'_>]) {
    push_entries(text, entries.iter().copied());
    push_value(text, &entries.len());
}

/// Appends whether the snapshot is equal to that of other entries, and hashes alike.
fn push_equality(run: &mut Run, given: &[u8]) {
    let entries = entries_of(run.alloc, given);
    push_if_same(run, made(run.alloc, &entries));
}

fn push_if_same(run: &mut Run, made: Result<Snapshot, AllocError>) {
    if let Ok(other) = made {
        push_value(&mut run.text, &is_same(&run.snapshot, &other));
    }
}

/// Appends what a snapshot is written as.
fn push_lines(run: &mut Run) {
    push_written(&mut run.text, run.snapshot.write(run.alloc));
}

fn push_written(text: &mut String, written: Result<Vec<u8>, WriteError>) {
    match written {
        Ok(bytes) => push_text(text, &bytes),
        Err(error) => push_error(text, &error),
    }
}

fn push_error(text: &mut String, error: &WriteError) {
    push(text, "    ");
    push_shown(text, error);
    push(text, "\n");
}

/// Appends the debug text of a snapshot, and the text of the error that no script can bring about.
fn push_debug(run: &mut Run) {
    push_value(&mut run.text, &run.snapshot);
    push_error(&mut run.text, &WriteError::Memory(AllocError));
}
