//! Lines of mailmaps, and the entries that they are parsed as.
ghost use Rattle.std.specs.Iterator.{IsFinite};

use crate::script::{Run, contact_of, cut, push, push_contact, push_shown, push_value};
use crate::snapshots;
use bstr::ByteSlice;
use mailmap_entries::Entry;
use mailmap_grammar::lines::Error;
use mailmap_grammar::{parse, parse_ignore_errors, parse_strict};
use std::alloc::Global;

pub fn call(run: &mut Run, word: &str, given: &[u8]) {
    match word {
        "parse" => push_parsed(run, given),
        "parse_strict" => push_strict(run, given),
        "parse_ignore_errors" => push_good(run, given),
        "bytes" => push_bytes(run),
        "brackets" => push_brackets(run),
        _ => snapshots::call(run, word, given),
    }
}

fn push_parsed(run: &mut Run, given: &[u8]) {
    push_items(&mut run.text, parse(given));
}

fn push_strict(run: &mut Run, given: &[u8]) {
    push_items(&mut run.text, parse_strict(given));
}

fn push_good(run: &mut Run, given: &[u8]) {
    push_entries(&mut run.text, parse_ignore_errors(given));
}

/// Appends entries, and faults with the numbers and the texts of their lines.
fn push_items<'a, I: Iterator<Item = Result<Entry<'a>, Error<'a>>> + Drop>(
    text: &mut String,
    items: I,
)
    requires can { I.can_next items }
    requires finite { IsFinite (I.remaining items) }
{
    for item in items {
        match item {
            Ok(entry) => push_entry(text, &entry),
            Err(fault) => push_fault(text, &fault),
        }
    }
}

/// Appends entries as lines of a mailmap have them.
pub fn push_entries<'a, I: Iterator<Item = Entry<'a>> + Drop>(text: &mut String, entries: I)
    requires can { I.can_next entries }
    requires finite { IsFinite (I.remaining entries) }
{
    for entry in entries {
        push_entry(text, &entry);
    }
}

fn push_entry(text: &mut String, entry: &Entry<'_>) {
    push(text, "   ");
    push_contact(text, entry.new_name(), entry.new_email());
    push_contact(text, entry.old_name(), Some(entry.old_email()));
    push(text, "\n");
}

fn push_fault(text: &mut String, fault: &Error<'_>) {
    push(text, "    ");
    push_shown(text, fault);
    push(text, " (");
    push_shown(text, &fault.line());
    push(text, ", ");
    push_shown(text, &fault.input().escape_ascii());
    push(text, ")\n");
}

/// Entries that are parted by `; `.
pub fn entries_of(alloc: Global, given: &[u8]) -> Vec<Entry<'_>> {
    let mut entries = Vec::new(alloc);
    let mut rest = given;
    for _ in 0..given.len() {
        if rest.is_empty() {
            break;
        }
        let (entry, left) = cut(rest);
        let _ = entries.push(entry_of(entry));
        rest = left;
    }
    entries
}

/// The entry that a text stands for, made by a constructor.
pub fn entry_of(text: &[u8]) -> Entry<'_> {
    let (name, email, rest) = contact_of(text);
    match name {
        _ if !rest.is_empty() => entry_with_email(name, email, rest),
        Some(name) => Entry::change_name_by_email(name, email),
        None => Entry::default(),
    }
}

fn entry_with_email<'a>(name: Option<&'a [u8]>, email: &'a [u8], old: &'a [u8]) -> Entry<'a> {
    let (old_name, old, _) = contact_of(old);
    match (name, old_name) {
        (None, None) => Entry::change_email_by_email(email, old),
        (None, Some(of)) => Entry::change_email_by_name_and_email(email, of, old),
        (Some(name), None) => Entry::change_name_and_email_by_email(name, email, old),
        (Some(name), Some(of)) => {
            Entry::change_name_and_email_by_name_and_email(name, email, of, old)
        }
    }
}

/// Appends which bytes have another item than the fault for a line without an email, and that item.
fn push_bytes(run: &mut Run) {
    for byte in 0..=255_u8 {
        if !is_without_email(&[byte]) {
            push_value(&mut run.text, &byte);
            push_parsed(run, &[byte]);
        }
    }
}

/// Whether this is the fault of a line. It outlives the iterator.
fn is_without_email(input: &[u8]) -> bool {
    let item = parse(input).next();
    item == Some(Err(Error::NoEmail { line: 1, input }))
}

static BRACKETS: [u8; 100_000] = [b'<'; 100_000];

/// Appends whether a long line has the fault for an unclosed bracket.
fn push_brackets(run: &mut Run) {
    let input = &BRACKETS;
    let item = parse(input).next();
    let is_unclosed = item == Some(Err(Error::MissingClosingBracket { line: 1, input }));
    push_value(&mut run.text, &is_unclosed);
}
