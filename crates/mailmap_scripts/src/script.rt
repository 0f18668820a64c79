//! The lines of a script, and the texts in them.
use crate::lines;
use bstr::{ByteSlice, ByteVec};
use mailmap_snapshot::Snapshot;
use std::alloc::Global;
use std::fmt::{Debug, Display};

/// The snapshot that calls change and ask, and the script with the answers that they gave.
#[derive(Drop)]
pub struct Run {
    pub alloc: Global,
    pub snapshot: Snapshot,
    pub text: String,
}

/// A script with the answers that its calls give.
pub fn answered(alloc: Global, script: &str) -> String {
    let mut run = Run {
        alloc,
        snapshot: Snapshot::empty(alloc),
        text: String::new(alloc),
    };
    run_lines(&mut run, script);
    run.text
}

fn run_lines(run: &mut Run, script: &str) {
    for line in script.lines() {
        if !line.starts_with(' ') {
            run_line(run, line);
        }
    }
}

fn run_line(run: &mut Run, line: &str) {
    push(&mut run.text, line);
    push(&mut run.text, "\n");
    let (word, given) = line.split_once(' ').unwrap_or((line, ""));
    if let Ok(given) = Vec::unescape_bytes(run.alloc, given) {
        lines::call(run, word, &given);
    }
}

/// The first of the given texts, and what is left.
pub fn cut(text: &[u8]) -> (&[u8], &[u8]) {
    text.split_once_str(b"; ").unwrap_or((text, b""))
}

/// A name, if there is one, an email in brackets, and what is left.
pub fn contact_of(text: &[u8]) -> (Option<&[u8]>, &[u8], &[u8]) {
    match text.strip_prefix(b"<") {
        Some(rest) => with_email(None, rest),
        None => named_contact_of(text),
    }
}

fn named_contact_of(text: &[u8]) -> (Option<&[u8]>, &[u8], &[u8]) {
    let (name, rest) = text.split_once_str(b" <").unwrap_or((text, b""));
    with_email(Some(name.strip_suffix(b"\"\"").unwrap_or(name)), rest)
}

fn with_email<'a>(
    name: Option<&'a [u8]>,
    rest: &'a [u8],
) -> (Option<&'a [u8]>, &'a [u8], &'a [u8]) {
    match rest.split_once_str(b"> ") {
        Some((email, left)) => (name, email, left),
        None => (name, rest.strip_suffix(b">").unwrap_or(rest), b""),
    }
}

pub fn push(text: &mut String, part: &str) {
    let _ = text.push_str(part);
}

pub fn push_shown<T: Display>(text: &mut String, value: &T) {
    let _ = write!(text, "{value}");
}

/// Appends a value in a line of its own.
pub fn push_value<T: Debug>(text: &mut String, value: &T) {
    let _ = writeln!(text, "    {value:?}");
}

/// Appends a text in a line of its own.
pub fn push_text(text: &mut String, bytes: &[u8]) {
    push_line(text, Some(bytes), None);
}

/// Appends a name and an email, if they are there, in a line of their own.
pub fn push_line(text: &mut String, name: Option<&[u8]>, email: Option<&[u8]>) {
    push(text, "   ");
    push_contact(text, name, email);
    push(text, "\n");
}

/// Appends a name and an email, if they are there.
pub fn push_contact(text: &mut String, name: Option<&[u8]>, email: Option<&[u8]>) {
    if let Some(name) = name {
        push_name(text, name);
    }
    if let Some(email) = email {
        push(text, " <");
        push_shown(text, &email.escape_ascii());
        push(text, ">");
    }
}

pub fn push_name(text: &mut String, name: &[u8]) {
    push(text, if name.is_empty() { " \"\"" } else { " " });
    push_shown(text, &name.escape_ascii());
}
