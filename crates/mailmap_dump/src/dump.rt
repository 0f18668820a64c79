//! The dumps, one line per item.

use anyhow::Context;
use bstr::ByteSlice;
use mailmap_entries::Entry;
use mailmap_grammar::lines::Error;
use mailmap_grammar::parse;
use mailmap_snapshot::Snapshot;
use mailmap_snapshot::actor::SignatureRef;
use std::alloc::{AllocError, Global};
use std::fmt;

/// Dumps the entry or the fault of each line of the files.
pub fn items(out: &mut String, files: &[Vec<u8>]) -> Result<(), AllocError> {
    for file in files {
        for item in parse(file) {
            put_item(out, item)?;
        }
    }
    Ok(())
}

fn put_item(out: &mut String, item: Result<Entry<'_>, Error<'_>>) -> Result<(), AllocError> {
    match item {
        Ok(entry) => put_entry(out, &entry),
        Err(fault) => {
            write!(out, "F {fault}")?;
            put_texts(out, &[Some(fault.input())])
        }
    }
}

/// Dumps the entries of a snapshot.
pub fn entries(out: &mut String, snapshot: &Snapshot) -> Result<(), AllocError> {
    for entry in snapshot.iter() {
        put_entry(out, &entry)?;
    }
    Ok(())
}

fn put_entry(out: &mut String, entry: &Entry<'_>) -> Result<(), AllocError> {
    out.push('E')?;
    put_texts(
        out,
        &[
            entry.new_name(),
            entry.new_email(),
            entry.old_name(),
            Some(entry.old_email()),
        ],
    )
}

// Ends a line with these texts, each after a space.
fn put_texts(out: &mut String, texts: &[Option<&[u8]>]) -> Result<(), AllocError> {
    for text in texts {
        write!(out, " {}", Hex(*text))?;
    }
    out.push('\n')?;
    Ok(())
}

/// Dumps the answer for each line, which has a name and an email in hex.
pub fn answers(
    out: &mut String,
    alloc: Global,
    snapshot: &Snapshot,
    pairs: &[u8],
) -> anyhow::Result<()> {
    for line in pairs.lines() {
        let mut fields = line.fields();
        let name = text(alloc, fields.next())?;
        let email = text(alloc, fields.next())?;
        put_answer(out, snapshot, name.as_slice(), email.as_slice())?;
    }
    Ok(())
}

fn put_answer(
    out: &mut String,
    snapshot: &Snapshot,
    name: &[u8],
    email: &[u8],
) -> Result<(), AllocError> {
    let signature = SignatureRef {
        name,
        email,
        time: "",
    };
    let (name, email) = match snapshot.try_resolve_ref(signature) {
        Some(found) => (found.name, found.email),
        None => (None, None),
    };
    write!(out, "{}", Hex(name))?;
    put_texts(out, &[email])
}

// Decodes a field; `.` is empty.
fn text(alloc: Global, field: Option<&[u8]>) -> anyhow::Result<Vec<u8>> {
    match field.context("a name and an email are wanted")? {
        b"." => Ok(Vec::new(alloc)),
        digits => Ok(hex::decode(alloc, digits)?),
    }
}

// `-` for a missing text, `.` for an empty one, and else two digits for each byte.
#[derive(Clone, Copy)]
struct Hex<'a>(Option<&'a [u8]>);

impl fmt::Display for Hex<'_> {
    fn fmt<W: fmt::Write>(&self, f: &mut fmt::Formatter<W>) -> fmt::Result {
        let Some(text) = self.0 else {
            return f.write_str("-");
        };
        if text.is_empty() {
            return f.write_str(".");
        }
        for byte in text {
            write!(f, "{byte:02x}")?;
        }
        Ok(())
    }
}
