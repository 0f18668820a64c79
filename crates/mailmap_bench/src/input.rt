//! The command line's arguments, and the files that they name.

use anyhow::{Context, Result};
use bstr::ByteSlice;
use gix_mailmap::actor::SignatureRef;
use std::alloc::{AllocError, Global};
use std::fs;

/// Reads the file that an argument names.
pub fn file(rt: &HostRuntime, words: &[String], index: usize) -> Result<Vec<u8>> {
    let path = words.get(index).context("argument missing")?;
    let bytes = fs::read(rt, path).context(format_args!("{path}"))?;
    Ok(bytes)
}

/// Parses a number, 1 if the argument is missing.
pub fn number(words: &[String], index: usize) -> Result<usize> {
    let Some(word) = words.get(index) else {
        return Ok(1);
    };
    let number = word
        .parse::<usize>()
        .context(format_args!("not a number: {word}"))?;
    Ok(number)
}

/// Parses a line such as `Jane <j@x>`, `None` if it has no email.
fn contact(line: &[u8]) -> Option<SignatureRef<'_>> {
    let (name, after) = line.split_once_str(b"<")?;
    let (email, _) = after.split_once_str(b">")?;
    Some(SignatureRef {
        name: name.trim(),
        email: email.trim(),
        time: "1711398853 +0800",
    })
}

pub fn contacts(alloc: Global, text: &[u8]) -> Result<Vec<SignatureRef<'_>>, AllocError> {
    text.lines().filter_map(contact).collect(alloc)
}
