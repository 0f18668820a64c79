//! Dumps entries, listings and answers in hex, to compare them with those of the Rust original.
#![tactic(auto)]

mod dump;

use anyhow::{Context, Result, bail};
use mailmap_grammar::parse_ignore_errors;
use mailmap_snapshot::Snapshot;
use std::alloc::{AllocError, Global};
use std::io::Read;
use std::rt::Files;
use std::{env, fs};

const USAGE: &str = "\
usage: mailmap_dump MODE FILE..
    parse FILE..     the entries and faults of each FILE, line by line
    entries FILE..   the entries of the snapshot of all FILEs
    resolve FILE..   what that snapshot finds for each line NAME EMAIL of standard input
An entry is E NEW_NAME NEW_EMAIL OLD_NAME OLD_EMAIL, a fault is F, its text and its line, and what is found is
NAME EMAIL. Names, emails and lines are in hex, . is an empty one and - is none.
";

fn main(rt: HostRuntime) -> Result<()> {
    let words: Vec<String> = env::args(&rt)?.collect(rt.alloc())?;
    match words.as_slice() {
        [_, mode, paths @ ..] => run(&rt, mode, paths),
        _ => Ok(print!(rt; "{USAGE}")?),
    }
}

fn run(rt: &HostRuntime, mode: &str, paths: &[String]) -> Result<()> {
    let files = read_files(rt, paths)?;
    let mut out = String::new(rt.alloc());
    match mode {
        "parse" => dump::items(&mut out, &files)?,
        "entries" => dump::entries(&mut out, &merged(rt.alloc(), &files)?)?,
        "resolve" => resolve(rt, &files, &mut out)?,
        _ => bail!("unknown mode {mode}"),
    }
    print!(rt; "{out}")?;
    Ok(())
}

// Dumps the answers for the names and emails on standard input.
fn resolve(rt: &HostRuntime, files: &[Vec<u8>], out: &mut String) -> Result<()> {
    let snapshot = merged(rt.alloc(), files)?;
    let mut pairs = Vec::new(rt.alloc());
    rt.stdin().read_to_end(&mut pairs)?;
    dump::answers(out, rt.alloc(), &snapshot, &pairs)
}

fn read_files<R: Files + AllocGlobal>(rt: &R, paths: &[String]) -> Result<Vec<Vec<u8>>> {
    let mut files = Vec::new(rt.alloc());
    for path in paths {
        files.push(fs::read(rt, path).context(format_args!("{path}"))?)?;
    }
    Ok(files)
}

// Later files override earlier ones.
fn merged(alloc: Global, files: &[Vec<u8>]) -> Result<Snapshot, AllocError> {
    let mut snapshot = Snapshot::empty(alloc);
    for file in files {
        snapshot.merge(parse_ignore_errors(file))?;
    }
    Ok(snapshot)
}
