//! What is timed. Each mode adds up its results, so that the compiler can't drop any of the work.

use crate::input::{contacts, file, number};
use anyhow::{Context, Result, bail};
use gix_mailmap::actor::SignatureRef;
use gix_mailmap::snapshot::Snapshot;
use gix_mailmap::{Entry, check, parse, parse_ignore_errors};
use std::alloc::{AllocError, Global};
use std::time::Instant;
use std::{fmt, iter};

/// The number of items, and the length of their texts together.
#[derive(Clone, Copy)]
struct Tally {
    items: usize,
    bytes: usize,
}

const NONE: Tally = Tally { items: 0, bytes: 0 };

impl Tally {
    fn add(&mut self, bytes: usize) {
        self.items = self.items.wrapping_add(1);
        self.bytes = self.bytes.wrapping_add(bytes);
    }
}

impl fmt::Display for Tally {
    fn fmt<W: fmt::Write>(&self, f: &mut fmt::Formatter<W>) -> fmt::Result {
        write!(f, "{} texts={}", self.items, self.bytes)
    }
}

/// Does what a mode says, and returns what it counted. `laps` gets the nanoseconds of each round.
pub fn measure(
    rt: &HostRuntime,
    mode: &str,
    words: &[String],
    laps: &mut Vec<u128>,
) -> Result<String> {
    let map = file(rt, words, 0)?;
    match mode {
        "bench-parse" => {
            let tally = often(rt, number(words, 1)?, laps, || Ok(walk(&map)))?;
            Ok(format!(in rt.alloc(); "items={tally}")?)
        }
        "bench-build" => {
            let build = || Snapshot::from_bytes(rt.alloc(), &map);
            let snapshot = often(rt, number(words, 1)?, laps, build)?;
            Ok(format!(in rt.alloc(); "entries={}", listed(&snapshot))?)
        }
        "bench-compact" => {
            let compact = || check::compact(rt.alloc(), &[map.as_slice()]);
            let text = often(rt, number(words, 1)?, laps, compact)?;
            Ok(format!(in rt.alloc(); "texts={}", text.len())?)
        }
        "bench-merge1" => merges(rt, &map, 1, laps),
        "bench-merge" => merges(rt, &map, number(words, 1)?, laps),
        "bench-merge-last" => last_merges(rt, &map, number(words, 1)?, laps),
        _ => measure_contacts(rt, mode, &map, words, laps),
    }
}

fn measure_contacts(
    rt: &HostRuntime,
    mode: &str,
    map: &[u8],
    words: &[String],
    laps: &mut Vec<u128>,
) -> Result<String> {
    let text = file(rt, words, 1)?;
    let rounds = number(words, 2)?;
    if mode == "bench-check" {
        let answers = often(rt, rounds, laps, || check::check(rt.alloc(), &[map], &text))?;
        return Ok(format!(in rt.alloc(); "texts={}", answers.len())?);
    }
    let snapshot = Snapshot::from_bytes(rt.alloc(), map)?;
    let contacts = contacts(rt.alloc(), &text)?;
    let tally = match mode {
        "bench-lookup" => often(rt, rounds, laps, || Ok(look_up(&snapshot, &contacts)))?,
        "bench-answer" => often(rt, rounds, laps, || Ok(answer(&snapshot, &contacts)))?,
        _ => bail!("unknown mode {mode}"),
    };
    Ok(format!(in rt.alloc(); "contacts={} hits={tally}", contacts.len())?)
}

// Times each round, and returns what the last one made. What the one before made is dropped first.
fn often<T: Drop, W: Fn() -> Result<T, AllocError>>(
    rt: &HostRuntime,
    rounds: usize,
    laps: &mut Vec<u128>,
    work: W,
) -> Result<T>
    requires { W.IsAlwaysCallable work }
{
    let mut made = None;
    for _ in 0..rounds {
        made = None;
        let start = Instant::now(rt)?;
        made = Some(work()?);
        laps.push(start.elapsed(rt)?.as_nanos())?;
    }
    made.context("no round was asked for")
}

fn walk(buf: &[u8]) -> Tally {
    let mut tally = NONE;
    for item in parse(buf) {
        match item {
            Ok(entry) => tally.add(entry_len(&entry)),
            Err(error) => tally.add(error.input().len()),
        }
    }
    tally
}

// The length of an entry's texts together.
fn entry_len(entry: &Entry<'_>) -> usize {
    let names = optional_len(entry.new_name()).wrapping_add(optional_len(entry.old_name()));
    let emails = optional_len(entry.new_email()).wrapping_add(entry.old_email().len());
    names.wrapping_add(emails)
}

fn optional_len(text: Option<&[u8]>) -> usize {
    text.unwrap_or(b"").len()
}

fn listed(snapshot: &Snapshot) -> Tally {
    let mut tally = NONE;
    for entry in snapshot.iter() {
        tally.add(entry_len(&entry));
    }
    tally
}

fn look_up(snapshot: &Snapshot, contacts: &[SignatureRef<'_>]) -> Tally {
    let mut tally = NONE;
    for contact in contacts {
        if let Some(found) = snapshot.try_resolve_ref(*contact) {
            tally.add(optional_len(found.name).wrapping_add(optional_len(found.email)));
        }
    }
    tally
}

fn answer(snapshot: &Snapshot, contacts: &[SignatureRef<'_>]) -> Tally {
    let mut tally = NONE;
    for contact in contacts {
        let (name, email) = match snapshot.try_resolve_ref(*contact) {
            Some(found) => (
                found.name.unwrap_or(contact.name),
                found.email.unwrap_or(contact.email),
            ),
            None => (contact.name, contact.email),
        };
        tally.add(read(name).wrapping_add(read(email)));
    }
    tally
}

// The length of a text plus its first byte, to read at least that.
fn read(text: &[u8]) -> usize {
    match text.first() {
        Some(byte) => text.len().wrapping_add(*byte as usize),
        None => 0,
    }
}

// Merges entries in batches of this many.
fn merges(rt: &HostRuntime, map: &[u8], batch: usize, laps: &mut Vec<u128>) -> Result<String> {
    let entries: Vec<Entry<'_>> = parse_ignore_errors(map).collect(rt.alloc())?;
    let batch = batch.max(1);
    let snapshot = often(rt, 1, laps, || merged(rt.alloc(), &entries, batch))?;
    let merges = entries.len().div_ceil(batch);
    let tally = listed(&snapshot);
    Ok(format!(in rt.alloc(); "merges={merges} entries={tally}")?)
}

fn merged(alloc: Global, entries: &[Entry<'_>], batch: usize) -> Result<Snapshot, AllocError> {
    let mut snapshot = Snapshot::empty(alloc);
    for chunk in entries.chunks(batch.max(1)) {
        snapshot.merge(chunk.iter().copied())?;
    }
    Ok(snapshot)
}

// Merges the last entries one by one into a snapshot of the others, and times each merge.
fn last_merges(rt: &HostRuntime, map: &[u8], count: usize, laps: &mut Vec<u128>) -> Result<String> {
    let entries: Vec<Entry<'_>> = parse_ignore_errors(map).collect(rt.alloc())?;
    let (first, last) = entries.split_at(entries.len().saturating_sub(count));
    let mut snapshot = Snapshot::new(rt.alloc(), first.iter().copied())?;
    for entry in last {
        let start = Instant::now(rt)?;
        snapshot.merge(iter::once(*entry))?;
        laps.push(start.elapsed(rt)?.as_nanos())?;
    }
    let tally = listed(&snapshot);
    Ok(format!(in rt.alloc(); "merges={} entries={tally}", last.len())?)
}
