//! What snapshots answer: lookups, how many comparisons they take, resolved signatures, and contacts.
use crate::orders;
use crate::script::{Run, contact_of, cut, push, push_line, push_name, push_text, push_value};
use bstr::ByteSlice;
use mailmap_entries::fold::Steps;
use mailmap_snapshot::actor::SignatureRef;
use mailmap_snapshot::snapshot::{ResolvedSignature, Signature};
use mailmap_snapshot::{Snapshot, actor, check};
use std::alloc::AllocError;
use std::borrow::CowSlice;
use std::{cmp, slice};

pub fn call(run: &mut Run, word: &str, given: &[u8]) {
    match word {
        "lookups" => push_lookups(run, given),
        "steps" => push_steps(run, given),
        "most_steps" => push_most_steps(run),
        "resolve" => push_resolved(run, given),
        "from" => push_from(run, given),
        "check" => push_checked(run, given),
        "compact" => push_compacted(run, given),
        "split" => push_split(run, given),
        _ => orders::call(run, word, given),
    }
}

/// A signature: a name, an email and a time.
pub fn asked_of(given: &[u8]) -> SignatureRef<'_> {
    let (name, email, time) = contact_of(given);
    SignatureRef {
        name: name.unwrap_or(b""),
        email,
        time: str::from_utf8(time).unwrap_or(""),
    }
}

/// Appends what each of the three lookups finds, the first one of a copy that is dropped before the answer is read.
fn push_lookups(run: &mut Run, given: &[u8]) {
    if let Ok(copy) = Vec::from_slice(run.alloc, given) {
        push_found(&mut run.text, found_by(&run.snapshot, copy));
    }
    push_more(&mut run.text, &run.snapshot, asked_of(given));
}

fn found_by(snapshot: &Snapshot, given: Vec<u8>) -> Option<ResolvedSignature<'_>> {
    snapshot.try_resolve_ref(asked_of(&given))
}

fn push_more(text: &mut String, snapshot: &Snapshot, asked: SignatureRef<'_>) {
    push_found(text, snapshot.try_resolve_contact(asked.name, asked.email));
    push_found(
        text,
        snapshot.try_resolve_ref_counted(asked, &mut Steps::new()),
    );
}

/// Appends the name and the email that replace those of a signature.
fn push_found(text: &mut String, found: Option<ResolvedSignature<'_>>) {
    match found {
        Some(found) => push_line(text, found.name, found.email),
        None => push(text, "    nothing\n"),
    }
}

fn push_steps(run: &mut Run, given: &[u8]) {
    let asked = asked_of(given);
    push_value(
        &mut run.text,
        &steps_of(&run.snapshot, asked.name, asked.email),
    );
}

/// How many comparisons a lookup takes.
fn steps_of(snapshot: &Snapshot, name: &[u8], email: &[u8]) -> usize {
    let mut steps = Steps::new();
    let asked = SignatureRef {
        name,
        email,
        time: "",
    };
    let _ = snapshot.try_resolve_ref_counted(asked, &mut steps);
    steps.count()
}

/// Appends the most comparisons that a lookup takes of an email that is there.
fn push_most_steps(run: &mut Run) {
    let mut most = 0;
    for entry in run.snapshot.iter() {
        most = cmp::max(most, steps_of(&run.snapshot, b"n", entry.old_email()));
    }
    push_value(&mut run.text, &most);
}

/// Appends what `resolve`, `try_resolve` and `resolve_cow` answer, a copy of the last, and the copy with its own texts.
fn push_resolved(run: &mut Run, given: &[u8]) {
    let asked = asked_of(given);
    resolve(run, asked);
    try_resolve(run, asked);
    resolve_cow(run, asked);
}

fn resolve(run: &mut Run, asked: SignatureRef<'_>) {
    if let Ok(made) = run.snapshot.resolve(run.alloc, asked) {
        push_owned(&mut run.text, &made);
    }
}

fn try_resolve(run: &mut Run, asked: SignatureRef<'_>) {
    match run.snapshot.try_resolve(run.alloc, asked) {
        Ok(Some(made)) => push_owned(&mut run.text, &made),
        Ok(None) => push(&mut run.text, "    nothing\n"),
        Err(_) => (),
    }
}

fn resolve_cow(run: &mut Run, asked: SignatureRef<'_>) {
    if let Ok(made) = run.snapshot.resolve_cow(run.alloc, asked) {
        push_signature(&mut run.text, &made);
        push_copy(run, &made);
    }
}

fn push_copy(run: &mut Run, made: &Signature<'_>) {
    if let Ok(copy) = made.try_clone(run.alloc) {
        push_signature(&mut run.text, &copy);
        push_own(run, copy);
    }
}

fn push_own(run: &mut Run, signature: Signature<'_>) {
    if let Ok(made) = actor::Signature::from_cow(run.alloc, signature) {
        push_owned(&mut run.text, &made);
    }
}

fn push_owned(text: &mut String, made: &actor::Signature) {
    push_line(text, Some(&made.name), Some(&made.email));
    push_value(text, &made.time);
}

/// Appends a signature, and which of its texts are owned.
fn push_signature(text: &mut String, made: &Signature<'_>) {
    push(text, "   ");
    push_cow(text, &made.name);
    push_cow(text, &made.email);
    push(text, "\n");
    push_value(text, &made.time);
}

fn push_cow(text: &mut String, cow: &CowSlice<'_, u8>) {
    let kind = match cow {
        CowSlice::Owned(_) => " owned",
        CowSlice::Borrowed(_) => " borrowed",
    };
    push(text, kind);
    push_name(text, cow);
}

/// Appends a signature that isn't looked up, whether it is equal to the default one, and that one.
fn push_from(run: &mut Run, given: &[u8]) {
    let made = Signature::from(asked_of(given));
    push_signature(&mut run.text, &made);
    push_default(&mut run.text, &made);
}

fn push_default(text: &mut String, made: &Signature<'_>) {
    let default = Signature::default();
    push_value(text, &(*made == default));
    push_signature(text, &default);
}

fn push_split(run: &mut Run, given: &[u8]) {
    let (before, after) = check::split(given);
    push_text(&mut run.text, before);
    push_text(&mut run.text, after);
}

/// Appends what contacts, the last text, are answered with buffers, the other texts.
fn push_checked(run: &mut Run, given: &[u8]) {
    let (others, contacts) = given.rsplit_once_str(b"; ").unwrap_or((b"", given));
    let (first, second) = cut(others);
    let answers = check::check(run.alloc, given_of(&[first, second]), contacts);
    push_made(&mut run.text, answers);
}

fn push_compacted(run: &mut Run, given: &[u8]) {
    let (first, second) = cut(given);
    let mailmap = check::compact(run.alloc, given_of(&[first, second]));
    push_made(&mut run.text, mailmap);
}

fn push_made(text: &mut String, made: Result<Vec<u8>, AllocError>) {
    if let Ok(bytes) = made {
        push_text(text, &bytes);
    }
}

/// Those that are given: an empty text is none.
fn given_of<'b, 'a>(buffers: &'b [&'a [u8]]) -> &'b [&'a [u8]] {
    match buffers {
        [b"", ..] => &[],
        [first, b""] => slice::from_ref(first),
        _ => buffers,
    }
}
