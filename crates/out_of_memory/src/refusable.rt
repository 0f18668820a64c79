//! The calls that allocate, one after another.

use crate::answered::Shared;
use crate::call::Call;
use crate::merges;
use crate::run::{Run, Subject, Wrong};
use crate::samples::{FAULTY, JANE_DOE, TEAM, team};
use crate::values::{count_contacts, open_stream, resolve_jane};
use mailmap_contacts::counter::Contacts;
use mailmap_snapshot::Snapshot;
use mailmap_snapshot::check::ContactStream;
use mailmap_snapshot::snapshot::Signature;
use mailmap_suggestions::findings::contact_findings;
use mailmap_suggestions::suggestions::suggest;
use mailmap_suggestions::text::{push_count, push_entry};
use std::alloc::{AllocError, Global};

static READ_AND_WRITTEN: [Call; 4] = [Call::FromBytes, Call::Entries, Call::TryClone, Call::Write];

static RESOLVED: [Call; 3] = [Call::TryResolve, Call::Resolve, Call::ResolveNothing];

static ANSWERED: [Call; 4] = [Call::FromCow, Call::Check, Call::Compact, Call::Stream];

static VERIFIED: [Call; 3] = [Call::Verify, Call::Prune, Call::Unneeded];

/// Makes these calls.
pub fn judge(run: &mut Run, alloc: Global, team: &Snapshot) {
    judge_each(run, alloc, team, &READ_AND_WRITTEN);
    merges::judge(run, alloc, team);
    judge_each(run, alloc, team, &RESOLVED);
    copy_signature(run, alloc, team);
    judge_each(run, alloc, team, &ANSWERED);
    answer_line(run, alloc);
    judge_each(run, alloc, team, &VERIFIED);
    suggest_lines(run, alloc);
    run.judge(alloc, Call::PushEntry, &mut Vec::new(alloc));
    run.judge(alloc, Call::PushCount, &mut Vec::new(alloc));
}

fn judge_each(run: &mut Run, alloc: Global, team: &Snapshot, calls: &[Call]) {
    for call in calls {
        run.judge(alloc, *call, &mut Shared(team));
    }
}

// Resolves a signature whose texts are mapped, and copies the answer.
fn copy_signature(run: &mut Run, alloc: Global, team: &Snapshot) {
    if let Some(mut jane) = resolve_jane(run, alloc, team) {
        run.ensure(jane == JANE_DOE.into(), Wrong::Answer(Call::ResolveCow));
        run.judge(alloc, Call::SignatureTryClone, &mut jane);
    }
}

impl Subject for Signature<'_> {
    fn make(&mut self, alloc: Global, _call: Call) -> Result<bool, AllocError> {
        Ok(self.try_clone(alloc)? == *self)
    }
}

/// A stream, and the text that it appends answers to.
#[derive(Drop)]
struct Answering {
    stream: ContactStream,
    text: Vec<u8>,
}

impl Subject for Answering {
    fn make(&mut self, alloc: Global, call: Call) -> Result<bool, AllocError> {
        match call {
            Call::Push => is_pushed(&mut self.stream, &mut self.text),
            Call::FinishLine => is_finished(&mut self.stream, &mut self.text),
            _ => Ok(false),
        }
    }
}

fn is_pushed(stream: &mut ContactStream, text: &mut Vec<u8>) -> Result<bool, AllocError> {
    let _taken = stream.push(b"bob <BUGS@example.com>", text)?;
    Ok(true)
}

fn is_finished(stream: &mut ContactStream, text: &mut Vec<u8>) -> Result<bool, AllocError> {
    stream.finish_line(text)?;
    Ok(true)
}

// Answers a contact when its line ends, also after a refusal.
fn answer_line(run: &mut Run, alloc: Global) {
    if let Some(stream) = open_stream(run, alloc) {
        let mut answering = Answering {
            stream,
            text: Vec::new(alloc),
        };
        run.judge(alloc, Call::Push, &mut answering);
        run.judge(alloc, Call::FinishLine, &mut answering);
        let is_answered = answering.text.as_slice()
            == b"Joe R. Developer <joe@example.com>\n".as_slice();
        run.ensure(is_answered, Wrong::Change(Call::FinishLine));
    }
}

// Suggests lines for contacts, and finds what is to be reported of them.
fn suggest_lines(run: &mut Run, alloc: Global) {
    if let Some(mut contacts) = count_contacts(run, alloc) {
        run.judge(alloc, Call::Suggest, &mut contacts);
        run.judge(alloc, Call::ContactFindings, &mut contacts);
    }
}

impl Subject for Contacts {
    fn make(&mut self, alloc: Global, call: Call) -> Result<bool, AllocError> {
        match call {
            Call::Suggest => is_suggested(alloc, self),
            Call::ContactFindings => has_findings(alloc, self),
            _ => Ok(false),
        }
    }
}

fn is_suggested(alloc: Global, contacts: &Contacts) -> Result<bool, AllocError> {
    let _suggestions = suggest(alloc, &[TEAM, FAULTY], contacts)?;
    Ok(true)
}

fn has_findings(alloc: Global, contacts: &Contacts) -> Result<bool, AllocError> {
    let _findings = contact_findings(alloc, &[TEAM, FAULTY], contacts)?;
    Ok(true)
}

// Writes a suggested line, or a count.
impl Subject for Vec<u8> {
    fn make(&mut self, alloc: Global, call: Call) -> Result<bool, AllocError> {
        match call {
            Call::PushEntry => push_entry(self, &team()[1], true)?,
            Call::PushCount => push_count(self, 12, b"Jane Doe", b"jane@example.com", true)?,
            _ => return Ok(false),
        }
        Ok(true)
    }
}
