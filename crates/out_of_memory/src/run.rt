//! The state of a run, in which at most one allocation is refused, and what no call may do.

use crate::call::Call;
use std::alloc::{AllocError, Global};
use std::fmt;

/// What a call did wrong.
#[derive(Clone, Copy)]
pub enum Wrong {
    /// An out-of-memory error, though none of the call's allocations was refused.
    Want(Call),
    /// Another answer than with ample memory.
    Answer(Call),
    /// A call left something wrong. A refused one must leave all as it was.
    Change(Call),
}

/// What a run has seen so far.
#[derive(Drop)]
pub struct Run {
    // the call that was refused, if any
    refused: Option<Call>,
    // what went wrong first, if anything did
    wrong: Option<Wrong>,
}

impl Run {
    pub fn new() -> Run {
        Run {
            refused: None,
            wrong: None,
        }
    }

    pub fn is_right(&self) -> bool {
        self.wrong.is_none()
    }

    /// Records what went wrong, unless something has to hold and does. Only the first of a run is kept.
    pub fn ensure(&mut self, holds: bool, wrong: Wrong) {
        if !holds && self.wrong.is_none() {
            self.wrong = Some(wrong);
        }
    }

    /// Records a call that ran out of memory. A second one in a run is wrong, since only one allocation is refused.
    pub fn refuse(&mut self, call: Call) {
        let is_first = self.refused.replace(call).is_none();
        self.ensure(is_first, Wrong::Want(call));
    }

    /// What a call made that ran out of memory at first, and is repeated. It must have succeeded.
    pub fn repeated<T: Drop>(&mut self, call: Call, made: Result<T, AllocError>) -> Option<T> {
        self.refuse(call);
        self.ensure(made.is_ok(), Wrong::Want(call));
        made.ok()
    }

    /// Makes a call, and repeats it if it ran out of memory. It must then succeed, and answer what it does with ample
    /// memory.
    pub fn judge<T: Subject>(&mut self, alloc: Global, call: Call, subject: &mut T) {
        let answer = match subject.make(alloc, call) {
            Ok(is_right) => Some(is_right),
            Err(_) => self.repeated(call, subject.make(alloc, call)),
        };
        self.ensure(answer != Some(false), Wrong::Answer(call));
    }
}

/// What some calls are made on.
pub trait Subject {
    /// Makes one of these calls. Says whether it answers what it does with ample memory; any other call does not.
    fn make(&mut self, alloc: Global, call: Call) -> Result<bool, AllocError>;
}

/// An allocation of this program itself.
#[derive(Clone, Copy)]
pub struct Request;

impl Subject for Request {
    fn make(&mut self, alloc: Global, _call: Call) -> Result<bool, AllocError> {
        let _one = Vec::<u8>::with_capacity(alloc, 1)?;
        Ok(true)
    }
}

impl fmt::Display for Run {
    fn fmt<W: fmt::Write>(&self, f: &mut fmt::Formatter<W>) -> fmt::Result {
        match (self.wrong, self.refused) {
            (Some(Wrong::Want(call)), _) => {
                write!(f, "{call:?}: out of memory, but no request was refused")
            }
            (Some(Wrong::Answer(call)), _) => {
                write!(
                    f,
                    "{call:?}: answered something else than with ample memory"
                )
            }
            (Some(Wrong::Change(call)), _) => {
                write!(f, "{call:?}: left something else than it should")
            }
            (None, Some(call)) => write!(f, "refused: {call:?}"),
            (None, None) => write!(f, "refused: nothing"),
        }
    }
}
