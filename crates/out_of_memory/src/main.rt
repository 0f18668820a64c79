//! Makes each call of gix_mailmap once, in a run in which at most one allocation is refused. A call must succeed, or
//! report that memory ran out and succeed when it is repeated. Calls that read, copy, resolve, answer or write must
//! then answer what they do with ample memory; contracts say that of all of them. What refused merges and lines leave
//! is looked at, too. Only this program shows that each call of the library for Rattle succeeds if there is memory, and
//! that a refused one can be repeated.
//!
//! Prints which call was refused, with status 0, or what a call did wrong first, with status 1.
#![tactic(auto)]

mod answered;
mod call;
mod merges;
mod refusable;
mod run;
mod samples;
mod unrefusable;
mod values;

use call::Call;
use run::{Request, Run};
use samples::team;
use std::alloc::Global;
use std::process::ExitCode;
use values::build;

fn main(rt: HostRuntime) -> ExitCode {
    let mut run = Run::new();
    walk(&mut run, rt.alloc());
    if println!(rt; "{run}").is_err() {
        ExitCode::from(2)
    } else if run.is_right() {
        ExitCode::SUCCESS
    } else {
        ExitCode::FAILURE
    }
}

// Makes all calls.
fn walk(run: &mut Run, alloc: Global) {
    let Some(team) = build(run, alloc, &team()) else {
        return;
    };
    refusable::judge(run, alloc, &team);
    unrefusable::judge(run, alloc, &team);
    run.judge(alloc, Call::AfterAll, &mut Request);
}
