//! Times calls of gix_mailmap on mailmaps in files, to compare them with the same calls of peers.
#![tactic(auto)]

mod input;
mod modes;

use anyhow::Result;
use std::env;

const USAGE: &str = "\
usage: mailmap_bench MODE ARGS
    bench-parse FILE [N]             walks over the items of FILE, N times
    bench-build FILE [N]             builds the snapshot of FILE, N times
    bench-lookup FILE CONTACTS [N]   looks each line of CONTACTS up, N times
    bench-answer FILE CONTACTS [N]   the same, and reads the name and the email that stand in the end
    bench-check FILE CONTACTS [N]    answers each line of CONTACTS, N times
    bench-compact FILE [N]           writes the canonical text of FILE, N times
    bench-merge1 FILE                merges the entries of FILE one by one
    bench-merge FILE K               merges the entries of FILE in batches of K
    bench-merge-last FILE N          merges the last N entries of FILE one by one into the snapshot of the others
Each prints one line: the nanoseconds of the quickest time and of the middle one, and what was counted.
";

fn main(rt: HostRuntime) -> Result<()> {
    let words: Vec<String> = env::args(&rt)?.collect(rt.alloc())?;
    let [_, mode, words @ ..] = words.as_slice() else {
        return Ok(print!(rt; "{USAGE}")?);
    };
    let mut laps = Vec::new(rt.alloc());
    let counts = modes::measure(&rt, mode, words, &mut laps)?;
    laps.sort_unstable();
    let least = laps.first().copied().unwrap_or(0);
    let median = laps.get(laps.len() / 2).copied().unwrap_or(0);
    println!(rt; "{mode} min_ns={least} median_ns={median} {counts}")?;
    Ok(())
}
