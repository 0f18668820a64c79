//! The cache of answers. Contracts say that it holds no wrong answer, but not which lines it keeps.
use mailmap_grammar::cache::{AnswerCache, ROWS};
use mailmap_grammar::hashing::hash_of;
use std::alloc::AllocError;

/// A line is to be cached when it is missed for the second time, and is found from then on. If as many lines are cached as
/// there are rows, a few lose theirs to others.
#[test]
fn lines_that_come_again_are_kept(rt: HostRuntime) -> Result<(), AllocError> {
    let mut cache = AnswerCache::new(rt.alloc())?;
    let is_noted = !is_missed_again(&mut cache) & is_missed_again(&mut cache);
    assert!(rt; is_noted & (found(&mut cache) > ROWS - ROWS / 10));
    Ok(())
}

fn is_missed_again(cache: &mut AnswerCache) -> bool {
    let line = b"jane <JANE@x>\n";
    let hash = hash_of(line);
    cache.get(hash, line).is_none() & cache.note_miss(hash)
}

/// How many lines, the bytes of numbers, are found after as many are cached as there are rows.
fn found(cache: &mut AnswerCache) -> usize {
    let mut count: usize = 0;
    for number in 0..2 * ROWS {
        let line = (number % ROWS).to_be_bytes();
        let hash = hash_of(&line);
        if number < ROWS {
            cache.insert(hash, &line, b"");
        } else if cache.get(hash, &line).is_some() {
            count = count.saturating_add(1);
        }
    }
    count
}
