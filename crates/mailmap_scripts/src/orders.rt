//! Orders: of texts without case, entries, times and signatures.
use crate::answers::asked_of;
use crate::lines::entry_of;
use crate::script::{Run, cut, push, push_value};
use mailmap_entries::fold::{Steps, cmp_ignore_ascii_case};
use mailmap_snapshot::actor::SignatureRef;
use mailmap_snapshot::date::Time;
use mailmap_snapshot::snapshot::Signature;
use std::hash::{DefaultHasher, Hash, Hasher};

pub fn call(run: &mut Run, word: &str, given: &[u8]) {
    match word {
        "cmp_ignore_ascii_case" => push_compared(run, given),
        "cmp_entries" => push_entry_order(run, given),
        "cmp_times" => push_time_order(run, given),
        "cmp_signatures" => push_signature_order(run, given),
        "time" => push_times(run, given),
        _ => push(&mut run.text, "    no such call\n"),
    }
}

/// Appends how texts compare, the other way round, by [`Steps`], and how many steps that is.
fn push_compared(run: &mut Run, given: &[u8]) {
    let (one, other) = cut(given);
    let mut steps = Steps::new();
    let orders = [
        cmp_ignore_ascii_case(one, other),
        cmp_ignore_ascii_case(other, one),
        steps.compare(one, other),
    ];
    push_value(&mut run.text, &orders);
    push_value(&mut run.text, &steps.count());
}

fn push_entry_order(run: &mut Run, given: &[u8]) {
    let (one, other) = cut(given);
    push_order(&mut run.text, &entry_of(one), &entry_of(other));
}

/// Appends how the times of signatures compare, and whether the signatures are equal, which depends on their texts.
fn push_time_order(run: &mut Run, given: &[u8]) {
    let (one, other) = cut(given);
    let (one, other) = (asked_of(one), asked_of(other));
    push_order(&mut run.text, &one.time(), &other.time());
    push_value(&mut run.text, &(one == other));
}

/// Appends a time as it is read, by itself and in a signature.
fn push_times(run: &mut Run, given: &[u8]) {
    let asked = asked_of(given);
    push_value(&mut run.text, &[Time::read(asked.time), asked.time()]);
}

/// Appends how a signature that is resolved, so that mapped texts are owned, compares with one that isn't.
fn push_signature_order(run: &mut Run, given: &[u8]) {
    let (one, other) = cut(given);
    if let Ok(resolved) = run.snapshot.resolve_cow(run.alloc, asked_of(one)) {
        push_order_with(&mut run.text, &resolved, asked_of(other));
    }
}

fn push_order_with(text: &mut String, resolved: &Signature<'_>, other: SignatureRef<'_>) {
    push_order(text, resolved, &Signature::from(other));
}

/// Appends how values compare. Equal ones have to hash alike.
fn push_order<T: Ord + Hash>(text: &mut String, one: &T, other: &T) {
    let order = one.cmp(other);
    if is_same(one, other) == order.is_eq() {
        push_value(text, &order);
    }
}

/// Whether values are equal and hash alike.
pub fn is_same<T: Eq + Hash>(one: &T, other: &T) -> bool {
    (one == other) & (hash_of(one) == hash_of(other))
}

fn hash_of<T: Hash>(value: &T) -> u64 {
    let mut hasher = DefaultHasher::new();
    value.hash(&mut hasher);
    hasher.finish()
}
