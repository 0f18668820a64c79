//! The keys that the words of a name make.
ghost use Rattle.std.specs.Prelude.{◌≡◌, ◌||◌, ◌∷◌, ◌++◌, chars, codes, filter, length, map, nat_le, nat_lt};
ghost use Rattle.std.specs.Prelude.{string_bytes, IfOk, OnOk};
ghost use Rattle.std.specs.List.{concat, join_with_byte};
ghost use Rattle.mailmap_names.specs.Keys.{ascending, characters, first_words_of, is_placeholder, keys_of, main_words};
ghost use Rattle.mailmap_names.specs.Keys.{sorted_key, telling_words_of};
ghost use Rattle.mailmap_entries.specs.Texts.{texts};
ghost use Rattle.mailmap_names.specs.Private.{AreSorted, is_longer, main_strings, spaced};

use std::alloc::{AllocError, Global};

const PLACEHOLDERS: [&str; 14] = [
    "root",
    "admin",
    "administrator",
    "unknown",
    "none",
    "nobody",
    "anonymous",
    "user",
    "me",
    "test",
    "ubuntu",
    "debian",
    "localhost",
    "git",
];

/// The keys of a name with these words.
pub(crate) fn keys_of(alloc: Global, words: &[String]) -> Result<Vec<Vec<u8>>, AllocError>
    ensures { IfOk result (λ found. texts found.items ≡ keys_of (characters words.now)) }
{
    let mut keys = Vec::new(alloc);
    let together = together(alloc, words)?;
    if is_nobody(together.as_str()) {
        return Ok(keys);
    }
    keys.push(sorted_key(alloc, words)?)?;
    keys.push(key(alloc, b't', together.as_bytes())?)?;
    Ok(keys)
}

/// The keys that the first of several words alone would make.
pub(crate) fn first_words_of(alloc: Global, words: &[String]) -> Result<Vec<Vec<u8>>, AllocError>
    ensures { IfOk result (λ found. texts found.items ≡ first_words_of (characters words.now)) }
{
    let mut keys = Vec::new(alloc);
    if words.len() < 2 {
        return Ok(keys);
    }
    keys.push(key(alloc, b'w', words[0].as_bytes())?)?;
    keys.push(key(alloc, b't', words[0].as_bytes())?)?;
    Ok(keys)
}

/// A text after the byte that says what it is.
pub(crate) fn key(alloc: Global, kind: u8, text: &[u8]) -> Result<Vec<u8>, AllocError>
    ensures { IfOk result (λ found. found.items ≡ kind ∷ text.now) }
{
    let mut key = Vec::with_capacity(alloc, text.len().saturating_add(1))?;
    key.push(kind)?;
    key.extend_from_slice(text)?;
    Ok(key)
}

fn char_count(text: &str) -> usize
    ensures { result ≡ length (chars text.now) }
{
    text.chars().count()
}

fn sorted_key(alloc: Global, words: &[String]) -> Result<Vec<u8>, AllocError>
    ensures { IfOk result (λ found. found.items ≡ sorted_key (main_words (characters words.now))) }
{
    let mut main = main_words(alloc, words)?;
    main.sort()?;
    joined(alloc, &main)
}

/// `w` and the words with a space between them.
fn joined(alloc: Global, words: &[&String]) -> Result<Vec<u8>, AllocError>
    ensures { IfOk result
        (λ found. found.items ≡ codes "w" ++ join_with_byte 32 (map (λ w. string_bytes w.now) words.now)) }
{
    let [first, rest @ ..] = words else {
        return key(alloc, b'w', b"");
    };
    let mut joined = key(alloc, b'w', first.as_bytes())?;
    push_spaced(&mut joined, rest)?;
    Ok(joined)
}

fn push_spaced(text: &mut Vec<u8>, words: &[&String]) -> Result<(), AllocError>
    ensures { OnOk result (text.new.items ≡ text.old.items ++ spaced (map (λ w. string_bytes w.now) words.now)) }
{
    for word in words {
        text.push(b' ')?;
        text.extend_from_slice(word.as_bytes())?;
    }
    Ok(())
}

/// The words without those of one character, if at least two others stay.
fn main_words<'w>(alloc: Global, words: &'w [String]) -> Result<Vec<&'w String>, AllocError>
    ensures { IfOk result (λ found. map (λ w. w.now) found.items ≡ main_strings words.now) }
{
    let long = long_words(alloc, words)?;
    if long.len() >= 2 {
        return Ok(long);
    }
    words.iter().collect(alloc)
}

fn long_words<'w>(alloc: Global, words: &'w [String]) -> Result<Vec<&'w String>, AllocError>
    ensures { IfOk result (λ found. map (λ w. w.now) found.items ≡ filter (is_longer 1) words.now) }
{
    words
        .iter()
        .filter(|word| char_count(word.as_str()) > 1)
        .collect(alloc)
}

/// The words of at least three characters, in ascending order.
pub(crate) fn telling_words_of(alloc: Global, words: &[String]) -> Result<Vec<Vec<u8>>, AllocError>
    ensures is { IfOk result (λ found. texts found.items ≡ ascending (telling_words_of (characters words.now))) }
    ensures sorted { IfOk result (λ found. AreSorted found.items) }
{
    let mut telling = copies(alloc, &longer_words(alloc, words)?)?;
    telling.sort()?;
    Ok(telling)
}

fn longer_words<'w>(alloc: Global, words: &'w [String]) -> Result<Vec<&'w String>, AllocError>
    ensures { IfOk result (λ found. map (λ w. w.now) found.items
        ≡ filter (λ w. nat_le 3 (length (chars (string_bytes w)))) words.now) }
{
    words
        .iter()
        .filter(|word| char_count(word.as_str()) >= 3)
        .collect(alloc)
}

fn copies(alloc: Global, words: &[&String]) -> Result<Vec<Vec<u8>>, AllocError>
    ensures { IfOk result (λ found. texts found.items ≡ map (λ w. string_bytes w.now) words.now) }
{
    let mut found = Vec::new(alloc);
    for word in words {
        found.push(Vec::from_slice(alloc, word.as_bytes())?)?;
    }
    Ok(found)
}

fn together(alloc: Global, words: &[String]) -> Result<String, AllocError>
    ensures { IfOk result (λ found. chars (string_bytes found) ≡ concat (characters words.now)) }
{
    let mut together = String::new(alloc);
    for word in words {
        together.push_str(word.as_str())?;
    }
    Ok(together)
}

/// Whether a name whose words are these, put together, says nothing of a person.
fn is_nobody(together: &str) -> bool
    ensures { result ≡ (nat_lt (length (chars together.now)) 3 || is_placeholder together.now) }
{
    char_count(together) < 3 || is_placeholder(together)
}

#[tactic(auto, unfolding(crate::specs::Keys::is_placeholder))]
fn is_placeholder(together: &str) -> bool
    ensures { result ≡ is_placeholder together.now }
{
    let placeholders: [&str; 14] = PLACEHOLDERS;
    placeholders.as_slice().contains(&together)
}
