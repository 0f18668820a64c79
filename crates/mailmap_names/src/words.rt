//! The words of a name.
ghost use Rattle.std.specs.Prelude.{◌≡◌, ◌≤◌, length, map, chars, string_bytes, true, IfOk};
ghost use Rattle.std.specs.List.{list_all};
ghost use Rattle.caseless.specs.Caseless.{default_case_fold};
ghost use Rattle.mailmap_names.specs.Private.{ascii_runs, is_plain};
ghost use Rattle.mailmap_names.specs.Words.{aside_len, len_to_closing, without_asides, begins_with_via, before_via};
ghost use Rattle.mailmap_names.specs.Words.{is_letter, is_mark, letter, letters, normalized, plain_words, runs};
ghost use Rattle.mailmap_names.specs.Words.{text_words, words};
ghost use Rattle.unicode_normalization.specs.Forms.{nfkd};

use caseless::default_case_fold_str;
use std::alloc::{AllocError, Global};
use std::slice;
use ucd_category::{GeneralCategory, GeneralCategoryGroup};
use unicode_normalization::to_nfkd;

/// The words of a name, in their order: `j`, `muller` and `ii` of `J. Müller II (work) via a list`. A name that isn't
/// UTF-8 has none.
pub fn words_of(alloc: Global, name: &[u8]) -> Result<Vec<String>, AllocError>
    ensures { IfOk result (λ ws. map (λ w. chars (string_bytes w)) ws.items ≡ words name.now) }
{
    if is_plain(name) {
        return ascii_words(alloc, name);
    }
    match str::from_utf8(name) {
        Ok(text) => text_words(alloc, &characters(alloc, text)?),
        Err(_) => Ok(Vec::new(alloc)),
    }
}

/// Whether a name is ASCII, and nothing in it may begin an aside.
fn is_plain(name: &[u8]) -> bool
    ensures { result ≡ list_all is_plain name.now }
{
    name.iter().all(|byte| byte.is_ascii() && !matches!(*byte, b'(' | b'[' | b'"'))
}

/// The words of such a name, without Unicode's tables: most names are so.
fn ascii_words(alloc: Global, name: &[u8]) -> Result<Vec<String>, AllocError>
    requires { list_all is_plain name.now ≡ true }
    ensures { IfOk result (λ ws. map (λ w. chars (string_bytes w)) ws.items ≡ words name.now) }
{
    let found = plain_ascii_words(alloc, before_ascii_via(name))?;
    if found.is_empty() {
        plain_ascii_words(alloc, name)
    } else {
        Ok(found)
    }
}

fn before_ascii_via(text: &[u8]) -> &[u8]
    ensures { result.now ≡ before_via text.now }
{
    for i in 0..text.len() {
        if begins_with_ascii_via(&text[i..]) {
            return &text[..i];
        }
    }
    text
}

fn begins_with_ascii_via(text: &[u8]) -> bool
    ensures { result ≡ begins_with_via text.now }
{
    text[..text.len().min(5)].eq_ignore_ascii_case(b" via ")
}

fn plain_ascii_words(alloc: Global, text: &[u8]) -> Result<Vec<String>, AllocError>
    ensures { list_all is_plain text.now ≡ true
        → IfOk result (λ ws. map (λ w. chars (string_bytes w)) ws.items ≡ plain_words text.now) }
{
    let lower = text.to_ascii_lowercase(alloc)?;
    ascii_texts(alloc, &ascii_runs(alloc, &lower)?)
}

fn ascii_texts(alloc: Global, runs: &[&[u8]]) -> Result<Vec<String>, AllocError>
    ensures { IfOk result (λ ws. map (λ w. chars (string_bytes w)) ws.items ≡ map (λ run. run.now) runs.now) }
{
    let mut found = Vec::with_capacity(alloc, runs.len())?;
    for run in runs {
        found.push(ascii_text(alloc, run)?)?;
    }
    Ok(found)
}

/// The longest runs of letters and digits of ASCII.
fn ascii_runs<'a>(alloc: Global, text: &'a [u8]) -> Result<Vec<&'a [u8]>, AllocError>
    ensures { IfOk result (λ found. map (λ run. run.now) found.items ≡ ascii_runs text.now) }
{
    text.split(|byte| !byte.is_ascii_alphanumeric())
        .filter(|run| !run.is_empty())
        .collect(alloc)
}

fn ascii_text(alloc: Global, text: &[u8]) -> Result<String, AllocError>
    ensures { IfOk result (λ w. chars (string_bytes w) ≡ text.now) }
{
    text.iter().map(|byte| char::from(*byte)).collect(alloc)
}

fn characters(alloc: Global, text: &str) -> Result<Vec<char>, AllocError>
    ensures { IfOk result (λ cs. cs.items ≡ chars text.now) }
{
    text.chars().collect(alloc)
}

fn text_words(alloc: Global, text: &[char]) -> Result<Vec<String>, AllocError>
    ensures { IfOk result (λ ws. map (λ w. chars (string_bytes w)) ws.items ≡ text_words text.now) }
{
    let bare = without_asides(alloc, text)?;
    let found = plain_words(alloc, before_via(&bare))?;
    if found.is_empty() {
        plain_words(alloc, text)
    } else {
        Ok(found)
    }
}

fn without_asides(alloc: Global, text: &[char]) -> Result<Vec<char>, AllocError>
    ensures { IfOk result (λ kept. kept.items ≡ without_asides text.now) }
{
    let mut kept = Vec::new(alloc);
    let mut rest = text;
    while let [c, after @ ..] = rest {
        let skipped = aside_len(*c, after);
        kept.push(if skipped == 0 { *c } else { ' ' })?;
        rest = after.split_at(skipped).1;
    }
    Ok(kept)
}

fn aside_len(c: char, after: &[char]) -> usize
    ensures value { result ≡ aside_len c after.now }
    ensures within { result ≤ length after.now }
{
    match c {
        '(' => len_to_closing('(', ')', after),
        '[' => len_to_closing('[', ']', after),
        '"' => len_to_closing('"', '"', after),
        _ => 0,
    }
}

fn len_to_closing(opening: char, closing: char, after: &[char]) -> usize
    ensures value { result ≡ len_to_closing opening closing after.now }
    ensures within { result ≤ length after.now }
{
    match after.iter().position(|c| *c == opening || *c == closing) {
        Some(end) if after[end] == closing => end + 1,
        _ => 0,
    }
}

fn before_via(text: &[char]) -> &[char]
    ensures { result.now ≡ before_via text.now }
{
    for i in 0..text.len() {
        if begins_with_via(&text[i..]) {
            return &text[..i];
        }
    }
    text
}

fn begins_with_via(text: &[char]) -> bool
    ensures { result ≡ begins_with_via text.now }
{
    match text {
        [before, v, i, a, after, ..] => {
            (*before == ' ')
                & (v.to_ascii_lowercase() == 'v')
                & (i.to_ascii_lowercase() == 'i')
                & (a.to_ascii_lowercase() == 'a')
                & (*after == ' ')
        }
        _ => false,
    }
}

fn plain_words(alloc: Global, text: &[char]) -> Result<Vec<String>, AllocError>
    ensures { IfOk result (λ ws. map (λ w. chars (string_bytes w)) ws.items ≡ plain_words text.now) }
{
    let text = normalized(alloc, &text_of(alloc, text)?)?;
    let letters = letters(alloc, &characters(alloc, &text)?)?;
    texts(alloc, &runs(alloc, &letters)?)
}

fn normalized(alloc: Global, text: &str) -> Result<String, AllocError>
    ensures { IfOk result (λ t. chars (string_bytes t) ≡ normalized (chars text.now)) }
{
    let text = decomposed(alloc, text)?;
    let text = without_case(alloc, &text)?;
    decomposed(alloc, &text)
}

fn decomposed(alloc: Global, text: &str) -> Result<String, AllocError>
    ensures { IfOk result (λ t. chars (string_bytes t) ≡ nfkd (chars text.now)) }
{
    to_nfkd(alloc, text)
}

fn without_case(alloc: Global, text: &str) -> Result<String, AllocError>
    ensures { IfOk result (λ t. chars (string_bytes t) ≡ default_case_fold (chars text.now)) }
{
    default_case_fold_str(alloc, text)
}

fn letters(alloc: Global, text: &[char]) -> Result<Vec<char>, AllocError>
    ensures { IfOk result (λ cs. cs.items ≡ letters text.now) }
{
    let mut found = Vec::new(alloc);
    for c in text {
        found.extend_from_slice(letter(c))?;
    }
    Ok(found)
}

fn letter(c: &char) -> &[char]
    ensures { result.now ≡ letter c.now }
{
    if is_mark(*c) {
        return &[];
    }
    match *c {
        'ø' => &['o'],
        'đ' => &['d'],
        'ð' => &['d'],
        'þ' => &['t', 'h'],
        'ł' => &['l'],
        'ħ' => &['h'],
        'ı' => &['i'],
        'æ' => &['a', 'e'],
        'œ' => &['o', 'e'],
        'ŧ' => &['t'],
        'ŋ' => &['n'],
        _ => slice::from_ref(c),
    }
}

fn is_mark(c: char) -> bool
    ensures { result ≡ is_mark c }
{
    GeneralCategoryGroup::Mark.contains(GeneralCategory::for_char(c))
}

fn is_letter(c: char) -> bool
    ensures { result ≡ is_letter c }
{
    let category = GeneralCategory::for_char(c);
    GeneralCategoryGroup::Letter.contains(category)
        || GeneralCategoryGroup::Number.contains(category)
}

fn runs<'a>(alloc: Global, text: &'a [char]) -> Result<Vec<&'a [char]>, AllocError>
    ensures { IfOk result (λ found. map (λ run. run.now) found.items ≡ runs text.now) }
{
    text.split(|c| !is_letter(*c))
        .filter(|run| !run.is_empty())
        .collect(alloc)
}

fn texts(alloc: Global, runs: &[&[char]]) -> Result<Vec<String>, AllocError>
    ensures { IfOk result (λ ws. map (λ w. chars (string_bytes w)) ws.items ≡ map (λ run. run.now) runs.now) }
{
    let mut found = Vec::new(alloc);
    for run in runs {
        found.push(text_of(alloc, run)?)?;
    }
    Ok(found)
}

fn text_of(alloc: Global, text: &[char]) -> Result<String, AllocError>
    ensures { IfOk result (λ w. chars (string_bytes w) ≡ text.now) }
{
    text.iter().copied().collect(alloc)
}
