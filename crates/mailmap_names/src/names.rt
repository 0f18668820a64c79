//! What names of one person have in common.
ghost use Rattle.std.specs.Prelude.{◌≡◌, ◌++◌, bytes_eq, codes, IfOk, OnOk};
ghost use Rattle.std.specs.List.{list_any};
ghost use Rattle.mailmap_entries.specs.Folding.{folded};
ghost use Rattle.mailmap_names.specs.Keys as spec;
ghost use Rattle.mailmap_names.specs.Keys.{ascending, characters, has_common, is_among};
ghost use Rattle.mailmap_entries.specs.Texts.{texts};
ghost use Rattle.mailmap_names.specs.Logins.{login_keys};
ghost use Rattle.mailmap_names.specs.Private.{AreSorted};
ghost use Rattle.mailmap_names.specs.Words as words_spec;

use crate::keys::{first_words_of, key, keys_of, telling_words_of};
use crate::logins::{is_generic, is_same, login};
use crate::words::words_of;
use std::alloc::{AllocError, Global};

/// A name that is read once, to be compared with others.
#[derive(Drop)]
pub struct Name<'a> {
    pub text: &'a [u8],
    keys: Vec<Vec<u8>>,
    telling: Vec<Vec<u8>>,
    ghost keys_read: { texts keys.items ≡ spec.keys text.now },
    ghost telling_read: { texts telling.items ≡ ascending (spec.telling_words text.now) },
    ghost telling_sorted: { AreSorted telling.items },
}

impl<'a> Name<'a> {
    /// Reads a name. It fails only if memory runs out, as all functions here that allocate.
    #[tactic(auto, unfolding(crate::specs::Keys::keys))]
    pub fn read(alloc: Global, text: &'a [u8]) -> Result<Name<'a>, AllocError>
        ensures { IfOk result (λ name. name.text.now ≡ text.now) }
    {
        let words = words_of(alloc, text)?;
        let keys = keys_of(alloc, &words)?;
        let telling = telling_words_of(alloc, &words)?;
        Ok(Name {
            text,
            keys,
            telling,
        })
    }

    /// Whether two names are alike, or have a word of at least three characters in common.
    #[tactic(auto, unfolding(crate::specs::Keys::is_related))]
    pub fn is_related(&self, other: &Name<'_>) -> bool
        ensures { result ≡ spec.is_related self.now.text.now other.now.text.now }
    {
        self.is_alike(other) || self.has_common_word(other)
    }

    fn is_alike(&self, other: &Name<'_>) -> bool
        ensures { result ≡ has_common (spec.marks self.now.text.now) (spec.marks other.now.text.now) }
    {
        if self.text.is_empty() || other.text.is_empty() {
            return false;
        }
        is_same(other.text, self.text) || has_common(&self.keys, &other.keys)
    }

    fn has_common_word(&self, other: &Name<'_>) -> bool
        ensures { result ≡ has_common (spec.telling_words self.now.text.now) (spec.telling_words other.now.text.now) }
    {
        has_any_word(&self.telling, other)
    }

    /// Whether this is one of the words of at least three characters.
    fn has_word(&self, word: &Vec<u8>) -> bool
        ensures { result ≡ is_among (spec.telling_words self.now.text.now) word.now.items }
    {
        self.telling.binary_search(word).is_ok()
    }
}

/// The keys of a name, two or none: `wdoe jane` and `tjaneqdoe` of `Jane Q. Doe`.
#[tactic(auto, unfolding(crate::specs::Keys::keys))]
pub fn name_keys(alloc: Global, name: &[u8]) -> Result<Vec<Vec<u8>>, AllocError>
    ensures { IfOk result (λ found. texts found.items ≡ spec.keys name.now) }
{
    keys_of(alloc, &words_of(alloc, name)?)
}

/// What alike names have in common with this one: three texts at most, and none if it is empty.
///
/// For `Jane Q. Doe` these are `njane q. doe` and the keys.
pub fn name_marks(alloc: Global, name: &[u8]) -> Result<Vec<Vec<u8>>, AllocError>
    ensures { IfOk result (λ found. texts found.items ≡ spec.marks name.now) }
{
    if name.is_empty() {
        return Ok(Vec::new(alloc));
    }
    let mut marks = name_keys(alloc, name)?;
    marks.insert(0, name_mark(alloc, name)?)?;
    Ok(marks)
}

/// The two keys that the first word of a name alone would make, if there are two or more words: `wjane` and `tjane` for
/// `Jane Doe`.
#[tactic(auto, unfolding(crate::specs::Keys::first_words))]
pub fn first_words(alloc: Global, name: &[u8]) -> Result<Vec<Vec<u8>>, AllocError>
    ensures { IfOk result (λ found. texts found.items ≡ spec.first_words name.now) }
{
    first_words_of(alloc, &words_of(alloc, name)?)
}

/// The mark of the names that are equal but for case.
fn name_mark(alloc: Global, name: &[u8]) -> Result<Vec<u8>, AllocError>
    ensures { IfOk result (λ found. found.items ≡ codes "n" ++ folded name.now) }
{
    let mut mark = key(alloc, b'n', name)?;
    mark.make_ascii_lowercase();
    Ok(mark)
}

fn has_common(texts: &[Vec<u8>], others: &[Vec<u8>]) -> bool
    ensures { result ≡ list_any (λ t. list_any (λ y. bytes_eq y.items t.items) others.now) texts.now }
{
    texts.iter().any(|text| others.contains(text))
}

fn has_any_word(words: &[Vec<u8>], name: &Name<'_>) -> bool
    ensures { result ≡ list_any (λ w. is_among (spec.telling_words name.now.text.now) w.items) words.now }
{
    words.iter().any(|word| name.has_word(word))
}

/// The keys of the login of an email, as those of a name. There are none if many people have that login, as `info`.
#[tactic(auto, unfolding(crate::specs::Logins::login_keys, crate::specs::Keys::keys))]
pub fn login_keys(alloc: Global, email: &[u8]) -> Result<Vec<Vec<u8>>, AllocError>
    ensures { IfOk result (λ found. texts found.items ≡ login_keys email.now) }
{
    let login = login(email);
    if is_generic(login) {
        return Ok(Vec::new(alloc));
    }
    keys_of(alloc, &words_of(alloc, login)?)
}
