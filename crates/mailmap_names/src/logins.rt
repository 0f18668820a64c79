//! The login of an email, which may be the name of its owner.
ghost use Rattle.std.specs.Prelude.{◌≡◌, bytes_eq};
ghost use Rattle.std.specs.Char.{is_ascii_digit};
ghost use Rattle.std.specs.List.{after_last, list_any, prefix_len};
ghost use Rattle.mailmap_entries.specs.Folding.{folded};
ghost use Rattle.mailmap_names.specs.Logins.{has_plus_after, is_at, is_generic, is_github, local_part, login};
ghost use Rattle.mailmap_names.specs.Logins.{without_number, without_tag};

use bstr::ByteSlice;

// Logins that many people have. `hi` and those that are placeholders of names, too, make no keys anyway: they are here so
// that the list is whole.
const GENERIC_LOGINS: [&[u8]; 31] = [
    b"root",
    b"admin",
    b"administrator",
    b"info",
    b"mail",
    b"me",
    b"git",
    b"github",
    b"contact",
    b"dev",
    b"devel",
    b"noreply",
    b"no-reply",
    b"hello",
    b"user",
    b"unknown",
    b"none",
    b"nobody",
    b"webmaster",
    b"postmaster",
    b"devnull",
    b"anonymous",
    b"support",
    b"test",
    b"linux",
    b"email",
    b"web",
    b"home",
    b"office",
    b"hi",
    b"code",
];

/// The login of an email: what is before its last `@`, without what may change from one email of a person to another.
///
/// That is a tag, as in `jane+lists@example.com`, and the number that GitHub puts before a login, as in
/// `12345+jane@users.noreply.github.com`. The login of both is `jane`.
#[tactic(auto, unfolding(crate::specs::Logins::login))]
pub fn login<'a>(email: &'a [u8]) -> &'a [u8]
    ensures { result.now ≡ login email.now }
{
    let local = local_part(email);
    if is_github(email) {
        without_tag(without_number(local))
    } else {
        without_tag(local)
    }
}

fn local_part(email: &[u8]) -> &[u8]
    ensures { result.now ≡ local_part email.now }
{
    match email.rfind_byte(b'@') {
        Some(at) => &email[..at],
        None => email,
    }
}

fn is_github(email: &[u8]) -> bool
    ensures { result ≡ is_github email.now }
{
    is_same(domain(email), b"users.noreply.github.com")
}

/// What is after the last `@`, all if there is none.
fn domain(email: &[u8]) -> &[u8]
    ensures { result.now ≡ after_last is_at email.now }
{
    match email.rfind_byte(b'@') {
        Some(at) => &email[at + 1..],
        None => email,
    }
}

fn without_number(local: &[u8]) -> &[u8]
    ensures { result.now ≡ without_number local.now }
{
    let digits = digit_count(local);
    if has_plus_after(digits, local) {
        &local[digits + 1..]
    } else {
        local
    }
}

/// How many digits a text begins with.
fn digit_count(text: &[u8]) -> usize
    ensures { result ≡ prefix_len is_ascii_digit text.now }
{
    text.iter().take_while(|byte| byte.is_ascii_digit()).count()
}

fn has_plus_after(count: usize, text: &[u8]) -> bool
    ensures { result ≡ has_plus_after count text.now }
{
    count > 0 && count < text.len() && text[count] == b'+'
}

fn without_tag(local: &[u8]) -> &[u8]
    ensures { result.now ≡ without_tag local.now }
{
    let [_, rest @ ..] = local else { return local };
    match rest.find_byte(b'+') {
        Some(plus) => &local[..plus + 1],
        None => local,
    }
}

/// Whether many people have this login, as `info`.
#[tactic(auto, unfolding(crate::specs::Logins::is_generic))]
pub(crate) fn is_generic(login: &[u8]) -> bool
    ensures { result ≡ is_generic login.now }
{
    let generic: [&[u8]; 31] = GENERIC_LOGINS;
    is_any(generic.as_slice(), login)
}

fn is_any(texts: &[&[u8]], text: &[u8]) -> bool
    ensures { result ≡ list_any (λ t. bytes_eq (folded t.now) (folded text.now)) texts.now }
{
    texts.iter().any(|t| is_same(t, text))
}

pub(crate) fn is_same(a: &[u8], b: &[u8]) -> bool
    ensures { result ≡ bytes_eq (folded a.now) (folded b.now) }
{
    a.eq_ignore_ascii_case(b)
}
