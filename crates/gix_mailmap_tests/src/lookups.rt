//! Lookups: what replaces a name and an email, and how many comparisons they take.
use crate::script::assert_script;

#[test]
fn a_lookup_finds_what_replaces_a_name_and_an_email(rt: HostRuntime) {
    assert_script(
        &rt,
        r#"## the entry of the name counts before that of the email; try_resolve_ref, try_resolve_contact and
## try_resolve_ref_counted find the same
# nothing is known
lookups Bob <a@x>
    nothing
    nothing
    nothing
# the example of the original
new Joe R. Developer <joe@example.com> <bugs@example.com>; Jane Doe <jane@example.com> Jane <bugs@example.com>
lookups Bob <bugs@example.com>
    Joe R. Developer <joe@example.com>
    Joe R. Developer <joe@example.com>
    Joe R. Developer <joe@example.com>
lookups JANE <Bugs@example.com>
    Jane Doe <jane@example.com>
    Jane Doe <jane@example.com>
    Jane Doe <jane@example.com>
lookups Bob <nobody@x>
    nothing
    nothing
    nothing
# an email that is spelled otherwise is mapped to the spelling that is kept
new P <x@y>
lookups Bob <X@y>
    P <x@y>
    P <x@y>
    P <x@y>
lookups Bob <x@y>
    P
    P
    P
# to a new email if there is one
new N1 <A@x>; <e@x> <a@X>
lookups Bob <a@x>
    N1 <e@x>
    N1 <e@x>
    N1 <e@x>
# an entry with the name counts alone
new P <x@y>; <n@y> Jane <x@y>
lookups jane <x@y>
    <n@y>
    <n@y>
    <n@y>
lookups Bob <X@y>
    P <x@y>
    P <x@y>
    P <x@y>
lookups Bob <x@y>
    P
    P
    P
# the spelling that is kept is the first one, whichever entry has it
new <n@y> Jane <A@x>; P <a@x>
lookups Bob <a@x>
    P <A@x>
    P <A@x>
    P <A@x>
new P <a@x>; <n@y> Jane <A@x>
lookups Bob <a@x>
    P
    P
    P
lookups Bob <A@x>
    P <a@x>
    P <a@x>
    P <a@x>
# also if no entry without a name is there
new <n@y> Jane <x@y>
lookups Bob <X@y>
    <x@y>
    <x@y>
    <x@y>
lookups Bob <x@y>
    nothing
    nothing
    nothing
# the last entry of a name counts, also if it has no new name
new Q <n1@y> Jane <x@y>; <n2@y> JANE <X@Y>
lookups Jane <x@y>
    <n2@y>
    <n2@y>
    <n2@y>
lookups Bob <X@Y>
    <x@y>
    <x@y>
    <x@y>
lookups Bob <x@y>
    nothing
    nothing
    nothing
# empty texts are texts as others are
new "" <>
lookups Bob <>
    ""
    ""
    ""
new P <x@y>; <n@y> "" <x@y>
lookups "" <x@y>
    <n@y>
    <n@y>
    <n@y>
new <> <x@y>
lookups Bob <X@y>
    <>
    <>
    <>
## a lookup compares at most once for each binary digit of the number of emails, and of names of the email that is found;
## steps has how often, most_steps the most of all emails that are there
# no emails
steps n <a@x>
    0
# one email
new N <a@x>
steps n <b@x>
    1
steps n <A@x>
    1
# three emails, and four names of the one that is found
new N <a@x>; <1@x> A <b@x>; <2@x> B <b@x>; <3@x> C <b@x>; <4@x> D <b@x>; N <c@x>
steps a <b@x>
    4
steps b <b@x>
    3
steps c <b@x>
    2
steps d <b@x>
    3
steps e <b@x>
    3
steps a <d@x>
    2
# 1,023 emails, and one that isn't known
numbered 1023; N <#@x>
    true
most_steps
    10
steps n <1023@x>
    10
# 1,024 emails, and one that isn't known
numbered 1024; N <#@x>
    true
most_steps
    11
steps n <1024@x>
    10
"#,
    );
}
