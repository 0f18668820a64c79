//! Snapshots: how they are made and changed.
use crate::script::assert_script;

#[test]
fn later_entries_replace_what_earlier_ones_have(rt: HostRuntime) {
    assert_script(
        &rt,
        r#"## new merges entries at once, and merge into what is there
# nothing is merged
new
entries
    0
new <>
entries
    0
merge <>
    Ok(())
entries
    0
new N <a@x>; <>
entries
    N <a@x>
    1
merge <>
    Ok(())
entries
    N <a@x>
    1
# fields are combined, and the old email is spelled as in the first entry
new N1 <A@x>; <e@x> <a@X>
entries
    N1 <e@x> <A@x>
    1
new N1 <A@x>
merge <e@x> <a@X>
    Ok(())
equals N1 <A@x>; <e@x> <a@X>
    true
# also if that one has an old name
new <n@y> Jane <A@x>; P <a@x>
entries
    P <A@x>
    <n@y> Jane <A@x>
    2
# or the other one
new P <a@x>; <n@y> Jane <A@x>
entries
    P <a@x>
    <n@y> Jane <a@x>
    2
# of an old name the last entry counts, also if it has no new name, but its spelling is that of the first
new Q <n1@y> Jane <x@y>; <n2@y> JANE <X@Y>
entries
    <n2@y> Jane <x@y>
    1
# the example in the documentation of the original: entries are collected unless there is a fault
collect \nJoe R. Developer <joe@example.com> <bugs@example.com>\nJane Doe <jane@example.com> Jane <bugs@example.com>\n
equals Joe R. Developer <joe@example.com> <bugs@example.com>; Jane Doe <jane@example.com> Jane <bugs@example.com>
    true
collect N <a@x>
collect M <a@x>\nplain
equals N <a@x>
    true
# three entries, and then five with these in them
new P <x@y>; Q <x@y>; <m@y> JANE <x@Y>
entries
    Q <x@y>
    <m@y> JANE <x@y>
    2
#
new <n@y> Jane <X@y>; P <x@y>; Q <x@y>; <m@y> JANE <x@Y>; <e@y> <X@Y>
entries
    Q <e@y> <X@y>
    <m@y> Jane <X@y>
    2
# old names go where they belong
new A <a@x>; <e1@y> Bob <b@x>; <e2@y> Jane <b@x>; C <c@x>; <e3@y> Zoe <a@x>; <e4@y> BOB <B@x>
entries
    A <a@x>
    <e3@y> Zoe <a@x>
    <e4@y> Bob <b@x>
    <e2@y> Jane <b@x>
    C <c@x>
    5
# an email that has names only
new <n@y> Jane <x@y>
entries
    <n@y> Jane <x@y>
    1
# a name that answers as its email does
new <n@y> Jane <x@y>; <n@y> <x@y>
entries
    <n@y> <x@y>
    <n@y> Jane <x@y>
    2
# an empty old name
new <n@y> "" <x@y>; P <x@y>
entries
    P <x@y>
    <n@y> "" <x@y>
    2
# four entries when the snapshot is made, and two later
new A <a@x>; <e1@y> Bob <b@x>; <e2@y> Jane <b@x>; C <c@x>
merge <e3@y> Zoe <a@x>; <e4@y> BOB <B@x>
    Ok(())
entries
    A <a@x>
    <e3@y> Zoe <a@x>
    <e4@y> Bob <b@x>
    <e2@y> Jane <b@x>
    C <c@x>
    5
## many spellings are one, and what is replaced is forgotten; numbered lines have letters in the other case, too, and
## are merged one by one, which makes the same as at once
# all spellings of an email
numbered 4096; # <abcdefghijkl>
    true
entries
    4095 <abcdefghijkl>
    1
# in the other direction
backwards 4096; # <abcdefghijkl>
    true
entries
    0 <ABCDEFGHIJKL>
    1
# all spellings of a name
numbered 4096; <n#> abcdefghijkl <K@x>
    true
entries
    <n4095> abcdefghijkl <K@x>
    1
# a thousand replaced names leave no trace in what is compared, hashed, copied and listed
repeated 1000; Long <a@x>\nN <a@x>
    true
equals N <a@x>
    true
try_clone
entries
    N <a@x>
    1
## sources are merged in turn; merge_sources has the buffers N <a@x>, an empty one and M <a@x>, and the entry
## <n@y> <B@x>, and says which of them were merged
# a source without an entry counts as merged
merge_sources
    [true, true, true, true]
iter
    M <a@x>
    <n@y> <B@x>
    2
# one by one
merge_source N <a@x>
    Ok(())
merge_source
    Ok(())
merge_source M <a@x>
    Ok(())
iter
    M <a@x>
    1
"#,
    );
}
