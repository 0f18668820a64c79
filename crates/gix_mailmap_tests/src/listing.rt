//! What snapshots list, how they compare, and what they are written as.
use crate::script::assert_script;

#[test]
fn snapshots_are_listed_compared_and_written(rt: HostRuntime) {
    assert_script(
        &rt,
        r#"## entries are listed by the old email without case, and for each email the one without an old name first, then by the
## old name
# an empty buffer
from_bytes
iter
    0
entries
    0
# letters count as lower case, so _ comes before all of them
new 1 <Z@x>; 2 <_@x>; 3 <a@x>
iter
    2 <_@x>
    3 <a@x>
    1 <Z@x>
    3
entries
    2 <_@x>
    3 <a@x>
    1 <Z@x>
    3
# an entry without an old name comes before one with an empty old name
new P <x@y>; <n@y> "" <x@y>
entries
    P <x@y>
    <n@y> "" <x@y>
    2
# emails, and their names
new <1@y> Zoe <B@x>; <2@y> _ <b@x>; <3@y> ann <b@x>; P <b@x>; P <a@x>
entries
    P <a@x>
    P <B@x>
    <2@y> _ <B@x>
    <3@y> ann <B@x>
    <1@y> Zoe <B@x>
    5
# the debug text is that of the entries; the text of the error for memory is below it
from_bytes N <a@x>
debug
    [Entry { new_name: Some([78]), new_email: None, old_name: None, old_email: [97, 64, 120] }]
    out of memory
## snapshots are equal by what they list; equals compares with that of other entries, and equal ones hash alike
# whatever came before
new N <a@x>
equals Long <a@x>; N <a@x>
    true
try_clone
equals N <a@x>
    true
# however fields came together
new N1 <A@x>; <e@x> <a@X>
equals N1 <e@x> <A@x>
    true
try_clone
equals N1 <e@x> <A@x>
    true
# some entries may be replaced by what they list
new <n@y> Jane <X@y>; P <x@y>; Q <x@y>; <m@y> JANE <x@Y>; <e@y> <X@Y>
equals <n@y> Jane <X@y>; Q <x@y>; <m@y> JANE <x@y>; <e@y> <X@Y>
    true
# all may come again
new <n@y> Jane <X@y>; P <x@y>; Q <x@y>; <m@y> JANE <x@Y>; <e@y> <X@Y>
equals <n@y> Jane <X@y>; P <x@y>; Q <x@y>; <m@y> JANE <x@Y>; <e@y> <X@Y>; <n@y> Jane <X@y>; P <x@y>; Q <x@y>; <m@y> JANE <x@Y>; <e@y> <X@Y>
    true
try_clone
equals <n@y> Jane <X@y>; P <x@y>; Q <x@y>; <m@y> JANE <x@Y>; <e@y> <X@Y>
    true
# two emails in both orders
new A <a@x>; B <b@x>
equals B <b@x>; A <a@x>
    true
# the first spelling of an email counts
new <n@y> Jane <A@x>; P <a@x>
equals P <a@x>; <n@y> Jane <A@x>
    false
new N <a@x>
equals N <A@x>
    false
# another entry
new N <a@x>
equals N <a@x>; N <b@x>
    false
# the same answers, but another list
new <n@y> <x@y>
equals <n@y> <x@y>; <n@y> Jane <x@y>
    false
# the example of the original
from_bytes \nJoe R. Developer <joe@example.com> <bugs@example.com>\nJane Doe <jane@example.com> Jane <bugs@example.com>\n
equals Joe R. Developer <joe@example.com> <bugs@example.com>; Jane Doe <jane@example.com> Jane <bugs@example.com>
    true
# and the entries that it is parsed as, one by one
numbered 1; \nJoe R. Developer <joe@example.com> <bugs@example.com>\nJane Doe <jane@example.com> Jane <bugs@example.com>\n
    true
equals Joe R. Developer <joe@example.com> <bugs@example.com>; Jane Doe <jane@example.com> Jane <bugs@example.com>
    true
## a snapshot is written if lines can hold its entries; the error counts the entries of the listing from 0
# nothing is written as nothing
write
    ""
from_bytes # c <a@x>\nplain\n<b@x>\n
write
    ""
# what is written is read as the same snapshot again, and written as the same text
from_bytes  # c <a@x>\nJane <j@x> <>\n<n@y> Bob <A@X>
write
     Jane <j@x> <>\n # c <a@x>\n <n@y> Bob <a@x>\n
equals Jane <j@x> <>; # c <a@x>; <n@y> Bob <a@x>
    true
from_bytes  Jane <j@x> <>\n # c <a@x>\n <n@y> Bob <a@x>\n
equals # c <a@x>; Jane <j@x> <>; <n@y> Bob <A@X>
    true
write
     Jane <j@x> <>\n # c <a@x>\n <n@y> Bob <a@x>\n
# brackets in texts
from_bytes a>b <c<d> e>f <g>h<i>
write
     a>b <c<d> e>f <g>\n
from_bytes  a>b <c<d> e>f <g>\n
equals a>b <c<d> e>f <g>
    true
write
     a>b <c<d> e>f <g>\n
from_bytes <n@y> <>
write
     <n@y> <>\n
from_bytes  <n@y> <>\n
equals <n@y> <>
    true
write
     <n@y> <>\n
# by constructors
new <n@y> <>
write
     <n@y> <>\n
new N> <n<@y> > <<>
write
     N> <n<@y> > <<>\n
# the empty email can't be mapped to a name alone
new N <>
write
    entry 0 cannot be written
# nor can an email hold a >, or a line feed, or white space at its end
new <n>y> <b@x>; N <a@x>
write
    entry 1 cannot be written
new N <a\n@x>
write
    entry 0 cannot be written
new N <a@x\xc2\xa0>
write
    entry 0 cannot be written
# nor can a name be empty, or hold a <, or a line feed, or begin with a blank
new "" <a@x>
write
    entry 0 cannot be written
new N< <a@x>
write
    entry 0 cannot be written
new N\nM <a@x>
write
    entry 0 cannot be written
new  N <a@x>
write
    entry 0 cannot be written
new <n@y> "" <a@x>
write
    entry 0 cannot be written
# nor can a new email be empty
new <> <x@y>
write
    entry 0 cannot be written
"#,
    );
}
