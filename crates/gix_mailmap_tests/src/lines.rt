//! Lines of mailmaps, and the entries that they are parsed as.
use crate::script::assert_script;

#[test]
fn a_line_has_an_entry_a_fault_or_nothing(rt: HostRuntime) {
    assert_script(
        &rt,
        r#"## a line has an entry, a fault or nothing; comments and blank lines are counted
# an empty buffer has no line
parse
parse_ignore_errors
# white space around a line is no part of it
parse # c\n\n  Jane <j@x>
    Jane <j@x>
# only a line that begins with # is a comment
parse  # c
    Line 1 does not contain an email (1, # c)
parse # c\n\nplain
    Line 3 does not contain an email (3, plain)
# each fault has the number and the text of its line
parse <a@x>\nJane <a@x\nJane < > <b@x>\nplain
    1: Emails without a name or email to map to are invalid (1, <a@x>)
    2: Missing closing bracket '>' in email (2, Jane <a@x)
    3: Email must not be empty (3, Jane < > <b@x>)
    Line 4 does not contain an email (4, plain)
# an open second email is no second email
parse Jane <a@x> <b
    Jane <a@x>
parse <a@x> <b
    1: Emails without a name or email to map to are invalid (1, <a@x> <b)
parse a>b <a@x> <b
    a>b <a@x>
parse Jane < > <b
    1: Email must not be empty (1, Jane < > <b)
parse Jane <a@x> tail
    Jane <a@x>
# the second email may be empty
parse Jane <a@x> <>
    Jane <a@x> <>
parse <n@x> <a@x>
    <n@x> <a@x>
# the first < and the first > after it count
parse a>b <c<d> e>f <g>h<i>
    a>b <c<d> e>f <g>
# white space of Unicode is trimmed, but not a zero width space, nor bytes that aren't UTF-8
parse \xe3\x80\x80Jane\xc2\xa0 <a@x\xe2\x80\x8b>
    Jane <a@x\xe2\x80\x8b>
parse \xffJ <a@x>
    \xffJ <a@x>
parse J\xa0 <a@x\xe2\xc2\xa0>
    J\xa0 <a@x\xe2>
# carriage returns are trimmed
parse Jane <a@x>\r\n\r\nBob <b@x>\r
    Jane <a@x>
    Bob <b@x>
# the example of the original
parse \nJoe R. Developer <joe@example.com> <bugs@example.com>\nJane Doe <jane@example.com> Jane <bugs@example.com>\n
    Joe R. Developer <joe@example.com> <bugs@example.com>
    Jane Doe <jane@example.com> Jane <bugs@example.com>
parse_ignore_errors \nJoe R. Developer <joe@example.com> <bugs@example.com>\nJane Doe <jane@example.com> Jane <bugs@example.com>\n
    Joe R. Developer <joe@example.com> <bugs@example.com>
    Jane Doe <jane@example.com> Jane <bugs@example.com>
# after a fault the next lines count
parse <a@x>\nJane <j@x>\nplain\nBob <b@x>
    1: Emails without a name or email to map to are invalid (1, <a@x>)
    Jane <j@x>
    Line 3 does not contain an email (3, plain)
    Bob <b@x>
parse_ignore_errors <a@x>\nJane <j@x>\nplain\nBob <b@x>
    Jane <j@x>
    Bob <b@x>
## an open second email is a fault if lines are parsed strictly; in front of it, what parse answers is the same
# the input of the fault is what follows the first email
parse_strict Jane <a@x> <b
    1: Missing closing bracket '>' in second email (1,  <b)
parse_strict a>b <a@x> <b
    1: Missing closing bracket '>' in second email (1,  <b)
# it comes before the fault that there is nothing to map
parse_strict <a@x> <b
    1: Missing closing bracket '>' in second email (1,  <b)
# but an empty email comes before it
parse_strict Jane < > <b
    1: Email must not be empty (1, Jane < > <b)
# text without a bracket is ignored
parse_strict Jane <a@x> tail
    Jane <a@x>
# a written mailmap is read alike
parse_strict  Jane <j@x> <>\n # c <a@x>\n <n@y> Bob <a@x>\n
    Jane <j@x> <>
    # c <a@x>
    <n@y> Bob <a@x>
parse  Jane <j@x> <>\n # c <a@x>\n <n@y> Bob <a@x>\n
    Jane <j@x> <>
    # c <a@x>
    <n@y> Bob <a@x>
# the next lines count
parse_strict # c\n<a@x>\nJane <a@x> <b\nplain\n\nJane <a@x\nBob <b@x>
    2: Emails without a name or email to map to are invalid (2, <a@x>)
    3: Missing closing bracket '>' in second email (3,  <b)
    Line 4 does not contain an email (4, plain)
    6: Missing closing bracket '>' in email (6, Jane <a@x)
    Bob <b@x>
parse # c\n<a@x>\nJane <a@x> <b\nplain\n\nJane <a@x\nBob <b@x>
    2: Emails without a name or email to map to are invalid (2, <a@x>)
    Jane <a@x>
    Line 4 does not contain an email (4, plain)
    6: Missing closing bracket '>' in email (6, Jane <a@x)
    Bob <b@x>
## a line may be any byte, be long and end anywhere
# all other bytes have the fault for a line without an email
bytes
    9
    10
    11
    12
    13
    32
    35
    60
    1: Missing closing bracket '>' in email (1, <)
# a line of 100,000 brackets has one fault
brackets
    true
# a line may end anywhere: each front is parsed, and then strictly
parse
parse_strict
parse J
    Line 1 does not contain an email (1, J)
parse_strict J
    Line 1 does not contain an email (1, J)
parse Ja
    Line 1 does not contain an email (1, Ja)
parse_strict Ja
    Line 1 does not contain an email (1, Ja)
parse Jan
    Line 1 does not contain an email (1, Jan)
parse_strict Jan
    Line 1 does not contain an email (1, Jan)
parse Jane
    Line 1 does not contain an email (1, Jane)
parse_strict Jane
    Line 1 does not contain an email (1, Jane)
parse Jane\x20
    Line 1 does not contain an email (1, Jane)
parse_strict Jane\x20
    Line 1 does not contain an email (1, Jane)
parse Jane <
    1: Missing closing bracket '>' in email (1, Jane <)
parse_strict Jane <
    1: Missing closing bracket '>' in email (1, Jane <)
parse Jane <a
    1: Missing closing bracket '>' in email (1, Jane <a)
parse_strict Jane <a
    1: Missing closing bracket '>' in email (1, Jane <a)
parse Jane <a@
    1: Missing closing bracket '>' in email (1, Jane <a@)
parse_strict Jane <a@
    1: Missing closing bracket '>' in email (1, Jane <a@)
parse Jane <a@x
    1: Missing closing bracket '>' in email (1, Jane <a@x)
parse_strict Jane <a@x
    1: Missing closing bracket '>' in email (1, Jane <a@x)
parse Jane <a@x>
    Jane <a@x>
parse_strict Jane <a@x>
    Jane <a@x>
parse Jane <a@x>\x20
    Jane <a@x>
parse_strict Jane <a@x>\x20
    Jane <a@x>
parse Jane <a@x> B
    Jane <a@x>
parse_strict Jane <a@x> B
    Jane <a@x>
parse Jane <a@x> Bo
    Jane <a@x>
parse_strict Jane <a@x> Bo
    Jane <a@x>
parse Jane <a@x> Bob
    Jane <a@x>
parse_strict Jane <a@x> Bob
    Jane <a@x>
parse Jane <a@x> Bob\x20
    Jane <a@x>
parse_strict Jane <a@x> Bob\x20
    Jane <a@x>
parse Jane <a@x> Bob <
    Jane <a@x>
parse_strict Jane <a@x> Bob <
    1: Missing closing bracket '>' in second email (1,  Bob <)
parse Jane <a@x> Bob <b
    Jane <a@x>
parse_strict Jane <a@x> Bob <b
    1: Missing closing bracket '>' in second email (1,  Bob <b)
parse Jane <a@x> Bob <b@
    Jane <a@x>
parse_strict Jane <a@x> Bob <b@
    1: Missing closing bracket '>' in second email (1,  Bob <b@)
parse Jane <a@x> Bob <b@x
    Jane <a@x>
parse_strict Jane <a@x> Bob <b@x
    1: Missing closing bracket '>' in second email (1,  Bob <b@x)
parse Jane <a@x> Bob <b@x>
    Jane <a@x> Bob <b@x>
parse_strict Jane <a@x> Bob <b@x>
    Jane <a@x> Bob <b@x>
"#,
    );
}
