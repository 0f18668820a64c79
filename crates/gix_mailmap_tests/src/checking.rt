//! Contacts: how they are answered, parted from mailmaps, and how mailmaps are written as one.
use crate::script::assert_script;

#[test]
fn contacts_are_answered_and_mailmaps_are_written_as_one(rt: HostRuntime) {
    assert_script(
        &rt,
        r#"## contacts are answered, and other lines are kept
# the case of an email doesn't count
check Joe R. Developer <joe@example.com> <bugs@example.com>\n; bob <BUGS@example.com>\n
    Joe R. Developer <joe@example.com>\n
# nor that of an old name
check \nJoe R. Developer <joe@example.com> <bugs@example.com>\nJane Doe <jane@example.com> Jane <bugs@example.com>\n; JANE <Bugs@example.com>
    Jane Doe <jane@example.com>\n
# a line without a contact is kept
check \nJoe R. Developer <joe@example.com> <bugs@example.com>\nJane Doe <jane@example.com> Jane <bugs@example.com>\n; bob <BUGS@example.com>\nnot a contact\n
    Joe R. Developer <joe@example.com>\nnot a contact\n
# later mailmaps replace what earlier ones have
check N <a@x>; M <a@x>; b <A@x>
    M <a@x>\n
check N <n@x> <a@x>; b <A@x>
    N <n@x>\n
# contacts are trimmed, what follows them is no part of them, and an email may be empty
check   Bob  < q@z > rest\r\n<>\n\nopen <x
    Bob <q@z>\n<>\n\nopen <x\n
# a carriage return in front of a line feed is removed
check x\r\ny\r
    x\ny\r\n
# contacts have no comments
check # c <a@x>\n #\n
    # c <a@x>\n #\n
# no contacts
check
    ""
check \nJoe R. Developer <joe@example.com> <bugs@example.com>\nJane Doe <jane@example.com> Jane <bugs@example.com>\n;\x20
    ""
check N <a@x>;\x20
    ""
## the first line of two dashes parts an input
# in front of it is the mailmap
split a\n--\nb
    a\n
    b
# only the first one counts
split a\n--\nb\n--\nc
    a\n
    b\n--\nc
split --
    ""
    ""
split --\r\nx
    ""
    x
# without one all are contacts
split a\n -- \n
    ""
    a\n -- \n
split --\r
    ""
    --\r
split a--\n---\n
    ""
    a--\n---\n
split
    ""
    ""
## mailmaps are written as one
# no mailmap
compact
    ""
# later ones replace what earlier ones have
compact N <a@x>; M <A@x>
     M <a@x>\n
compact  # c <a@x>\nJane <j@x> <>\n<n@y> Bob <A@X>
     Jane <j@x> <>\n # c <a@x>\n <n@y> Bob <a@x>\n
# nothing is mapped
compact plain\n# c <a@x>; <a@x>
    ""
"#,
    );
}
