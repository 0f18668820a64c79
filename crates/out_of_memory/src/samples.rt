//! What the calls are given.

use mailmap_entries::Entry;
use mailmap_snapshot::actor::SignatureRef;

/// A mailmap with two mappings of one email: for everybody, and for one name.
pub const TEAM: &[u8] = b"
Joe R. Developer <joe@example.com> <bugs@example.com>
Jane Doe <jane@example.com> Jane <bugs@example.com>
";

/// The entries of that mailmap.
pub fn team() -> [Entry<'static>; 2] {
    let old = b"bugs@example.com";
    [
        Entry::change_name_and_email_by_email(b"Joe R. Developer", b"joe@example.com", old),
        Entry::change_name_and_email_by_name_and_email(
            b"Jane Doe",
            b"jane@example.com",
            b"Jane",
            old,
        ),
    ]
}

/// The text that the snapshot of that mailmap is written as.
pub const WRITTEN: &[u8] = b" Joe R. Developer <joe@example.com> <bugs@example.com>
 Jane Doe <jane@example.com> Jane <bugs@example.com>
";

/// An entry that gives an email a new name.
pub fn name<'a>(new_name: &'a [u8], email: &'a [u8]) -> Entry<'a> {
    Entry::change_name_by_email(new_name, email)
}

/// An entry that gives a name a new email.
pub fn named<'a>(new_email: &'a [u8], old_name: &'a [u8], email: &'a [u8]) -> Entry<'a> {
    Entry::change_email_by_name_and_email(new_email, old_name, email)
}

/// Contact lines, and a line that is no contact.
pub const CONTACTS: &[u8] = b"bob <BUGS@example.com>\nJANE <bugs@example.com>\nnot a contact\n";

/// What that mailmap answers to these lines.
pub const ANSWERS: &[u8] = b"Joe R. Developer <joe@example.com>
Jane Doe <jane@example.com>
not a contact
";

/// The same lines in parts. No part ends more than one line, so a refused allocation is always the first of its call.
pub static PARTS: [&[u8]; 4] = [
    b"bob <BUGS@ex",
    b"ample.com>\n",
    b"JANE <bugs@example.com>\n",
    b"not a contact",
];

/// A mailmap with a finding of each kind.
pub const FAULTY: &[u8] = b"Ann <ann@example.com>
plain
Ann Lee <ann@example.com> # since May
Bob <ann@example.com> <bob@example.com>
Eve < eve@example.com >
";

/// Contacts that share an answer's email or its name, and one that git answers otherwise.
pub static HISTORY: [&[u8]; 4] = [
    b"JANE <bugs@example.com>",
    b"jane <jane@example.com>",
    b"Jane Doe <jd@example.com>",
    b"E <eve@example.com>",
];

/// A signature whose name and email are mapped.
pub const JANE: SignatureRef<'static> = SignatureRef {
    name: b"Jane",
    email: b"bugs@example.com",
    time: "1711398853 +0800",
};

/// What that signature is mapped to.
pub const JANE_DOE: SignatureRef<'static> = SignatureRef {
    name: b"Jane Doe",
    email: b"jane@example.com",
    time: "1711398853 +0800",
};

/// A signature of which nothing is mapped.
pub const NOBODY: SignatureRef<'static> = SignatureRef {
    name: b"Bob",
    email: b"nobody@example.com",
    time: "soon",
};
