//! [Parses][parse()] the `.mailmap` files of git repositories, and maps the names and emails of commit signatures to
//! proper ones.
//!
//! ```text
//! let snapshot = Snapshot::from_bytes(alloc, b"Jane Doe <jane@x> <JD@x>")?;
//! let found = snapshot.try_resolve_ref(SignatureRef { name: b"jd", email: b"jd@X", time: "" });
//! // the name `Jane Doe` and the email `jane@x`
//! ```
//!
//! A [`Snapshot`] has one entry for each key: an old email alone, or an old email with an old name. The case of ASCII
//! letters is ignored. Old emails and old names are stored as they were spelled first.
//!
//! - Entries without an old name are combined field by field: the last new name and the last new email count, each on
//!   its own. `P <a@x>` followed by `<n@y> <a@x>` maps to `P` and `n@y`.
//! - Among entries with the same old name only the last counts, with both of its fields: `P <n@y> Jo <a@x>` followed by
//!   `<m@y> Jo <a@x>` maps `Jo` to the email `m@y`, and leaves the name as it is.
//! - The entries without an old name apply to every name with that email, except for names with an entry of their own.
//!
//! What each function promises is stated in its `ensures`. The definitions are in `specs/`, and [`laws`] states what
//! follows from them.
#![tactic(auto)]

pub mod answers;
pub mod laws;

pub use mailmap_contacts::{counter, occurrences};
pub use mailmap_entries::{Entry, fold};
pub use mailmap_findings::{explain, needs, remarks, verify};
pub use mailmap_grammar::{lines, parse, parse_ignore_errors, parse_strict};
pub use mailmap_snapshot::{Snapshot, actor, check, date, snapshot};
pub use mailmap_suggestions::{suggestions, text};
