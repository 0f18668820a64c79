//! Laws about the definitions. These functions do nothing: each states its law in its contract.

pub use mailmap_contacts::laws::{law_line_feeds, law_tallied, law_trimmed};
pub use mailmap_entries::laws::{law_entries, law_order, law_order_without_case};
pub use mailmap_entries::semantics::{
    law_condense, law_equal, law_exists, law_headline, law_neighbours, law_of_email, law_one_email,
    law_own_entries, law_reorder, law_repeated, law_scan, law_self, law_shortest, law_unique,
};
pub use mailmap_findings::laws::{
    law_contacts_stay, law_deleted, law_deleted_texts, law_equal_contacts, law_equal_explanations,
    law_equal_findings, law_equal_git_readings, law_equal_kinds, law_equal_remarks, law_ignored,
    law_in_order, law_none_left, law_one_answer, law_one_unneeded, law_pruned, law_pruned_findings,
    law_pruned_for_git, law_whole_lines,
};
pub use mailmap_grammar::laws::{
    law_cut, law_equal_faults, law_pieces, law_reading, law_strict_reading, law_trim,
};
pub use mailmap_redundancy::laws::{
    law_each_key_stays, law_equal_positions, law_needed, law_none_can_go, law_origins, law_passes,
    law_same_listing, law_some_stay, law_stable,
};
pub use mailmap_snapshot::laws::{
    law_equal_commit_signatures, law_equal_signatures, law_equal_times, law_equal_write_errors,
    law_lines, law_parts, law_stream, law_strict, law_text, law_time,
};
pub use mailmap_suggestions::laws::{
    law_each_needed, law_exact, law_linked, law_no_zero, law_none_remembered, law_others_stay,
    law_proper_answer, law_read_alike, law_selected, law_suggested_lines, law_suggested_text,
    law_suggestions, law_text_after,
};
