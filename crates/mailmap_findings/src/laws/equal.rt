//! Laws about equality. These functions do nothing: each states its law in its contract.
ghost use Rattle.std.specs.Prelude.{◌≡◌, ◌↔◌, true};
ghost use Rattle.mailmap_findings.specs.Explanations.{explained, explained_by};
ghost use Rattle.mailmap_findings.specs.Findings.{contact_of, finding_of, kind_of};
ghost use Rattle.mailmap_findings.specs.Git.{git_reading_of};
ghost use Rattle.mailmap_findings.specs.Remarks.{remark_of};
ghost use Rattle.mailmap_findings.specs.declared.explain.Explanation as the_explanation;
ghost use Rattle.mailmap_findings.specs.declared.explain.Needed as the_needed;
ghost use Rattle.mailmap_findings.specs.declared.git.GitReading as the_reading;
ghost use Rattle.mailmap_findings.specs.declared.remarks.Remark as the_remark;
ghost use Rattle.mailmap_findings.specs.declared.verify.Contact as the_contact;
ghost use Rattle.mailmap_findings.specs.declared.verify.Finding as the_finding;
ghost use Rattle.mailmap_findings.specs.declared.verify.FindingKind as the_kind;

use crate::explain::{Explanation, Needed};
use crate::git::GitReading;
use crate::remarks::Remark;
use crate::verify::{Contact, Finding, FindingKind};
use mailmap_redundancy::laws::law_equal_positions;

/// Findings are equal exactly if they are at the same position and report the same.
pub fn law_equal_findings()
    ensures { (a b : the_finding.Finding)
        → (⟦<Finding<'static> as PartialEq>⟧.eq a b ≡ true) ↔ (finding_of a ≡ finding_of b) }
{
    law_equal_kinds();
}

/// Kinds are equal exactly if they report the same, with all details. Contacts are equal exactly if their fields are.
pub fn law_equal_kinds()
    ensures kinds { (a b : the_kind.FindingKind)
        → (⟦<FindingKind<'static> as PartialEq>⟧.eq a b ≡ true) ↔ (kind_of a ≡ kind_of b) }
    ensures contacts { (a b : the_contact.Contact)
        → (⟦<Contact<'static> as PartialEq>⟧.eq a b ≡ true) ↔ (contact_of a ≡ contact_of b) }
{}

/// Explanations are equal exactly if their new fields and the lines behind them are. The lines that an answer needs are
/// equal exactly if the first and the second are.
pub fn law_equal_explanations()
    ensures explanations { (a b : the_explanation.Explanation)
        → (⟦<Explanation<'static> as PartialEq>⟧.eq a b ≡ true)
        ↔ ((explained a ≡ explained b) × (explained_by a ≡ explained_by b)) }
    ensures needed { (a b : the_needed.Needed)
        → (⟦<Needed as PartialEq>⟧.eq a b ≡ true) ↔ ((a.first ≡ b.first) × (a.second ≡ b.second)) }
{}

/// git's readings are equal exactly if both are nothing, equal entries, or equal numbers of entries.
pub fn law_equal_git_readings()
    ensures { (a b : the_reading.GitReading)
        → (⟦<GitReading<'static> as PartialEq>⟧.eq a b ≡ true) ↔ (git_reading_of a ≡ git_reading_of b) }
{}

/// Remarks are equal exactly if they are equal findings, or name the same line as needed by no contact.
pub fn law_equal_remarks()
    ensures { (a b : the_remark.Remark)
        → (⟦<Remark<'static> as PartialEq>⟧.eq a b ≡ true) ↔ (remark_of a ≡ remark_of b) }
{
    law_equal_findings();
    law_equal_positions();
}
