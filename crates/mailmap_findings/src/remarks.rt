//! The findings of mailmaps, merged with the lines that no contact needs.
//!
//! ```text
//! for remark in Remarks::new(verification.findings(), needs.unneeded(alloc)?.as_slice()) { .. }
//! ```
ghost use Rattle.std.specs.Prelude.{◌≡◌, List};
ghost use Rattle.std.specs.Iterator.{YieldsFirstBy, item_count};
ghost use Rattle.std.specs.Option.{option_map};
ghost use Rattle.mailmap_entries.specs.Folding.{Text};
ghost use Rattle.mailmap_findings.specs.Findings.{AreFindings, finding_of};
ghost use Rattle.mailmap_findings.specs.Needs.{AreUnneeded};
ghost use Rattle.mailmap_findings.specs.Remarks.{AreRemarks, first_before as spec_first_before, remark_of};

use crate::verify::{Finding, Findings, Position};
use std::marker::Model;

/// A finding, or a line that no contact needs.
#[derive(Clone, Copy, Debug, PartialEq, Eq)]
pub enum Remark<'a> {
    Found(Finding<'a>),
    /// The line has an effect, but no contact needs it.
    Unneeded(Position),
}

/// Iterates over findings and unneeded lines in the order of the lines, without allocating. A line's findings come
/// before the remark that no contact needs it.
///
/// Contracts see it as the list of the remaining remarks.
#[derive(Drop)]
pub struct Remarks<'v, 'a> {
    // the next finding, then those after it
    ahead: Option<Finding<'a>>,
    findings: Findings<'v, 'a>,
    // the lines that are left of those that no contact needs
    unneeded: &'v [Position],
}

impl<'v, 'a> Model for Remarks<'v, 'a> {
    ghost use Rattle.std.specs.Prelude.{◌≡◌, ◌++◌, [], List, None, option_to_list};
    ghost use Rattle.std.specs.Option.{option_map};
    ghost use Rattle.mailmap_findings.specs.Findings.{finding_of};
    ghost use Rattle.mailmap_findings.specs.Remarks.{Remark, merged_remarks};

    ghost Value = { List Remark };

    ghost view = { λ s. merged_remarks (option_to_list (option_map finding_of s.ahead) ++ s.findings) s.unneeded.now };

    ghost invariant = { λ s. s.ahead ≡ None → s.findings ≡ [] };
}

impl<'v, 'a> Remarks<'v, 'a> {
    #[tactic(auto, using(crate::proofs::ContactNeeds::are_remarks))]
    pub fn new(mut findings: Findings<'v, 'a>, unneeded: &'v [Position]) -> Remarks<'v, 'a>
        ensures { (buffers : List Text) (contacts : Text) → AreFindings buffers findings.entry
            → AreUnneeded buffers contacts unneeded.now → AreRemarks buffers contacts result }
    {
        Remarks {
            ahead: findings.next(),
            findings,
            unneeded,
        }
    }
}

impl<'v, 'a> Iterator for Remarks<'v, 'a> {
    type Item = Remark<'a>;

    ghost next_gives = { YieldsFirstBy remark_of (λ s. s) };

    ghost remaining = { item_count (λ s. s) };

    #[tactic(auto, using(crate::proofs::ContactNeeds::position_next))]
    fn next(&mut self) -> Option<Remark<'a>> {
        if let Some((position, rest)) = first_before(self.ahead, self.unneeded) {
            self.unneeded = rest;
            return Some(Remark::Unneeded(position));
        }
        let finding = self.ahead?;
        self.ahead = self.findings.next();
        Some(Remark::Found(finding))
    }
}

// The first unneeded line and those after it, if it comes before the next finding.
fn first_before<'v>(
    ahead: Option<Finding<'_>>,
    unneeded: &'v [Position],
) -> Option<(Position, &'v [Position])>
    ensures { option_map (λ p. (p.0, p.1.now)) result ≡ spec_first_before (option_map finding_of ahead.entry) unneeded.now }
{
    let (position, rest) = unneeded.split_first()?;
    match ahead {
        Some(finding) if finding.position <= *position => None,
        _ => Some((*position, rest)),
    }
}
