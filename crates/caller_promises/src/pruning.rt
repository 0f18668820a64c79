//! Pruned mailmaps, and what holds for them.
ghost use Rattle.std.specs.Prelude.{◌≡◌, ◌↔◌, ◌∷◌, [], List, None, IfOk, IfSome, false, is_none, is_some, map, true};
ghost use Rattle.gix_mailmap.specs.Entries.{Mapping};
ghost use Rattle.gix_mailmap.specs.Findings.{AreFindings, Finding as Found, IsPruned, finding_of};
ghost use Rattle.gix_mailmap.specs.Findings.{first_read_otherwise as spec_first};
ghost use Rattle.gix_mailmap.specs.Folding.{Text};
ghost use Rattle.gix_mailmap.specs.GitAnswers.{git_answer};
ghost use Rattle.gix_mailmap.specs.Semantics.{IsNormal};
ghost use Rattle.gix_mailmap.specs.Lines.{mappings_of};
ghost use Rattle.caller_promises.specs.Pruned.{AreFindingsLeft, IsWithoutOne};

use gix_mailmap::Snapshot;
use gix_mailmap::laws::{
    law_equal_contacts, law_none_left, law_one_answer, law_pruned, law_pruned_findings,
    law_pruned_for_git, law_unique,
};
use gix_mailmap::verify::{Finding, first_read_otherwise, prune, verify};
use std::alloc::{AllocError, Global};

/// Prunes a mailmap twice. The second time changes nothing.
pub fn pruned_twice(alloc: Global, buffer: &[u8]) -> Result<Vec<u8>, AllocError>
    ensures { IfOk result (λ text. IsPruned buffer.now text.items) }
{
    law_one_answer();
    law_pruned();
    let once = prune(alloc, buffer)?;
    prune(alloc, once.as_slice())
}

/// The findings in a pruned text, whatever mailmap it comes from: no line is without effect, and the other findings are
/// those of the mailmap's kept lines, with their new line numbers, unless a byte order mark gets to the beginning.
pub fn findings_left<'a>(alloc: Global, pruned: &'a [u8]) -> Result<Vec<Finding<'a>>, AllocError>
    ensures { IfOk result (λ left. (buffer : Text) (found : List Found) → IsPruned buffer pruned.now
        → AreFindings (buffer ∷ []) found → AreFindingsLeft buffer found (map finding_of left.items)) }
{
    law_equal_contacts();
    law_pruned_findings();
    verify(alloc, &[pruned])
}

/// A snapshot of a mailmap, made from its pruned text.
pub fn snapshot_of_pruned(alloc: Global, buffer: &[u8]) -> Result<Snapshot, AllocError>
    ensures { IfOk result (IsNormal (mappings_of buffer.now)) }
{
    law_pruned();
    let text = prune(alloc, buffer)?;
    Snapshot::from_bytes(alloc, text.as_slice())
}

/// Whether two texts map the same, that is, have the same normal list. They don't if `pruned` is a pruned mailmap and
/// `shorter` lacks one of its lines that have an entry.
pub fn are_equivalent(alloc: Global, pruned: &[u8], shorter: &[u8]) -> Result<bool, AllocError>
    ensures exactly { IfOk result (λ same. (same ≡ true)
        ↔ ((n : List Mapping) → IsNormal (mappings_of pruned.now) n ↔ IsNormal (mappings_of shorter.now) n)) }
    ensures without_one { IfOk result (λ same. (buffer : Text) → IsPruned buffer pruned.now
        → IsWithoutOne pruned.now shorter.now → same ≡ false) }
{
    law_none_left();
    law_unique();
    let whole = Snapshot::from_bytes(alloc, pruned)?;
    let rest = Snapshot::from_bytes(alloc, shorter)?;
    Ok(whole == rest)
}

/// Prunes a mailmap for git: `None` if git reads a line of the mailmap in another way. With the pruned text, git reads
/// no line in another way, and answers each contact as with the mailmap.
pub fn pruned_for_git(alloc: Global, buffer: &[u8]) -> Result<Option<Vec<u8>>, AllocError>
    ensures some { IfOk result (λ text. is_some text ≡ is_none (spec_first (buffer.now ∷ []))) }
    ensures pruned { IfOk result (λ text. IfSome text (λ text. IsPruned buffer.now text.items)) }
    ensures answers { IfOk result (λ text. IfSome text (λ text. (name email : Text)
        → git_answer text.items name email ≡ git_answer buffer.now name email)) }
    ensures reads { IfOk result (λ text. IfSome text (λ text. spec_first (text.items ∷ []) ≡ None)) }
{
    law_pruned_for_git();
    if first_read_otherwise(&[buffer]).is_some() {
        return Ok(None);
    }
    Ok(Some(prune(alloc, buffer)?))
}
