//! Answers for names and emails, and the mailmap lines behind each answer.
//!
//! ```text
//! let mailmaps = Mailmaps::read(alloc, &[b"<jane@x> <JD@x>\nJane <jd@x>\n"])?;
//! let explanations = Explanations::new(alloc, &mailmaps)?;
//! let found = explanations.of(b"jd", b"jd@X");
//! // the name `Jane` by line 2 and the email `jane@x` by line 1
//! ```
ghost use Rattle.std.specs.Prelude.{◌≡◌, IfOk, IfSome, None, map};
ghost use Rattle.std.specs.Option.{option_map};
ghost use Rattle.mailmap_entries.specs.Semantics.{answer_of};
ghost use Rattle.mailmap_redundancy.specs.Origins.{origins};
ghost use Rattle.mailmap_redundancy.specs.Summaries.{fields_of, origins_of, referred};
ghost use Rattle.mailmap_redundancy.specs.Redundancy.{AreEffective, entries};
ghost use Rattle.mailmap_findings.specs.Explanations as spec;
ghost use Rattle.mailmap_findings.specs.Explanations.{explained, explained_by, origin_positions, needed_positions, positions_of};
ghost use Rattle.mailmap_findings.specs.Positions.{located_lines, located};

use crate::verify::Mailmaps;
use mailmap_redundancy::{Effective, Fields, LocatedEntry, Origins, Position, without_redundant};
use std::alloc::{AllocError, Global};
use std::cmp::Ordering;
use std::marker::Model;

/// The answers of mailmaps, and the lines behind each answer.
///
/// Contracts see it as all entries, and those of them that have an effect.
#[derive(Drop)]
pub struct Explanations<'m, 'a> {
    effective: Effective<'m, 'a>,
}

impl<'m, 'a> Model for Explanations<'m, 'a> {
    ghost use Rattle.mailmap_redundancy.specs.Summaries.{EffectiveEntries};
    ghost use Rattle.mailmap_redundancy.specs.Redundancy.{AreEffective};

    ghost Value = { EffectiveEntries };

    ghost view = { λ s. s.effective };

    ghost invariant = { λ s. AreEffective s.effective.history s.effective.kept };
}

/// What a name and an email map to, and by which lines.
#[derive(Clone, Copy, Debug, PartialEq, Eq)]
pub struct Explanation<'a> {
    /// The new name, `None` if the name stays as it is.
    pub name: Option<&'a [u8]>,
    /// The new email, `None` if the email stays as it is.
    pub email: Option<&'a [u8]>,
    /// The line behind the name or the email or both. If there are two such lines, the earlier one.
    pub first: Position,
    /// The later line, if there are two.
    pub second: Option<Position>,
}

/// The lines that an answer needs, in their order. There are at most two: one sets the name, the other sets the email
/// or its spelling. [`Explanations::needs`] says what can be deleted beside them.
#[derive(Clone, Copy, Debug, PartialEq, Eq)]
pub struct Needed {
    pub first: Option<Position>,
    /// The later line, if there are two. Without `first`, there is none.
    pub second: Option<Position>,
}

impl<'m, 'a> Explanations<'m, 'a> {
    /// Finds out which entries have an effect. Allocates all the memory that the explanations need.
    #[tactic(auto, using(crate::proofs::Read::items_accepted))]
    pub fn new(
        alloc: Global,
        mailmaps: &'m Mailmaps<'_, 'a>,
    ) -> Result<Explanations<'m, 'a>, AllocError>
        ensures history { IfOk result (λ s. s.history ≡ located (located_lines mailmaps.now)) }
        ensures effective { IfOk result (λ s. AreEffective s.history s.kept) }
    {
        Ok(Explanations {
            effective: without_redundant(alloc, mailmaps.entries())?,
        })
    }

    /// What a name and an email map to and the lines behind it, `None` if no line changes either. A line that only
    /// spells the email counts if its spelling differs.
    pub fn of(&self, name: &[u8], email: &[u8]) -> Option<Explanation<'a>>
        ensures fields { option_map explained result ≡ answer_of (entries self.now.history) name.now email.now }
        ensures positions { IfSome result (λ e. explained_by e
            ≡ origin_positions (origins self.now.kept name.now email.now) (explained e)) }
    {
        explanation_of(&self.effective, name, email)
    }

    /// The lines that have an effect, in their order.
    #[tactic(auto, using(crate::proofs::Lines::mapped))]
    pub fn lines(&self, alloc: Global) -> Result<Vec<Position>, AllocError>
        ensures { IfOk result (λ lines. lines.items ≡ map (λ x. x.position) self.now.kept) }
    {
        let kept = self.effective.kept();
        kept.iter().map(|entry| entry.position).collect(alloc)
    }

    /// The lines that the answer to a name and an email needs. With these and any others of
    /// [`lines`](Explanations::lines()), the answer is the same.
    ///
    /// So the lines without an effect have to be deleted, too. In `P <A@x>`, `Q <a@x>`, `P <a@x>` line 1 is needed, and
    /// line 3 has no effect beside it; but without line 3 alone the answer is `Q`.
    pub fn needs(&self, name: &[u8], email: &[u8]) -> Needed
        ensures positions { positions_of result ≡ needed_positions (origins self.now.kept name.now email.now) }
        ensures second { result.first ≡ None → result.second ≡ None }
    {
        let origins = self.effective.origins(name, email);
        let email = origins.email.or(origins.spelling);
        in_order(position_of(origins.name), position_of(email))
    }
}

/// What a name and an email map to and the lines behind it, `None` if no line changes either.
pub(crate) fn explanation_of<'a>(
    effective: &Effective<'_, 'a>,
    name: &[u8],
    email: &[u8],
) -> Option<Explanation<'a>>
    ensures fields { option_map explained result ≡ answer_of (entries effective.now.history) name.now email.now }
    ensures positions { IfSome result (λ e. explained_by e
        ≡ origin_positions (origins effective.now.kept name.now email.now) (explained e)) }
{
    let origins = effective.origins(name, email);
    let fields = origins.fields(email)?;
    let positions = giving(&origins, &fields);
    let first = positions.first?;
    Some(Explanation {
        name: fields.name,
        email: fields.email,
        first,
        second: positions.second,
    })
}

// The lines behind the new fields. The line that spells the email counts only if it changes the email.
fn giving(origins: &Origins<'_, '_>, fields: &Fields<'_>) -> Needed
    ensures positions { positions_of result ≡ origin_positions (origins_of origins.now) (fields_of fields.now) }
    ensures second { result.first ≡ None → result.second ≡ None }
{
    let email = if fields.email.is_some() {
        origins.email.or(origins.spelling)
    } else {
        None
    };
    in_order(position_of(origins.name), position_of(email))
}

fn position_of(entry: Option<&LocatedEntry<'_>>) -> Option<Position>
    ensures { result ≡ spec.position_of (referred entry.entry) }
{
    Some(entry?.position)
}

// Equal positions count once.
fn in_order(a: Option<Position>, b: Option<Position>) -> Needed
    ensures positions { positions_of result ≡ spec.in_order a b }
    ensures second { result.first ≡ None → result.second ≡ None }
{
    let (first, second) = match (a, b) {
        (Some(x), Some(y)) => match x.cmp(&y) {
            Ordering::Less => (a, b),
            Ordering::Equal => (a, None),
            Ordering::Greater => (b, a),
        },
        _ => (a.or(b), None),
    };
    Needed { first, second }
}
