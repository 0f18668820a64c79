//! Explains contacts: which lines of mailmaps are behind their answers.
ghost use Rattle.std.specs.Prelude.{◌≡◌, ◌++◌, IfOk, OnErr, OnOk};
ghost use Rattle.mailmap_entries.specs.Texts.{texts};
ghost use Rattle.mailmap_entries.specs.Semantics.{answer_of};
ghost use Rattle.mailmap_redundancy.specs.Origins.{origins};
ghost use Rattle.mailmap_redundancy.specs.Redundancy.{entries};
ghost use Rattle.mailmap_report.specs.Explained.{AreGrounds, explained_line, mapped_text};

use crate::pieces::shown_line;
use crate::places::push_positions;
use mailmap_findings::explain::Explanations;
use mailmap_findings::verify::Mailmaps;
use mailmap_grammar::cache::AnswerCache;
use mailmap_grammar::contacts::{ParsedContact, parse_name_and_email, trim};
use mailmap_grammar::hashing::hash_of;
use mailmap_grammar::writing::push_contact;
use std::alloc::{AllocError, Global};
use std::marker::Model;

/// Explains contacts line by line using mailmaps.
///
/// Caches the explanations of up to 4,096 lines at their second miss, in 1.1 MiB, unless a line and its explanation have
/// more than 250 bytes together: in the log of a repository, most lines recur.
///
/// Contracts see it as the mailmaps' paths, their entries and the effective ones.
#[derive(Drop)]
pub struct Explainer<'p, 'm, 'a> {
    alloc: Global,
    // of the mailmaps
    paths: &'p [Vec<u8>],
    explanations: Explanations<'m, 'a>,
    cache: AnswerCache,
}

impl<'p, 'm, 'a> Model for Explainer<'p, 'm, 'a> {
    ghost use Rattle.std.specs.Prelude.{map};
    ghost use Rattle.mailmap_report.specs.Explained.{Grounds, ExplainsEach};

    ghost Value = { Grounds };

    ghost view = { λ s. record {
      paths = map (λ path. path.items) s.paths.now;
      history = s.explanations.history;
      kept = s.explanations.kept;
    } };

    // Each row of the cache is a line with its explanation.
    ghost invariant = { λ s. ExplainsEach (record {
      paths = map (λ path. path.items) s.paths.now;
      history = s.explanations.history;
      kept = s.explanations.kept;
    }) s.cache };
}

impl<'p, 'm, 'a> Explainer<'p, 'm, 'a> {
    /// Finds out which lines of the mailmaps have an effect. `paths` has the mailmaps' paths.
    pub fn new(
        alloc: Global,
        paths: &'p [Vec<u8>],
        mailmaps: &'m Mailmaps<'_, 'a>,
    ) -> Result<Explainer<'p, 'm, 'a>, AllocError>
        ensures { IfOk result (AreGrounds (texts paths.now) mailmaps.now) }
    {
        Ok(Explainer {
            alloc,
            paths,
            explanations: Explanations::new(alloc, mailmaps)?,
            cache: AnswerCache::new(alloc)?,
        })
    }

    /// Appends the explanation that [`explained_line`](Explainer::explained_line) makes, from the cache if it is there.
    ///
    /// On an error, `text` is unchanged.
    pub fn push_explained_line(&mut self, text: &mut Vec<u8>, line: &[u8]) -> Result<(), AllocError>
        ensures ok { OnOk result (text.new.items ≡ text.old.items ++ explained_line self.old line.now) }
        ensures err { OnErr result (text.new.items ≡ text.old.items) }
        ensures same { self.new ≡ self.old }
    {
        let hash = hash_of(line);
        if let Some(explained) = self.cache.get(hash, line) {
            return text.extend_from_slice(explained);
        }
        let explained = self.explained_line(line)?;
        if self.cache.note_miss(hash) {
            self.cache.insert(hash, line, explained.as_slice());
        }
        text.extend_from_slice(explained.as_slice())
    }

    /// Explains a line of contacts. The result ends in a line feed; for a blank line it is empty.
    ///
    /// It is one of these:
    ///
    /// ```text
    /// jd <JD@old> is Jane Doe <jane@x> by .mailmap:3, .mailmap:7
    /// bob <bob@x> is not mapped
    /// plain is no contact
    /// ```
    ///
    /// The line is escaped by [`push_shown`](shown_text::shown::push_shown), and so is `::` at its beginning.
    pub fn explained_line(&self, line: &[u8]) -> Result<Vec<u8>, AllocError>
        ensures { IfOk result (λ text. text.items ≡ explained_line self.now line.now) }
    {
        let line = trim(line);
        let mut text = Vec::new(self.alloc);
        if line.is_empty() {
            return Ok(text);
        }
        let ParsedContact::Closed { name, email, .. } = parse_name_and_email(line) else {
            text.extend_from_slice(line)?;
            text.extend_from_slice(b" is no contact")?;
            return shown_line(self.alloc, text);
        };
        push_contact(&mut text, name, email)?;
        self.push_mapped(&mut text, name, email)?;
        shown_line(self.alloc, text)
    }

    // Appends what a contact maps to, and by which lines.
    fn push_mapped(&self, text: &mut Vec<u8>, name: &[u8], email: &[u8]) -> Result<(), AllocError>
        ensures { OnOk result (text.new.items ≡ text.old.items ++ mapped_text self.now.paths
            (origins self.now.kept name.now email.now) (answer_of (entries self.now.history) name.now email.now)
            name.now email.now) }
    {
        let Some(found) = self.explanations.of(name, email) else {
            return text.extend_from_slice(b" is not mapped");
        };
        text.extend_from_slice(b" is ")?;
        push_contact(
            text,
            found.name.unwrap_or(name),
            found.email.unwrap_or(email),
        )?;
        text.extend_from_slice(b" by ")?;
        push_positions(text, self.paths, found.first, found.second)
    }
}
