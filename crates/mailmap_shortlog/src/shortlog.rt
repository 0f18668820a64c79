//! A shortlog: one line for each distinct answer, with its count.
ghost use Rattle.std.specs.Prelude.{◌≡◌, ◌⊎◌, ◌++◌, IfErr, IfOk, IsOkUnless, OnErr, OnOk, codes, decimal, drop, length};
ghost use Rattle.std.specs.Prelude.{map, ◌∷◌, []};
ghost use Rattle.std.specs.List.{flat_map};
ghost use Rattle.std.specs.List.Sorted.{IsPermutation, IsSortedBy, IsStrictlySortedBy};
ghost use Rattle.std.specs.Map.{keys_of};
ghost use Rattle.std.specs.Ordering.{is_lt};
ghost use Rattle.bstr.specs.Text.{lines_of};
ghost use Rattle.mailmap_snapshot.specs.Folding.{Text};
ghost use Rattle.command_line.specs.Printing.{AppendsFront, IsUnderway, LeavesText, WritesText};
ghost use Rattle.mailmap_contacts.specs.Contacts.{answer_to, read_by, trimmed};
ghost use Rattle.mailmap_contacts.specs.Counts.{AreContactsOf, SameTallies};
ghost use Rattle.shown_text.specs.Shown.{shown};
ghost use Rattle.mailmap_shortlog.specs.Answers.{AreListed, answer_cmp, answer_counted, answer_tally, printed, text_tally};
ghost use Rattle.mailmap_shortlog.specs.Shortlog.{IsShortlog, answer_text, answers_counted, count_order, counted_text, order};

use crate::answer::Answer;
use crate::task::Options;
use command_line::failure::Failure;
use command_line::printer::Printer;
use itoa::Buffer;
use mailmap_contacts::counter::Contacts;
use mailmap_contacts::occurrences::{Occurrences, add_to};
use mailmap_grammar::contacts::trim;
use mailmap_snapshot::Snapshot;
use mailmap_snapshot::check::{resolved, snapshot_of};
use shown_text::shown::{Shown, may_need_escapes};
use std::alloc::{AllocError, Global};
use std::cmp::Ordering;
use std::collections::BTreeMap;
use std::io::Write;

// An answer, and how often it comes.
type Counted<'a> = (Answer<'a>, Occurrences);

/// Prints the shortlog of counted contacts, using the mailmaps in the buffers, of which later ones override earlier
/// ones.
///
/// With the buffer `Jane Doe <jane@x>`, the lines `jane <JANE@x>`, `jd <jane@x>` and `joe <joe@x>` make the shortlog
///
/// ```text
///      2  Jane Doe
///      1  joe
/// ```
///
/// with a tab after each count. Names and emails are escaped as by [`push_shown`](shown_text::shown::push_shown). Fails
/// if memory runs out, or if a count exceeds its type, and then prints nothing.
///
/// No text is copied, so memory grows only with the mailmaps and the distinct contacts, even if many of them have one
/// long email and the shortlog is much longer.
pub fn print_shortlog<W: Write>(
    alloc: Global,
    buffers: &[&[u8]],
    contacts: &Contacts,
    options: Options,
    output: &mut W,
) -> Result<(), Failure>
    ensures leaves { (text : Text) → AreContactsOf (lines_of text) contacts.now → LeavesText
        (IsShortlog options.by_count (answers_counted options.with_email (map (λ b. b.now) buffers.now) text))
        W.contents output.old output.new result }
    ensures only { IfErr result (λ e. (e ≡ Failure.Memory) ⊎ (e ≡ Failure.Output)) }
{
    let snapshot = snapshot_of(alloc, buffers)?;
    let listed = listed_answers(
        alloc,
        &snapshot,
        contacts,
        options.by_count,
        options.with_email,
    )?;
    let mut printer = Printer::new(alloc)?;
    print_lines(&mut printer, listed.as_slice(), output)
}

// The answers to contacts with their counts, in the order in which they are printed.
fn listed_answers<'a>(
    alloc: Global,
    snapshot: &'a Snapshot,
    contacts: &'a Contacts,
    by_count: bool,
    with_email: bool,
) -> Result<Vec<Counted<'a>>, AllocError>
    ensures { IfOk result (λ listed. AreListed by_count (map (text_tally with_email snapshot.now)
        (map (read_by trimmed) contacts.now.tallies)) listed.items) }
{
    let answers = answers_of(alloc, snapshot, contacts, with_email)?;
    let listed = listed(alloc, answers, by_count)?;
    Ok(listed)
}

/// Maps contacts to answers and adds up the counts of equal answers.
///
/// Each distinct contact is looked up once.
pub fn answers_of<'a>(
    alloc: Global,
    snapshot: &'a Snapshot,
    contacts: &'a Contacts,
    with_email: bool,
) -> Result<BTreeMap<Answer<'a>, Occurrences>, AllocError>
    ensures { IfOk result (λ answers. SameTallies (map answer_tally answers.entries)
        (map (text_tally with_email snapshot.now) (map (read_by trimmed) contacts.now.tallies))) }
{
    let mut answers = BTreeMap::new(alloc);
    for ((name, email), seen) in contacts.tallies().iter() {
        let (name, email) = (trim(name.as_slice()), trim(email.as_slice()));
        let answer = answer_to(snapshot, name, email, with_email);
        add_to(&mut answers, answer, *seen)?;
    }
    Ok(answers)
}

fn answer_to<'a>(
    snapshot: &'a Snapshot,
    name: &'a [u8],
    email: &'a [u8],
    with_email: bool,
) -> Answer<'a>
    ensures { printed result ≡ answer_text with_email
        (answer_to snapshot.now (record { name = name.now; email = email.now })) }
{
    let (name, email) = resolved(snapshot, name, email);
    let email = if with_email { Some(email) } else { None };
    Answer { name, email }
}

// The answers with their counts: sorted by descending count and then by text, or by text alone.
fn listed<'a>(
    alloc: Global,
    answers: BTreeMap<Answer<'a>, Occurrences>,
    by_count: bool,
) -> Result<Vec<Counted<'a>>, AllocError>
    ensures moved { IfOk result (λ listed. IsPermutation answers.entry.entries listed.items) }
    ensures once { OnOk result (IsStrictlySortedBy answer_cmp (keys_of answers.entry.entries)) }
    ensures in_order { IfOk result (λ listed. IsStrictlySortedBy (order by_count) (map answer_counted listed.items)) }
{
    let mut listed: Vec<Counted<'a>> = answers.into_iter().collect(alloc)?;
    if !by_count {
        return Ok(listed);
    }
    sort_by_counts(&mut listed)?;
    Ok(listed)
}

fn sort_by_counts(answers: &mut Vec<Counted<'_>>) -> Result<(), AllocError>
    ensures moved { IsPermutation answers.old.items answers.new.items }
    ensures sorted { OnOk result (IsSortedBy
        (λ a b. is_lt (count_order (answer_counted a) (answer_counted b))) answers.new.items) }
{
    answers.sort_by(compare_counts)
}

fn compare_counts(a: &Counted<'_>, b: &Counted<'_>) -> Ordering
    ensures { result ≡ count_order (answer_counted a.now) (answer_counted b.now) }
{
    let counts = b.1.count.cmp(&a.1.count);
    if counts.is_ne() {
        return counts;
    }
    a.0.cmp(&b.0)
}

fn print_lines<W: Write>(
    printer: &mut Printer,
    answers: &[Counted<'_>],
    output: &mut W,
) -> Result<(), Failure>
    ensures writes { WritesText (printer.old ++ flat_map counted_text (map answer_counted answers.now))
        W.contents output.old output.new result }
    ensures only { IsOkUnless result Failure.Output }
{
    let mut buffer = Buffer::new();
    for answer in answers {
        let digits = buffer.format(answer.1.count).as_bytes();
        print_line(printer, answer, digits, output)?;
    }
    printer.flush(output)
}

// Prints an answer's line: its count in six columns, a tab, its text with escapes, and a line feed.
fn print_line<W: Write>(
    printer: &mut Printer,
    answer: &Counted<'_>,
    digits: &[u8],
    output: &mut W,
) -> Result<(), Failure>
    requires { digits.now ≡ decimal answer.now.1.count }
    ensures ok { OnOk result (IsUnderway (printer.old ++ counted_text (answer_counted answer.now))
        (W.contents output.old) (W.contents output.new) printer.new) }
    ensures err { OnErr result (AppendsFront (W.contents output.old) (W.contents output.new)
        (printer.old ++ counted_text (answer_counted answer.now))) }
    ensures only { IsOkUnless result Failure.Output }
{
    print_pieces(printer, &count_parts(digits), output)?;
    print_shown_pieces(printer, &answer.0.parts(), output)?;
    printer.print(output, b"\n")
}

// The parts of a line before the text: a count in six columns, and a tab.
fn count_parts<'a>(digits: &'a [u8]) -> [&'a [u8]; 3]
    ensures { flat_map (λ p. p.now) result ≡ (drop (length digits.now) (codes "      ") ++ digits.now) ++ 9 ∷ [] }
{
    let padding: &'a [u8] = padding(digits.len());
    let tab: &'a [u8] = b"\t".as_slice();
    [padding, digits, tab]
}

fn print_shown_pieces<W: Write>(
    printer: &mut Printer,
    pieces: &[&[u8]],
    output: &mut W,
) -> Result<(), Failure>
    ensures ok { OnOk result (IsUnderway (printer.old ++ flat_map (λ p. shown p.now) pieces.now)
        (W.contents output.old) (W.contents output.new) printer.new) }
    ensures err { OnErr result (AppendsFront (W.contents output.old) (W.contents output.new)
        (printer.old ++ flat_map (λ p. shown p.now) pieces.now)) }
    ensures only { IsOkUnless result Failure.Output }
{
    for piece in pieces {
        print_shown(printer, piece, output)?;
    }
    Ok(())
}

// Prints a text with escapes. It is printed part by part, since no memory may be needed once something is written.
#[tactic(auto, using(shown_text::proofs::Escapes::plain))]
fn print_shown<W: Write>(printer: &mut Printer, text: &[u8], output: &mut W) -> Result<(), Failure>
    ensures ok { OnOk result (IsUnderway (printer.old ++ shown text.now)
        (W.contents output.old) (W.contents output.new) printer.new) }
    ensures err { OnErr result (AppendsFront (W.contents output.old) (W.contents output.new)
        (printer.old ++ shown text.now)) }
    ensures only { IsOkUnless result Failure.Output }
{
    if !may_need_escapes(text) {
        return printer.print(output, text);
    }
    let mut left = Shown::new(text);
    while let Some(part) = left.next_part() {
        printer.print(output, part.as_slice())?;
    }
    Ok(())
}

// The padding of a count with so many digits, to six columns.
fn padding(digits: usize) -> &'static [u8]
    ensures { result.now ≡ drop digits (codes "      ") }
{
    PADDING.get(digits..).unwrap_or(&[])
}

fn print_pieces<W: Write>(
    printer: &mut Printer,
    pieces: &[&[u8]],
    output: &mut W,
) -> Result<(), Failure>
    ensures ok { OnOk result (IsUnderway (printer.old ++ flat_map (λ p. p.now) pieces.now)
        (W.contents output.old) (W.contents output.new) printer.new) }
    ensures err { OnErr result (AppendsFront (W.contents output.old) (W.contents output.new)
        (printer.old ++ flat_map (λ p. p.now) pieces.now)) }
    ensures only { IsOkUnless result Failure.Output }
{
    for piece in pieces {
        printer.print(output, piece)?;
    }
    Ok(())
}

const PADDING: &[u8] = b"      ";
