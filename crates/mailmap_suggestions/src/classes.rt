//! Puts items into classes by the marks that they have in common.
ghost use Rattle.std.specs.Prelude.{◌≡◌, ◌<◌, ℕ, All, IfOk, length, slice_index};
ghost use Rattle.std.specs.Ordering.{is_lt};
ghost use Rattle.mailmap_entries.specs.Folding.{text_cmp};
ghost use Rattle.mailmap_suggestions.specs.Classes.{AreClasses};
ghost use Rattle.mailmap_suggestions.specs.Forests.{AgreesAlong, IsForest, IsJoined, IsRoot, Joins, KeepsClasses};
ghost use Rattle.mailmap_suggestions.specs.Forests.{links_of};

use crate::marks::Mark;
use std::alloc::{AllocError, Global};
use std::cmp::Ordering;

/// A mark, and an item that has it.
#[derive(Drop)]
pub(crate) struct Link {
    pub mark: Mark,
    pub item: usize,
}

/// The class of each item below `count`: items with a mark in common have one class, and so have items that are linked
/// by others. A class is named after its least item.
///
/// With the marks `x` of 0 and 3, and `y` of 3 and 1, the classes of four items are 0, 0, 2 and 0. This takes time
/// `n log n` and memory `n` for `n` items and links, whatever the links are.
pub(crate) fn classes_of(
    alloc: Global,
    count: usize,
    links: Vec<Link>,
) -> Result<Vec<usize>, AllocError>
    requires { All (λ link. link.item < count) links.items }
    ensures { IfOk result (λ classes. AreClasses count (links_of links.items) classes.items) }
{
    let mut links = links;
    links.sort_unstable_by(compare);
    let mut parents = roots(alloc, count)?;
    join_neighbours(&mut parents, &links);
    flatten(&mut parents);
    Ok(parents)
}

fn compare(a: &Link, b: &Link) -> Ordering
    ensures { result ≡ text_cmp a.now.mark.text.items b.now.mark.text.items }
{
    a.mark.cmp(&b.mark)
}

// Items in classes of their own.
fn roots(alloc: Global, count: usize) -> Result<Vec<usize>, AllocError>
    ensures len { IfOk result (λ parents. length parents.items ≡ count) }
    ensures roots { IfOk result (λ parents. (i : ℕ) → i < count → IsRoot parents.items i) }
{
    let mut parents = Vec::with_capacity(alloc, count)?;
    for item in 0..count {
        parents.push(item)?;
    }
    Ok(parents)
}

// Joins the classes of items with one mark, which are neighbours.
fn join_neighbours(parents: &mut [usize], links: &[Link])
    requires forest { IsForest parents.old }
    requires items { All (λ link. link.item < length parents.old) links.now }
    ensures forest { IsForest parents.new }
    ensures joined { IsJoined parents.old parents.new (links_of links.now) (length links.now) }
{
    for index in 1..links.len() {
        let before = &links[index - 1];
        let link = &links[index];
        if before.mark.text.as_slice() == link.mark.text.as_slice() {
            join(parents, before.item, link.item);
        }
    }
}

fn join(parents: &mut [usize], a: usize, b: usize)
    requires forest { IsForest parents.old }
    requires a_below { a < length parents.old }
    requires b_below { b < length parents.old }
    ensures { Joins parents.old a b parents.new }
{
    let first = root(parents, a);
    let second = root(parents, b);
    parents[first.max(second)] = first.min(second);
}

// The root of an item's class. Those on the way get their parents' parents, so that the way is shorter the next time.
fn root(parents: &mut [usize], item: usize) -> usize
    requires forest { IsForest parents.old }
    requires below { item < length parents.old }
    ensures keeps { KeepsClasses parents.old parents.new }
    ensures below { result < length parents.new }
    ensures root { IsRoot parents.new result }
    ensures same { (f : ℕ → ℕ) → AgreesAlong parents.new f → f result ≡ f item }
{
    let mut at = item;
    while parents[at] != at {
        parents[at] = parents[parents[at]];
        at = parents[at];
    }
    at
}

// Makes the root of its class each item's parent.
fn flatten(parents: &mut [usize])
    requires { IsForest parents.old }
    ensures keeps { KeepsClasses parents.old parents.new }
    ensures flat { (i : ℕ) → i < length parents.new → IsRoot parents.new (slice_index parents.new i) }
{
    for item in 0..parents.len() {
        parents[item] = parents[parents[item]];
    }
}
