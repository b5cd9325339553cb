//! The records that are reached from the roots.

ghost use Rattle.std.specs.Prelude.{◌≡◌, ◌<◌, true, [], All, IfOk, cond, length, slice_set};
ghost use Rattle.circuits.specs.Literals.{bit};
ghost use Rattle.refusal_core.specs.Marks.{Adds};
ghost use Rattle.account_trim.specs.Reached.{IsReached, NameBack};

use crate::links::Links;
use refusal_core::mark_all;
use std::alloc::{AllocError, Global};

/// Marks what is reached, from the last record to the first: when a record's turn comes, all that may name it had
/// theirs.
pub(crate) fn reached(alloc: Global, links: &[Links]) -> Result<Vec<bool>, AllocError>
    requires { NameBack links.now }
    ensures { IfOk result (λ marks. IsReached links.now marks.items) }
{
    let mut marks = vec![in alloc; false; links.len()]?;
    let mut left = links.len();
    while left > 0 {
        left -= 1;
        mark_root(&links[left], left, &mut marks);
        mark_named(&links[left], left, &mut marks);
    }
    Ok(marks)
}

// Marks the record of a place, if it is a root.
fn mark_root(link: &Links, place: usize, marks: &mut Vec<bool>)
    requires { place < length marks.old.items }
    ensures { marks.new.items ≡ cond link.now.is_root (slice_set marks.old.items place true) marks.old.items }
{
    if link.is_root {
        marks[place] = true;
    }
}

// Marks what the record of a place names, if it is marked.
fn mark_named(link: &Links, place: usize, marks: &mut Vec<bool>)
    requires held { place < length marks.old.items }
    requires named { All (λ k. k < length marks.old.items) link.now.names }
    ensures { Adds (cond (bit marks.old.items place) link.now.names []) marks.old.items marks.new.items }
{
    if marks[place] {
        mark_all(&link.names, marks);
    }
}
