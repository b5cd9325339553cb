//! The facts and bans that a ban rests on, marked.

ghost use Rattle.std.specs.Prelude.{◌≡◌, ◌≤◌, ◌<◌, true, All, IfOk, length, slice_set, option_to_list};
ghost use Rattle.std.specs.List.{flat_map};
ghost use Rattle.refusal_core.specs.Names.{IsNeeded, ReferBack, bans_named, facts_named};
ghost use Rattle.refusal_core.specs.Marks.{Adds, AreMarks, MarksNamed};

use account_core::{Ban, Step};
use std::alloc::{AllocError, Global};

/// Which facts and which bans are marked.
#[derive(Drop)]
pub(crate) struct CoreMarks {
    pub(crate) facts: Vec<bool>,
    pub(crate) bans: Vec<bool>,
}

/// Marks what a ban rests on, from the last ban to the first: when a ban's turn comes, all bans that may name it had
/// theirs.
pub(crate) fn needed(
    alloc: Global,
    facts: usize,
    bans: &[Ban],
    number: usize,
) -> Result<CoreMarks, AllocError>
    requires earlier { ReferBack facts bans.now }
    requires inside { number < length bans.now }
    ensures marks { IfOk result (AreMarks facts (length bans.now)) }
    ensures needed { IfOk result (λ marks. IsNeeded bans.now number marks.facts.items marks.bans.items) }
{
    let mut marks = CoreMarks {
        facts: vec![in alloc; false; facts]?,
        bans: vec![in alloc; false; bans.len()]?,
    };
    marks.bans[number] = true;
    let mut left = number + 1;
    while left > 0 {
        left -= 1;
        mark_named(&bans[left].step, left, &mut marks);
    }
    Ok(marks)
}

/// Marks what the step of the ban at a place names, where the ban is marked.
fn mark_named(step: &Step, place: usize, marks: &mut CoreMarks)
    requires inside { place < length marks.old.bans.items }
    requires facts { All (λ k. k < length marks.old.facts.items) (facts_named step.now) }
    requires bans { All (λ k. k < length marks.old.bans.items) (bans_named step.now) }
    ensures { MarksNamed place step.now marks.old marks.new }
{
    if marks.bans[place] {
        mark_facts(step, &mut marks.facts);
        mark_bans(step, &mut marks.bans);
    }
}

/// Marks the facts that a step names.
fn mark_facts(step: &Step, marks: &mut Vec<bool>)
    requires { All (λ k. k < length marks.old.items) (facts_named step.now) }
    ensures { Adds (facts_named step.now) marks.old.items marks.new.items }
{
    match step {
        Step::Vector { output: _, bits: _ } => {}
        Step::Mismatch { fails, holds } => mark_all(&[*fails, *holds], marks),
        Step::Tally {
            kind: _,
            have,
            lack,
        } => {
            mark_all(have, marks);
            mark_all(lack, marks);
        }
        Step::Cover {
            kind: _,
            from: _,
            to: _,
            refs: _,
        } => {}
    }
}

/// Marks the bans that a step names.
fn mark_bans(step: &Step, marks: &mut Vec<bool>)
    requires { All (λ k. k < length marks.old.items) (bans_named step.now) }
    ensures { Adds (bans_named step.now) marks.old.items marks.new.items }
{
    if let Step::Cover {
        kind: _,
        from: _,
        to: _,
        refs,
    } = step
    {
        mark_references(refs, marks);
    }
}

/// Marks these numbers.
pub fn mark_all(numbers: &[u64], marks: &mut Vec<bool>)
    requires { All (λ k. k < length marks.old.items) numbers.now }
    ensures { Adds numbers.now marks.old.items marks.new.items }
{
    for number in numbers.iter() {
        mark(*number, marks);
    }
}

fn mark_references(references: &[Option<u64>], marks: &mut Vec<bool>)
    requires { All (λ k. k < length marks.old.items) (flat_map option_to_list references.now) }
    ensures { Adds (flat_map option_to_list references.now) marks.old.items marks.new.items }
{
    for reference in references.iter() {
        mark_reference(*reference, marks);
    }
}

fn mark_reference(reference: Option<u64>, marks: &mut Vec<bool>)
    requires { All (λ k. k < length marks.old.items) (option_to_list reference) }
    ensures { Adds (option_to_list reference) marks.old.items marks.new.items }
{
    match reference {
        Some(number) => mark(number, marks),
        None => {}
    }
}

fn mark(number: u64, marks: &mut Vec<bool>)
    requires { number < length marks.old.items }
    ensures { marks.new.items ≡ slice_set marks.old.items number true }
{
    marks[number as usize] = true;
}
