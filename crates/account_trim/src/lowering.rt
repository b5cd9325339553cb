//! Records with the numbers that are theirs where others are left out.

ghost use Rattle.std.specs.Prelude.{◌≡◌, true, IfOk, cond, map, slice_index_or};
ghost use Rattle.std.specs.Option.{option_map};
ghost use Rattle.refusal_core.specs.Numbered.{step_by};
ghost use Rattle.account_trim.specs.Lowered.{all_left_out, lower_by, lowered, lowered_conclusion, lowered_hint};
ghost use Rattle.account_trim.specs.Lowered.{lowered_record, marks_at};

use crate::links::{Links, number_at};
use crate::places::Places;
use account_core::{Conclusion, Step};
use account_file::Record;
use items::Items;
use std::alloc::{AllocError, Global};

/// How many records, facts and bans are left out before each.
#[derive(Drop)]
pub struct Lower {
    pub(crate) records: Items<u64>,
    pub(crate) facts: Items<u64>,
    pub(crate) bans: Items<u64>,
}

/// How many are left out before each, where those that aren't marked are.
pub(crate) fn lower_by(alloc: Global, places: &Places, marks: &[bool]) -> Result<Lower, AllocError>
    ensures { IfOk result (λ lower. lower ≡ lower_by places.now marks.now) }
{
    let facts = marks_at(alloc, marks, &places.facts)?;
    let bans = marks_at(alloc, marks, &places.bans)?;
    Ok(Lower {
        records: all_left_out(alloc, marks)?,
        facts: all_left_out(alloc, &facts)?,
        bans: all_left_out(alloc, &bans)?,
    })
}

// The marks at places.
fn marks_at(alloc: Global, marks: &[bool], places: &[u64]) -> Result<Vec<bool>, AllocError>
    ensures { IfOk result (λ found. found.items ≡ marks_at marks.now places.now) }
{
    let mut found = Vec::new(alloc);
    for place in places.iter() {
        found.push(mark_at(marks, *place))?;
    }
    Ok(found)
}

// The mark at a place. What isn't there isn't left out.
fn mark_at(marks: &[bool], place: u64) -> bool
    ensures { result ≡ slice_index_or marks.now place true }
{
    if place < marks.len() as u64 {
        return marks[place as usize];
    }
    true
}

// For each place, how many before it aren't marked.
fn all_left_out(alloc: Global, marks: &[bool]) -> Result<Items<u64>, AllocError>
    ensures { IfOk result (λ counts. counts ≡ all_left_out marks.now) }
{
    let mut counts = Items::new(alloc);
    let mut next = 0;
    for mark in marks.iter() {
        counts.push(next)?;
        next += one_unless(*mark);
    }
    Ok(counts)
}

fn one_unless(mark: bool) -> u64
    ensures { result ≡ cond mark 0 1 }
{
    if mark { 0 } else { 1 }
}

/// Gives a record the new numbers.
pub(crate) fn lower_record(lower: &Lower, link: &Links, entry: &mut Record)
    ensures { entry.new ≡ lowered_record lower.now link.now entry.old }
{
    match entry {
        Record::Header => {}
        Record::Fact(_) => {}
        Record::Line(line) => lower_hints(&lower.records, link, &mut line.hints),
        Record::Ban(ban) => lower_step(lower, &mut ban.step),
        Record::Conclusion(conclusion) => lower_conclusion(lower, conclusion),
        Record::DropFact(_) => {}
        Record::DropBan(_) => {}
        Record::End => {}
    }
}

fn lower_hints(counts: &[u64], link: &Links, hints: &mut Items<u64>)
    ensures { hints.new ≡ map (lowered_hint counts.now link.now) hints.old }
{
    for place in 0..hints.len() {
        let hint = lowered_hint(counts, link, hints[place]);
        hints.set(place, hint);
    }
}

fn lowered_hint(counts: &[u64], link: &Links, hint: u64) -> u64
    ensures { result ≡ lowered_hint counts.now link.now hint }
{
    if hint < link.base {
        return hint;
    }
    let line = hint - link.base;
    if line >= (counts.len() as u64).saturating_sub(link.start) {
        return hint;
    }
    let before = number_at(counts, link.start, 0);
    let at = number_at(counts, link.start + line, 0);
    hint.saturating_sub(at.saturating_sub(before))
}

fn lower_step(lower: &Lower, step: &mut Step)
    ensures { step.new ≡ step_by (lowered lower.now.facts) (lowered lower.now.bans) step.old }
{
    match step {
        Step::Vector { output: _, bits: _ } => {}
        Step::Mismatch { fails, holds } => {
            *fails = lowered(&lower.facts, *fails);
            *holds = lowered(&lower.facts, *holds);
        }
        Step::Tally {
            kind: _,
            have,
            lack,
        } => {
            lower_all(&lower.facts, have);
            lower_all(&lower.facts, lack);
        }
        Step::Cover {
            kind: _,
            from: _,
            to: _,
            refs,
        } => lower_references(&lower.bans, refs),
    }
}

fn lower_all(counts: &[u64], numbers: &mut Items<u64>)
    ensures { numbers.new ≡ map (lowered counts.now) numbers.old }
{
    for place in 0..numbers.len() {
        let number = lowered(counts, numbers[place]);
        numbers.set(place, number);
    }
}

fn lower_references(counts: &[u64], references: &mut Items<Option<u64>>)
    ensures { references.new ≡ map (option_map (lowered counts.now)) references.old }
{
    for place in 0..references.len() {
        let reference = lowered_reference(counts, references[place]);
        references.set(place, reference);
    }
}

fn lowered_reference(counts: &[u64], reference: Option<u64>) -> Option<u64>
    ensures { result ≡ option_map (lowered counts.now) reference }
{
    let number = reference?;
    Some(lowered(counts, number))
}

fn lower_conclusion(lower: &Lower, conclusion: &mut Conclusion)
    ensures { conclusion.new ≡ lowered_conclusion lower.now conclusion.old }
{
    if let Conclusion::NoneBan(ban) = conclusion {
        *ban = lowered(&lower.bans, *ban);
    }
}

// A number, less what is left out before it.
fn lowered(counts: &[u64], number: u64) -> u64
    ensures { result ≡ lowered counts.now number }
{
    number.saturating_sub(number_at(counts, number, 0))
}
