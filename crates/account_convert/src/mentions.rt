//! Which record is the last to give or to name each fact and each ban.

ghost use Rattle.std.specs.Prelude.{◌≡◌, ◌∷◌, ◌++◌, [], OnOk, option_to_list};
ghost use Rattle.std.specs.List.{flat_map};
ghost use Rattle.refusal_core.specs.Names.{bans_named, facts_named};
ghost use Rattle.account_convert.specs.Tables.{all_mentioned, bans_after, facts_after, mentioned};

use crate::reading::TakeRecords;
use account_core::{Conclusion, FactHead, Step};
use account_file::Record;
use items::Items;
use std::alloc::AllocError;

/// Of each fact and of each ban that was given, by its number, the number of the last record that gives or names it.
#[derive(Drop)]
pub(crate) struct Mentions {
    pub(crate) facts: Items<u64>,
    pub(crate) bans: Items<u64>,
}

impl TakeRecords for Mentions {
    ghost use Rattle.account_convert.specs.Tables.{LeadMentions};

    ghost leads = { LeadMentions };

    fn take(&mut self, record_number: u64, entry: &Record) -> Result<(), AllocError> {
        mention_in_facts(&mut self.facts, record_number, entry)?;
        mention_in_bans(&mut self.bans, record_number, entry)
    }
}

// Puts a record in the table of facts. After the conclusion a line that ends a log gives none: nothing is dropped then,
// so that what stands in the table of it is never looked for.
fn mention_in_facts(
    table: &mut Items<u64>,
    record_number: u64,
    entry: &Record,
) -> Result<(), AllocError>
    ensures { OnOk result (table.new ≡ facts_after record_number table.old entry.now) }
{
    match entry {
        Record::Fact(FactHead::Fails { .. }) => push(table, record_number),
        Record::Line(log_line) => {
            if log_line.clause.is_empty() {
                return push(table, record_number);
            }
            Ok(())
        }
        Record::Ban(ban) => {
            mention_facts(table, record_number, &ban.step);
            Ok(())
        }
        _ => Ok(()),
    }
}

// Puts a record in the table of bans.
fn mention_in_bans(
    table: &mut Items<u64>,
    record_number: u64,
    entry: &Record,
) -> Result<(), AllocError>
    ensures { OnOk result (table.new ≡ bans_after record_number table.old entry.now) }
{
    match entry {
        Record::Ban(ban) => {
            mention_bans(table, record_number, &ban.step);
            push(table, record_number)
        }
        Record::Conclusion(Conclusion::NoneBan(ban)) => {
            mention(table, record_number, *ban);
            Ok(())
        }
        _ => Ok(()),
    }
}

fn push(table: &mut Items<u64>, record_number: u64) -> Result<(), AllocError>
    ensures { OnOk result (table.new ≡ table.old ++ record_number ∷ []) }
{
    table.push(record_number)?;
    Ok(())
}

// Puts a record beside the facts that a step names.
fn mention_facts(table: &mut Items<u64>, record_number: u64, step: &Step)
    ensures { table.new ≡ all_mentioned record_number table.old (facts_named step.now) }
{
    match step {
        Step::Vector { .. } | Step::Cover { .. } => {}
        Step::Mismatch { fails, holds } => mention_all(table, record_number, &[*fails, *holds]),
        Step::Tally { have, lack, .. } => {
            mention_all(table, record_number, have);
            mention_all(table, record_number, lack);
        }
    }
}

// Puts a record beside the bans that a step names.
fn mention_bans(table: &mut Items<u64>, record_number: u64, step: &Step)
    ensures { table.new ≡ all_mentioned record_number table.old (bans_named step.now) }
{
    match step {
        Step::Vector { .. } | Step::Mismatch { .. } | Step::Tally { .. } => {}
        Step::Cover { refs, .. } => mention_referred(table, record_number, refs),
    }
}

fn mention_all(table: &mut Items<u64>, record_number: u64, numbers: &[u64])
    ensures { table.new ≡ all_mentioned record_number table.old numbers.now }
{
    for number in numbers.iter() {
        mention(table, record_number, *number);
    }
}

fn mention_referred(table: &mut Items<u64>, record_number: u64, refs: &[Option<u64>])
    ensures { table.new ≡ all_mentioned record_number table.old (flat_map option_to_list refs.now) }
{
    for reference in refs.iter() {
        mention_reference(table, record_number, *reference);
    }
}

fn mention_reference(table: &mut Items<u64>, record_number: u64, reference: Option<u64>)
    ensures { table.new ≡ all_mentioned record_number table.old (option_to_list reference) }
{
    match reference {
        Some(number) => mention(table, record_number, number),
        None => {}
    }
}

// Puts a record beside what it names, where that was given.
fn mention(table: &mut Items<u64>, record_number: u64, number: u64)
    ensures { table.new ≡ mentioned record_number table.old number }
{
    if number < table.len() as u64 {
        table.set(number as usize, record_number);
    }
}
