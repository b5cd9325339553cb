//! Records as bytes of version 2, with drops.

ghost use Rattle.std.specs.Prelude.{◌≡◌, ◌++◌, All, OnOk, map};
ghost use Rattle.std.specs.List.{flat_map};
ghost use Rattle.account_file.specs.Binary.{HasBytes, record_bytes};
ghost use Rattle.account_convert.specs.Conversions.{is_conclusion};
ghost use Rattle.account_convert.specs.Writing.{after_at, drop_of, first_at};

use crate::dues::DueLeft;
use crate::reading::TakeRecords;
use account_file::{Record, put_record2};
use std::alloc::AllocError;

/// Writes records, and after each the drops that are due, up to the conclusion.
#[derive(Drop)]
pub(crate) struct BinaryWriter<'a> {
    pub(crate) concluded: bool,
    pub(crate) facts: DueLeft<'a>,
    pub(crate) bans: DueLeft<'a>,
    pub(crate) bytes: Vec<u8>,
}

/// What records name by a number.
#[derive(Clone, Copy, Drop)]
pub(crate) enum Numbered {
    Fact,
    Ban,
}

impl<'a> TakeRecords for BinaryWriter<'a> {
    ghost use Rattle.account_convert.specs.Writing.{LeadToBytes};

    ghost leads = { LeadToBytes };

    fn take(&mut self, record_number: u64, entry: &Record) -> Result<(), AllocError> {
        put_record2(entry, &mut self.bytes)?;
        self.concluded = self.concluded | is_conclusion(entry);
        if self.concluded {
            return Ok(());
        }
        put_drops(
            Numbered::Fact,
            record_number,
            &mut self.facts,
            &mut self.bytes,
        )?;
        put_drops(
            Numbered::Ban,
            record_number,
            &mut self.bans,
            &mut self.bytes,
        )
    }
}

fn is_conclusion(entry: &Record) -> bool
    ensures { result ≡ is_conclusion entry.now }
{
    match entry {
        Record::Conclusion(_) => true,
        _ => false,
    }
}

// Writes the drops that are due after a record.
fn put_drops(
    of: Numbered,
    record_number: u64,
    due: &mut DueLeft<'_>,
    out: &mut Vec<u8>,
) -> Result<(), AllocError>
    ensures bytes { OnOk result (out.new.items
        ≡ out.old.items ++ flat_map record_bytes (map (drop_of of) (first_at record_number due.old))) }
    ensures fit { OnOk result (All HasBytes (map (drop_of of) (first_at record_number due.old))) }
    ensures left { OnOk result (due.new ≡ after_at record_number due.old) }
{
    while let Some(number) = due.next_at(record_number) {
        put_drop(of, number, out)?;
    }
    Ok(())
}

// Writes a drop.
fn put_drop(of: Numbered, number: u64, out: &mut Vec<u8>) -> Result<(), AllocError>
    ensures bytes { OnOk result (out.new.items ≡ out.old.items ++ record_bytes (drop_of of number)) }
    ensures fit { OnOk result (HasBytes (drop_of of number)) }
{
    match of {
        Numbered::Fact => put_record2(&Record::DropFact(number), out),
        Numbered::Ban => put_record2(&Record::DropBan(number), out),
    }
}
