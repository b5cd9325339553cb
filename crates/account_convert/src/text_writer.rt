//! Records as lines of version 1.

use crate::reading::TakeRecords;
use account_file::{Record, put_record};
use std::alloc::AllocError;

/// Writes the lines of records. Drops have none.
#[derive(Drop)]
pub(crate) struct TextWriter {
    pub(crate) bytes: Vec<u8>,
}

impl TakeRecords for TextWriter {
    ghost use Rattle.account_convert.specs.Writing.{LeadToText};

    ghost leads = { LeadToText };

    fn take(&mut self, _record_number: u64, entry: &Record) -> Result<(), AllocError> {
        match entry {
            Record::DropFact(_) | Record::DropBan(_) => Ok(()),
            _ => put_record(entry, &mut self.bytes),
        }
    }
}
