//! The records of an account.

ghost use Rattle.std.specs.Prelude.{ℕ, ◌≡◌, ◌<◌, List, Ok, IfOk, OnOk, length, false, true};
ghost use Rattle.account_file.specs.declared.record.Record.{Record as AnyRecord};
ghost use Rattle.account_file.specs.Accounts.{IsAccountOf};
ghost use Rattle.account_trim.specs.Reads.{IsReading};

use account_file::{FileStop, Reader, Record};
use items::Items;
use std::alloc::{AllocError, Global};

/// The records of an account that has no fault of form.
pub(crate) fn records_of(alloc: Global, account: &[u8]) -> Result<Items<Record>, AllocError>
    requires { (records : List AnyRecord) × IsAccountOf account.now records }
    ensures { IfOk result (λ records. IsAccountOf account.now records) }
{
    let mut reader = Reader::new(alloc);
    reader.feed(account)?;
    reader.finish();
    let mut records = Items::new(alloc);
    while read_next(alloc, &mut reader, &mut records)? {}
    Ok(records)
}

// Reads the next record. Answers whether there was one.
fn read_next(
    alloc: Global,
    reader: &mut Reader,
    records: &mut Items<Record>,
) -> Result<bool, AllocError>
    requires { (bytes : List ℕ) × (all : List AnyRecord) × IsAccountOf bytes all
        × IsReading bytes reader.old records.old }
    ensures reads { (bytes : List ℕ) → IsReading bytes reader.old records.old
        → OnOk result (IsReading bytes reader.new records.new) }
    ensures whole { (bytes : List ℕ) → IsReading bytes reader.old records.old
        → result ≡ Ok false → IsAccountOf bytes records.new }
    ensures shrinks { result ≡ Ok true → length reader.new.left < length reader.old.left }
{
    match reader.next(alloc) {
        Ok(Some(entry)) => {
            records.push(entry)?;
            Ok(true)
        }
        Ok(None) => Ok(false),
        Err(FileStop::Fault(_)) => unreachable!(),
        Err(FileStop::Memory) => Err(AllocError),
    }
}
