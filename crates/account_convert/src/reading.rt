//! The records of a whole account, one after another: each is read, taken and let go.

ghost use Rattle.std.specs.Prelude.{◌≡◌, ◌+◌, ◌<◌, ◌++◌, ◌∷◌, [], ℕ, List, Ok, true, OnOk, IfOk, IfErr, length};
ghost use Rattle.account_file.specs.declared.record.Record.{Record as Entry};
ghost use Rattle.account_convert.specs.Reading.{Goes, GoesThrough, HasLed, IsReading, IsStop};

use crate::stop::ConvertStop;
use account_file::{FileStop, Reader, Record};
use std::alloc::{AllocError, Global};

/// What takes the records of an account, one after another.
pub(crate) trait TakeRecords {
    /// These records lead from one state to another.
    ghost leads: { Self → List Entry → Self → Type 0 };

    /// Takes the next record, which has this number, from 1.
    fn take(&mut self, record_number: u64, entry: &Record) -> Result<(), AllocError>
        ensures { (first : Self) (before : List Entry) → leads first before self.old → record_number ≡ length before + 1
            → OnOk result (leads first (before ++ entry.now ∷ []) self.new) };
}

/// Has all records of an account taken, and says how many there are; or the account's first fault of form.
pub(crate) fn read_all<T: TakeRecords>(
    alloc: Global,
    account: &[u8],
    taker: &mut T,
) -> Result<u64, ConvertStop>
    requires { T.leads taker.old [] taker.old }
    ensures led { IfOk result (HasLed T.leads account.now taker.old taker.new) }
    ensures stop { IfErr result (IsStop account.now) }
{
    let mut reader = Reader::new(alloc);
    reader.feed(account)?;
    reader.finish();
    take_all(alloc, &mut reader, taker)?;
    Ok(reader.line())
}

// Has all records taken that are left.
fn take_all<T: TakeRecords>(
    alloc: Global,
    reader: &mut Reader,
    taker: &mut T,
) -> Result<(), ConvertStop>
    requires { (account : List ℕ) × (first : T) × IsReading T.leads account first reader.old taker.old }
    ensures { (account : List ℕ) (first : T) → IsReading T.leads account first reader.old taker.old
        → GoesThrough T.leads account first reader.new.line taker.new result }
{
    while take_next(alloc, reader, taker)? {}
    Ok(())
}

// Has the next record taken, and says whether there was one.
fn take_next<T: TakeRecords>(
    alloc: Global,
    reader: &mut Reader,
    taker: &mut T,
) -> Result<bool, ConvertStop>
    ensures goes { (account : List ℕ) (first : T) → IsReading T.leads account first reader.old taker.old
        → Goes T.leads account first reader.new taker.new result }
    ensures shrinks { result ≡ Ok true → length reader.new.left < length reader.old.left }
{
    let entry = match reader.next(alloc) {
        Ok(Some(entry)) => entry,
        Ok(None) => return Ok(false),
        Err(FileStop::Memory) => return Err(ConvertStop::Memory),
        Err(FileStop::Fault(fault)) => {
            let record_number = reader.line();
            return Err(ConvertStop::Fault {
                record_number,
                fault,
            });
        }
    };
    match taker.take(reader.line(), &entry) {
        Ok(()) => Ok(true),
        Err(_) => Err(ConvertStop::Memory),
    }
}
