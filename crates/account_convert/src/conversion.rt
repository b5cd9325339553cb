//! An account in the other version.

ghost use Rattle.std.specs.Prelude.{◌≡◌, ◌≢◌, ◌↔◌, ℕ, false, true, Err, IfErr, IfOk};
ghost use Rattle.account_file.specs.declared.fault.RecordFault.{RecordFault as AnyFault};
ghost use Rattle.account_file.specs.Binary.{is_binary};
ghost use Rattle.account_convert.specs.declared.stop.ConvertStop.TheVariants as stop;
ghost use Rattle.account_convert.specs.Conversions.{IsConverted, IsFaultAt};
ghost use Rattle.account_convert.specs.Reading.{IsStop};
ghost use Rattle.account_convert.specs.AccountDues.{AreDuesOf, AreMentionsOf};

use crate::binary_writer::BinaryWriter;
use crate::dues::{DueLeft, Dues, dues_by};
use crate::mentions::Mentions;
use crate::reading::read_all;
use crate::stop::ConvertStop;
use crate::text_writer::TextWriter;
use account_file::is_binary;
use items::Items;
use std::alloc::Global;

/// An account in the other version.
#[derive(Debug, Drop)]
pub struct Converted {
    /// The version that it had.
    pub from: u8,
    /// The version that it has.
    pub to: u8,
    /// How many records it had.
    pub records: u64,
    /// The account's bytes in that version.
    pub bytes: Items<u8>,
}

/// An account in the other version. From version 1 to 2 the records are the same, and up to the conclusion each is
/// followed by drops of those facts, ascending, and then of those bans, ascending, that were given and that no later
/// record names, and that weren't dropped before. From version 2 to 1 the records are the same without drops. Of the
/// records one at a time is in memory, beside the bytes of both accounts.
///
/// # Errors
///
/// The account's first fault of form, exactly where it has one, unless out of memory.
pub fn convert(alloc: Global, account: &[u8]) -> Result<Converted, ConvertStop>
    ensures converted { IfOk result (IsConverted account.now) }
    ensures fault { (record_number : ℕ) (fault : AnyFault) → result ≢ Err stop.Memory
        → ((result ≡ Err (stop.Fault record_number fault)) ↔ IsFaultAt account.now record_number fault) }
{
    convert_by(alloc, account)
}

// An account in the other version, or why it isn't converted.
fn convert_by(alloc: Global, account: &[u8]) -> Result<Converted, ConvertStop>
    ensures converted { IfOk result (IsConverted account.now) }
    ensures stop { IfErr result (IsStop account.now) }
{
    if is_binary(account) {
        return to_text(alloc, account);
    }
    to_bytes(alloc, account)
}

// An account of version 2 in version 1.
fn to_text(alloc: Global, account: &[u8]) -> Result<Converted, ConvertStop>
    requires { is_binary account.now ≡ true }
    ensures converted { IfOk result (IsConverted account.now) }
    ensures stop { IfErr result (IsStop account.now) }
{
    let mut writer = TextWriter {
        bytes: Vec::new(alloc),
    };
    let records = read_all(alloc, account, &mut writer)?;
    let TextWriter { bytes } = writer;
    Ok(Converted {
        from: 2,
        to: 1,
        records,
        bytes: Items::from_vec(bytes),
    })
}

// An account of version 1 in version 2.
fn to_bytes(alloc: Global, account: &[u8]) -> Result<Converted, ConvertStop>
    requires { is_binary account.now ≡ false }
    ensures converted { IfOk result (IsConverted account.now) }
    ensures stop { IfErr result (IsStop account.now) }
{
    let dues = dues_of(alloc, account)?;
    write_with(alloc, account, &dues)
}

// What is due to be dropped after the records of an account.
fn dues_of(alloc: Global, account: &[u8]) -> Result<Dues, ConvertStop>
    ensures dues { IfOk result (AreDuesOf account.now) }
    ensures stop { IfErr result (IsStop account.now) }
{
    let mentions = mentions_in(alloc, account)?;
    Ok(dues_by(alloc, &mentions)?)
}

// Which record of an account is the last to give or to name what.
fn mentions_in(alloc: Global, account: &[u8]) -> Result<Mentions, ConvertStop>
    ensures mentions { IfOk result (AreMentionsOf account.now) }
    ensures stop { IfErr result (IsStop account.now) }
{
    let mut mentions = Mentions {
        facts: Items::new(alloc),
        bans: Items::new(alloc),
    };
    read_all(alloc, account, &mut mentions)?;
    Ok(mentions)
}

// The records of an account of version 1 as bytes, with the drops that are due.
fn write_with(alloc: Global, account: &[u8], dues: &Dues) -> Result<Converted, ConvertStop>
    requires text { is_binary account.now ≡ false }
    requires dues { AreDuesOf account.now dues.now }
    ensures converted { IfOk result (IsConverted account.now) }
    ensures stop { IfErr result (IsStop account.now) }
{
    let mut writer = BinaryWriter {
        concluded: false,
        facts: DueLeft::new(&dues.facts),
        bans: DueLeft::new(&dues.bans),
        bytes: Vec::new(alloc),
    };
    let records = read_all(alloc, account, &mut writer)?;
    let BinaryWriter { bytes, .. } = writer;
    Ok(Converted {
        from: 1,
        to: 2,
        records,
        bytes: Items::from_vec(bytes),
    })
}
