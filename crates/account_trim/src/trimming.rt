ghost use Rattle.std.specs.Prelude.{ℕ, ◌≡◌, ◌≢◌, ◌↔◌, Err, IfOk, OnOk, length};
ghost use Rattle.account_check.specs.declared.verdict.CheckStop.TheVariants as stop;
ghost use Rattle.account_check.specs.declared.verdict.Why.{Why as Reason};
ghost use Rattle.account_check.specs.declared.verdict.Verdict.{Verdict as AnyVerdict};
ghost use Rattle.account_check.specs.Verdicts.{IsAccepted, IsRejected};
ghost use Rattle.account_trim.specs.Lowered.{HaveLines, left_by, lower_by};
ghost use Rattle.account_trim.specs.Trims.{IsLeft, IsTrimmed, IsWrittenBy};

use crate::links::{Linked, link_all};
use crate::lowering::lower_by;
use crate::reaching::reached;
use crate::reading::records_of;
use crate::writing::put_left;
use account_check::{CheckStop, check};
use account_file::Record;
use items::Items;
use net_core::Graphs;
use std::alloc::{AllocError, Global};

/// What is left of an account, how many records it had, and how many are left.
#[derive(Debug, Drop)]
pub struct Trimmed {
    pub bytes: Vec<u8>,
    pub before: u64,
    pub after: u64,
}

/// The account without the records that its conclusion doesn't rest on. What a ban rests on are the facts and bans that
/// its step names, and what a line of a log rests on the lines that its hints name; they are numbered again. The result
/// proves what the account does, and all its records are reached.
///
/// # Errors
///
/// The first bad record of the account, exactly where it has one, or out of memory.
pub fn trim(alloc: Global, graphs: &Graphs<'_>, account: &[u8]) -> Result<Trimmed, CheckStop>
    ensures rejected { (line : ℕ) (why : Reason) → result ≢ Err stop.Memory
        → ((result ≡ Err (stop.Rejected line why)) ↔ IsRejected graphs.now account.now line why) }
    ensures accepted { OnOk result ((verdict : AnyVerdict) × IsAccepted graphs.now account.now verdict) }
    ensures trimmed { IfOk result (IsTrimmed graphs.now account.now) }
{
    let verdict = check(alloc, graphs, account)?;
    // what it proves is proved by what is left, and isn't asked for again
    let _ = verdict;
    Ok(trim_accepted(alloc, graphs, account)?)
}

// The same of an account that proves something.
fn trim_accepted(alloc: Global, graphs: &Graphs<'_>, account: &[u8]) -> Result<Trimmed, AllocError>
    requires { (verdict : AnyVerdict) × IsAccepted graphs.now account.now verdict }
    ensures { IfOk result (IsTrimmed graphs.now account.now) }
{
    let records = records_of(alloc, account)?;
    trim_records(alloc, graphs, records)
}

// What is left of the records of an account.
fn trim_records(
    alloc: Global,
    graphs: &Graphs<'_>,
    records: Items<Record>,
) -> Result<Trimmed, AllocError>
    ensures { IfOk result (IsLeft graphs.now records) }
{
    let linked = link_all(alloc, graphs, &records)?;
    let marks = reached(alloc, &linked.links)?;
    write(alloc, records, &linked, &marks)
}

// Writes the records that are marked.
fn write(
    alloc: Global,
    records: Items<Record>,
    linked: &Linked,
    marks: &[bool],
) -> Result<Trimmed, AllocError>
    requires links { length linked.now.links ≡ length records }
    requires marks { length marks.now ≡ length records }
    requires lines { HaveLines marks.now records }
    ensures { IfOk result (λ trimmed. IsWrittenBy linked.now marks.now records
        (left_by (lower_by linked.now.places marks.now) marks.now linked.now.links records) trimmed) }
{
    let lower = lower_by(alloc, &linked.places, marks)?;
    let before = records.len() as u64;
    let mut records = records.into_vec();
    let mut bytes = Vec::new(alloc);
    let after = put_left(&lower, marks, &linked.links, &mut records, &mut bytes)?;
    Ok(Trimmed {
        bytes,
        before,
        after,
    })
}
