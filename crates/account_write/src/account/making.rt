//! How the account of each answer is made, and its lines.

ghost use Rattle.std.specs.Prelude.{◌≡◌, ◌++◌, [], ◌∷◌, ◌<◌, ◌^◌, All, IfOk, OnOk, length};
ghost use Rattle.account_file.specs.Spelling.{HasLine, IsWritable};
ghost use Rattle.account_file.specs.declared.record.Record.TheVariants as AnyRecord;
ghost use Rattle.account_core.specs.declared.conclusion.Conclusion.TheVariants as AnyConclusion;
ghost use Rattle.account_write.specs.Records.{match_records, none_ports_records, pairs_from, pairs_of_matching};
ghost use Rattle.account_write.specs.Records.{records_left, records_of, refusal_records};

use super::Account;
use crate::lines::AccountLines;
use account_core::{Ban, Conclusion, Fact};
use account_file::Record;
use circuits::{Pair, PortKind};
use cnf_core::Log;
use items::Items;
use net_core::Matching;
use std::alloc::{AllocError, Global};

impl Account {
    /// The account of a match: the header, the pairs of all ports, and the lines of the logs, two for each output, in
    /// order.
    ///
    /// # Errors
    ///
    /// Only when out of memory, here and below.
    pub fn of_match(
        alloc: Global,
        matching: &Matching,
        logs: Items<Log>,
    ) -> Result<Account, AllocError>
        requires inputs { length matching.now.inputs < 2 ^ 32 }
        requires outputs { length matching.now.outputs < 2 ^ 32 }
        ensures records { IfOk result (λ account. records_of account ≡ match_records matching.now logs) }
        ensures writable { IfOk result (λ account. All IsWritable (records_of account)) }
    {
        let account = Account {
            front: front_of_match(alloc, matching)?,
            facts: Items::new(alloc),
            logs,
            bans: Items::new(alloc),
            back: Items::new(alloc),
        };
        account.try_lines(alloc)?;
        Ok(account)
    }

    /// The account that there is no match: the header, all facts, each that holds with the lines of its log, all bans,
    /// and the number of the ban that has no pairs.
    pub fn of_refusal(
        alloc: Global,
        facts: Items<Fact>,
        bans: Items<Ban>,
        number: u64,
    ) -> Result<Account, AllocError>
        ensures records { IfOk result (λ account. records_of account ≡ refusal_records facts bans number) }
        ensures writable { IfOk result (λ account. All IsWritable (records_of account)) }
    {
        let account = Account {
            front: one(alloc, Record::Header)?,
            facts,
            logs: Items::new(alloc),
            bans,
            back: one(alloc, Record::Conclusion(Conclusion::NoneBan(number)))?,
        };
        account.try_lines(alloc)?;
        Ok(account)
    }

    /// The account that there is no match, since the circuits differ in their numbers of ports: the header, and that
    /// they do.
    pub fn of_other_ports(alloc: Global) -> Result<Account, AllocError>
        ensures records { IfOk result (λ account. records_of account ≡ none_ports_records) }
        ensures writable { IfOk result (λ account. All IsWritable (records_of account)) }
    {
        let account = Account {
            front: one(alloc, Record::Header)?,
            facts: Items::new(alloc),
            logs: Items::new(alloc),
            bans: Items::new(alloc),
            back: one(alloc, Record::Conclusion(Conclusion::NonePorts))?,
        };
        account.try_lines(alloc)?;
        Ok(account)
    }

    /// The account's lines, none of which is printed.
    pub fn lines(&self) -> AccountLines<'_>
        ensures { records_left result ≡ records_of self.now }
    {
        AccountLines {
            front: &self.front,
            log: &[],
            facts: &self.facts,
            logs: &self.logs,
            bans: &self.bans,
            back: &self.back,
        }
    }

    // Prints each line once, so that none is found that can't be printed when a file is written.
    fn try_lines(&self, alloc: Global) -> Result<(), AllocError>
        ensures { OnOk result (All IsWritable (records_of self.now)) }
    {
        let mut lines = self.lines();
        let mut line = Vec::new(alloc);
        while !lines.are_printed() {
            line.clear();
            lines.put_line(&mut line)?;
        }
        Ok(())
    }
}

// A list of one record.
fn one(alloc: Global, entry: Record) -> Result<Items<Record>, AllocError>
    ensures { IfOk result (λ entries. entries ≡ entry ∷ []) }
{
    let mut entries = Items::new(alloc);
    entries.push(entry)?;
    Ok(entries)
}

// The header, and the pairs of a match.
fn front_of_match(alloc: Global, matching: &Matching) -> Result<Items<Record>, AllocError>
    requires inputs { length matching.now.inputs < 2 ^ 32 }
    requires outputs { length matching.now.outputs < 2 ^ 32 }
    ensures { IfOk result (λ entries. entries ≡ AnyRecord.Header
        ∷ AnyRecord.Conclusion (AnyConclusion.Match (pairs_of_matching matching.now)) ∷ []) }
{
    let pairs = pairs_of(alloc, matching)?;
    let mut entries = one(alloc, Record::Header)?;
    entries.push(Record::Conclusion(Conclusion::Match(pairs)))?;
    Ok(entries)
}

// The pairs of a matching.
fn pairs_of(alloc: Global, matching: &Matching) -> Result<Items<Pair>, AllocError>
    requires inputs { length matching.now.inputs < 2 ^ 32 }
    requires outputs { length matching.now.outputs < 2 ^ 32 }
    ensures { IfOk result (λ pairs. pairs ≡ pairs_of_matching matching.now) }
{
    let mut pairs = Items::new(alloc);
    add_pairs(PortKind::Input, &matching.inputs, &mut pairs)?;
    add_pairs(PortKind::Output, &matching.outputs, &mut pairs)?;
    Ok(pairs)
}

fn add_pairs(
    kind: PortKind,
    goes: &[(u32, bool)],
    pairs: &mut Items<Pair>,
) -> Result<(), AllocError>
    requires few { length goes.now < 2 ^ 32 }
    ensures { OnOk result (pairs.new ≡ pairs.old ++ pairs_from kind 0 goes.now) }
{
    for from in 0..goes.len() as u32 {
        let (to, flip) = goes[from as usize];
        pairs.push(Pair {
            kind,
            from,
            to,
            flip,
        })?;
    }
    Ok(())
}
