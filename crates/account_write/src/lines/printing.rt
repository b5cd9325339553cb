//! How the lines of an account are printed.

ghost use Rattle.std.specs.Prelude.{◌≡◌, ◌++◌, ◌<◌, [], All, IsFalse, IsTrue, OnOk};
ghost use Rattle.account_file.specs.declared.record.Record.TheVariants.{End};
ghost use Rattle.account_file.specs.Spelling.{HasLine, IsWritable, record_line};
ghost use Rattle.account_write.specs.Records.{Steps, head_of, log_lines, records_left, steps_left};

use super::AccountLines;
use account_core::{Ban, Evidence, Fact};
use account_file::{Record, put_ban, put_fails, put_holds, put_log_line, put_record};
use cnf_core::{Log, LogLine};
use std::alloc::AllocError;
use text_core::Parts;

impl<'a> AccountLines<'a> {
    /// Whether all lines are printed.
    pub(crate) fn are_printed(&self) -> bool
        ensures done { IsTrue result → records_left self.now ≡ [] }
        ensures last { IsTrue result → steps_left self.now ≡ 0 }
        ensures more { IsFalse result → 0 < steps_left self.now }
    {
        self.front.is_empty()
            & self.log.is_empty()
            & self.facts.is_empty()
            & self.logs.is_empty()
            & self.bans.is_empty()
            & self.back.is_empty()
    }

    /// Takes one step: prints the next line at the end of `out`, or goes on to the next log, for which there is nothing
    /// to print. When out of memory, a first part of the line may stand in `out`.
    pub(crate) fn put_line(&mut self, out: &mut Vec<u8>) -> Result<(), AllocError>
        ensures { OnOk result (Steps self.old self.new out.old.items out.new.items) }
    {
        if let Some((entry, rest)) = self.front.split_first() {
            self.front = rest;
            return put_record(entry, out);
        }
        if let Some((line, rest)) = self.log.split_first() {
            self.log = rest;
            return put_log_line(line, out);
        }
        if let Some((fact, rest)) = self.facts.split_first() {
            self.facts = rest;
            self.log = log_lines(fact);
            return put_head(fact, out);
        }
        if let Some((log, rest)) = self.logs.split_first() {
            self.logs = rest;
            self.log = &log.lines;
            return Ok(());
        }
        if let Some((ban, rest)) = self.bans.split_first() {
            self.bans = rest;
            return put_ban(ban, out);
        }
        if let Some((entry, rest)) = self.back.split_first() {
            self.back = rest;
            return put_record(entry, out);
        }
        Ok(())
    }
}

impl<'a> Parts for AccountLines<'a> {
    ghost use Rattle.account_write.specs.Records.{lines_of, records_left, steps_left};

    ghost left = { λ lines. lines_of (records_left lines) };

    ghost steps = { λ lines. steps_left lines };

    fn is_done(&self) -> bool {
        self.are_printed()
    }

    // The line is printed by itself first, so that nothing of it stands in `out` when out of memory.
    fn put_next(&mut self, out: &mut Vec<u8>) -> Result<(), AllocError> {
        let mut line = Vec::new(*out.allocator());
        self.put_line(&mut line)?;
        out.extend_from_slice(&line)
    }
}

/// The last line of each account.
pub fn last_line() -> &'static [u8]
    ensures { result.now ≡ record_line End }
{
    b"end\n"
}

// The lines of the log of a fact that holds.
fn log_lines(fact: &Fact) -> &[LogLine]
    ensures { result.now ≡ log_lines fact.now.evidence }
{
    match &fact.evidence {
        Evidence::Fails(_) => &[],
        Evidence::Holds(log) => &log.lines,
    }
}

// Prints the line of a fact, which the lines of its log follow.
fn put_head(fact: &Fact, out: &mut Vec<u8>) -> Result<(), AllocError>
    ensures line { OnOk result (out.new.items
        ≡ out.old.items ++ record_line (head_of fact.now.claim fact.now.evidence)) }
    ensures writable { OnOk result (IsWritable (head_of fact.now.claim fact.now.evidence)) }
{
    match &fact.evidence {
        Evidence::Fails(bits) => put_fails(fact.claim, bits, out),
        Evidence::Holds(_) => put_holds(fact.claim, out),
    }
}
