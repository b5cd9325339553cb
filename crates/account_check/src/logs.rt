ghost use Rattle.std.specs.Prelude.{◌≡◌, [], true, false, ◌<◌, ◌≤◌, ◌^◌, IfOk, OnOk, OnErr, Err, None, Some, length};
ghost use Rattle.circuits.specs.Matches.{HavePorts, IsMatchOfFunctions};
ghost use Rattle.claim_core.specs.MatchQueries.{IsOfMatching};
ghost use Rattle.account_check.specs.Logs.{match_reject, log_count, unproved, with_line};
ghost use Rattle.account_check.specs.Proofs.{IsLog, lines_in};
ghost use Rattle.account_check.specs.declared.reject.RecordStop.TheVariants as stop;
ghost use Rattle.account_check.specs.declared.reject.Reject.{Reject as AnyReject};

use crate::open_log::OpenLog;
use crate::reject::RecordStop;
use claim_core::of_match;
use cnf_core::LogLine;
use net_core::{Graphs, Matching};
use std::alloc::{AllocError, Global};
use std::marker::Model;

/// A match, whose logs are taken line by line. Log number c refutes the match's query of output c / 2, of the value
/// true where c is even; it ends with the empty clause.
pub(crate) struct Logs<'a> {
    graphs: &'a Graphs<'a>,
    matching: Matching,
    /// How many logs are closed.
    closed: u64,
    /// The open log, if one is left.
    log: Option<OpenLog<'a>>,
}

impl<'a> Model for Logs<'a> {
    ghost use Rattle.account_check.specs.Proofs.{MatchLogs, IsProof, lines_in};

    ghost Value = { MatchLogs };

    ghost view = { λ a. record {
      graphs = a.graphs.now;
      proof = record { matching = a.matching; closed = a.closed; taken = lines_in a.log };
    } };

    ghost invariant = { λ a. IsProof a.graphs.now a.matching a.closed a.log };
}

// By hand, so that each exit of a function has one call for it (docs/IDIOMS.md).
impl Drop for Logs<'_> {
    fn drop(self) {
        let Logs {
            graphs: _graphs,
            matching: _matching,
            closed: _closed,
            log: _log,
        } = self;
    }
}

impl<'a> Logs<'a> {
    /// No line was taken.
    pub(crate) fn new(
        alloc: Global,
        graphs: &'a Graphs<'a>,
        matching: Matching,
    ) -> Result<Logs<'a>, AllocError>
        requires { HavePorts graphs.now.first graphs.now.second matching.inputs matching.outputs }
        ensures { IfOk result (λ logs. logs ≡ record { graphs = graphs.now; proof = unproved matching }) }
    {
        // it brings in that the outputs can be counted
        let _outputs = graphs.first().outputs();
        let log = first_log(alloc, graphs, &matching)?;
        Ok(Logs {
            graphs,
            matching,
            closed: 0,
            log,
        })
    }

    /// Takes a line of the open log exactly where it is derived; the empty line closes the log. What is refused changes
    /// nothing, nor does running out of memory.
    pub(crate) fn line(&mut self, alloc: Global, line: &LogLine) -> Result<(), RecordStop>
        requires { self.old.proof.closed < log_count self.old.proof.matching }
        ensures refused { (reject : AnyReject) → result ≡ Err (stop.Reject reject)
            → Some reject ≡ match_reject self.old.graphs self.old.proof line.now }
        ensures taken { OnOk result (None ≡ match_reject self.old.graphs self.old.proof line.now) }
        ensures graphs { self.new.graphs ≡ self.old.graphs }
        ensures proof { OnOk result (self.new.proof ≡ with_line self.old.proof line.now) }
        ensures unchanged { OnErr result (self.new ≡ self.old) }
    {
        let Some(log) = &mut self.log else {
            unreachable!()
        };
        if !log.line(line)? {
            return Ok(());
        }
        let Some(log) = self.log.take() else {
            unreachable!()
        };
        self.closed += 1;
        self.log = next_log(alloc, log, &self.matching, self.closed);
        Ok(())
    }

    /// The match.
    pub(crate) fn matching(&self) -> &Matching
        ensures value { result.now ≡ self.now.proof.matching }
        ensures proved { self.now.proof.closed ≡ log_count self.now.proof.matching
            → IsMatchOfFunctions self.now.graphs.first self.now.graphs.second result.now.inputs result.now.outputs }
    {
        // they bring in that both graphs are sound
        let _first = self.graphs.first();
        let _second = self.graphs.second();
        &self.matching
    }
}

// The first log before its first line, or None where there is no output.
fn first_log<'a>(
    alloc: Global,
    graphs: &'a Graphs<'a>,
    matching: &Matching,
) -> Result<Option<OpenLog<'a>>, AllocError>
    requires { HavePorts graphs.now.first graphs.now.second matching.now.inputs matching.now.outputs }
    ensures log { IfOk result (IsLog graphs.now matching.now 0) }
    ensures lines { IfOk result (λ log. lines_in log ≡ []) }
{
    if matching.outputs.is_empty() {
        return Ok(None);
    }
    let query = of_match(alloc, graphs, matching, 0, true)?;
    Ok(Some(OpenLog::new(alloc, graphs, &query)?))
}

// Log number c, before its first line, by what the one before it used; None where there is no such log.
fn next_log<'a>(alloc: Global, log: OpenLog<'a>, matching: &Matching, c: u64) -> Option<OpenLog<'a>>
    requires ports { HavePorts log.graphs.first log.graphs.second matching.now.inputs matching.now.outputs }
    requires few { length matching.now.outputs < 2 ^ 32 }
    requires asked { IsOfMatching log.graphs.first.inputs matching.now log.query }
    requires number { c ≤ log_count matching.now }
    ensures log { IsLog log.entry.graphs matching.now c result }
    ensures lines { lines_in result ≡ [] }
{
    let output = c / 2;
    if output >= matching.outputs.len() as u64 {
        return None;
    }
    Some(log.for_query(alloc, matching, output as u32, c % 2 == 0))
}
