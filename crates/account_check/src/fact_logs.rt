//! The logs of claims that hold, one after the other.

ghost use Rattle.std.specs.Prelude.{◌≡◌, IfOk};
ghost use Rattle.claim_core.specs.Claims.{IsClaim};
ghost use Rattle.account_check.specs.Logs.{unshown};
ghost use Rattle.account_check.specs.Proofs.{IsLastOf};

use crate::fact_log::FactLog;
use claim_core::Claim;
use net_core::{Graphs, Side};
use std::alloc::{AllocError, Global};
use std::marker::Model;

/// Opens the logs of two circuits' claims. What a log used serves the next one of its circuit: room for the value of
/// each signal, and the cone of the output. Contracts see the two circuits.
pub(crate) struct FactLogs<'a> {
    graphs: &'a Graphs<'a>,
    /// The last log of a claim of either circuit.
    first: Option<FactLog<'a>>,
    second: Option<FactLog<'a>>,
}

impl<'a> Model for FactLogs<'a> {
    ghost use Rattle.net_core.specs.Sides.{Graphs as TwoNets};
    ghost use Rattle.account_check.specs.Proofs.{AreLastLogs};

    ghost Value = { TwoNets };

    ghost view = { λ a. a.graphs.now };

    ghost invariant = { λ a. AreLastLogs a.graphs.now a.first a.second };
}

// By hand, so that each exit of a function has one call for it (docs/IDIOMS.md).
impl Drop for FactLogs<'_> {
    fn drop(self) {
        let FactLogs {
            graphs: _graphs,
            first: _first,
            second: _second,
        } = self;
    }
}

impl<'a> FactLogs<'a> {
    /// No log was opened.
    pub(crate) fn new(graphs: &'a Graphs<'a>) -> FactLogs<'a>
        ensures { result ≡ graphs.now }
    {
        FactLogs {
            graphs,
            first: None,
            second: None,
        }
    }

    /// The log of a claim, of which no line was taken.
    pub(crate) fn open(&mut self, alloc: Global, claim: &Claim) -> Result<FactLog<'a>, AllocError>
        requires { IsClaim self.old claim.now }
        ensures same { self.new ≡ self.old }
        ensures log { IfOk result (λ log. log ≡ record { graphs = self.old; fact = unshown claim.now }) }
    {
        let last = self.take_last(claim.side);
        next_log(alloc, self.graphs, last, claim)
    }

    // The last log of a circuit's claims, if there is one.
    fn take_last(&mut self, side: Side) -> Option<FactLog<'a>>
        ensures same { self.new ≡ self.old }
        ensures last { IsLastOf self.old side result }
    {
        match side {
            Side::First => self.first.take(),
            Side::Second => self.second.take(),
        }
    }

    /// Takes a log that isn't open any more.
    pub(crate) fn close(&mut self, log: FactLog<'a>)
        requires { log.graphs ≡ self.old }
        ensures { self.new ≡ self.old }
    {
        match log.claim().side {
            Side::First => self.first = Some(log),
            Side::Second => self.second = Some(log),
        }
    }
}

// The log of a claim, by what the last one of its circuit used.
fn next_log<'a>(
    alloc: Global,
    graphs: &'a Graphs<'a>,
    last: Option<FactLog<'a>>,
    claim: &Claim,
) -> Result<FactLog<'a>, AllocError>
    requires last { IsLastOf graphs.now claim.now.side last }
    requires claim { IsClaim graphs.now claim.now }
    ensures { IfOk result (λ log. log ≡ record { graphs = graphs.now; fact = unshown claim.now }) }
{
    match last {
        Some(log) => log.for_claim(alloc, claim),
        None => FactLog::new(alloc, graphs, claim),
    }
}
