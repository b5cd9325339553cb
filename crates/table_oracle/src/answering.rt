//! Queries, answered by all vectors.

ghost use Rattle.std.specs.Prelude.{◌≡◌, ◌≤◌, false};
ghost use Rattle.net_core.specs.Sides.{graph_of};
ghost use Rattle.claim_core.specs.Claims.{IsClaim};
ghost use Rattle.claim_core.specs.Queries.{IsQuery, bits_in};
ghost use Rattle.ask_core.specs.Answers.{IsAnswer};
ghost use Rattle.fact_tests.specs.Asking.{Decides, DecidesClaim};

use crate::splitting::refute;
use crate::vectors::meeting_vector;
use account_core::{Evidence, PairableGraphs};
use ask_core::Answer;
use claim_core::{Claim, Query, of_claim};
use cnf_core::Stop;
use fact_tests::{Decide, evidence_of};
use net_core::Graphs;
use query_core::Ledger;
use std::alloc::Global;
use std::marker::Model;
use watch_core::Stage;

/// Two circuits with as many ports, of at most 12 inputs, of which all vectors are tried. Contracts see it as the
/// circuits.
#[derive(Drop)]
pub struct AllVectors<'a> {
    graphs: &'a Graphs<'a>,
}

impl<'a> Model for AllVectors<'a> {
    ghost use Rattle.net_core.specs.Sides.{Graphs as AnyGraphs};
    ghost use Rattle.table_oracle.specs.Tables.{AreSmall};

    ghost Value = { AnyGraphs };

    ghost view = { λ a. a.graphs.now };

    ghost invariant = { λ a. AreSmall a.graphs.now };
}

impl<'a> AllVectors<'a> {
    pub(crate) fn new(graphs: &PairableGraphs<'a>) -> AllVectors<'a>
        requires small { graphs.now.first.inputs ≤ 12 }
        ensures { result ≡ graphs.now }
    {
        AllVectors {
            graphs: graphs.graphs(),
        }
    }
}

impl<'a> Decide for AllVectors<'a> {
    ghost circuits = { λ vectors. vectors };

    fn graphs(&self) -> &Graphs<'_> {
        self.graphs
    }

    fn evidence(
        &mut self,
        alloc: Global,
        claim: &Claim,
        ledger: &mut Ledger,
    ) -> Result<Evidence, Stop> {
        decide(alloc, self.graphs, claim, ledger)
    }

    fn answer_to(
        &mut self,
        alloc: Global,
        query: &Query,
        ledger: &mut Ledger,
    ) -> Result<Answer, Stop> {
        answer_to(alloc, self.graphs, query, ledger)
    }

    /// Nobody watches.
    fn at(&self, _stage: Stage) {}
}

/// A vector that meets a query, or else a log that refutes it, each line of which is charged.
fn answer_to(
    alloc: Global,
    graphs: &Graphs<'_>,
    query: &Query,
    ledger: &mut Ledger,
) -> Result<Answer, Stop>
    requires fits { IsQuery graphs.now query.now }
    requires small { bits_in graphs.now query.now ≤ 12 }
    requires unspent { ledger.old.spent ≡ false }
    ensures { Decides (IsAnswer graphs.now query.now) graphs.now query.now ledger.old ledger.new result }
{
    if let Some(vector) = meeting_vector(alloc, graphs, query)? {
        return Ok(Answer::Vector(vector));
    }
    let log = refute(alloc, graphs, query, ledger)?;
    Ok(Answer::Refuted(log))
}

/// Decides a claim by its query.
fn decide(
    alloc: Global,
    graphs: &Graphs<'_>,
    claim: &Claim,
    ledger: &mut Ledger,
) -> Result<Evidence, Stop>
    requires placed { IsClaim graphs.now claim.now }
    requires small { (graph_of graphs.now claim.now.side).inputs ≤ 12 }
    requires unspent { ledger.old.spent ≡ false }
    ensures { DecidesClaim graphs.now claim.now ledger.old ledger.new result }
{
    let query = of_claim(alloc, graphs, claim)?;
    let answer = answer_to(alloc, graphs, &query, ledger)?;
    Ok(evidence_of(alloc, graphs, claim, answer)?)
}
