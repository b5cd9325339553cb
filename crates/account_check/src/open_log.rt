ghost use Rattle.std.specs.Prelude.{◌≡◌, ◌<◌, ◌++◌, ◌∷◌, [], true, IfOk, OnOk, OnErr, Ok, Err, None, Some, length};
ghost use Rattle.circuits.specs.Matches.{HavePorts};
ghost use Rattle.cnf_core.specs.Derivations.{is_empty, line_fault};
ghost use Rattle.claim_core.specs.Formulas.{formula_of, IsRefuted};
ghost use Rattle.claim_core.specs.MatchQueries.{match_query, IsOfMatching};
ghost use Rattle.claim_core.specs.Queries.{IsQuery};
ghost use Rattle.account_check.specs.Logs.{refutation_of};
ghost use Rattle.account_check.specs.declared.reject.RecordStop.TheVariants as stop;
ghost use Rattle.account_check.specs.declared.reject.Reject.{Reject as AnyReject};

use crate::reject::RecordStop;
use claim_core::Query;
use cnf_core::LogLine;
use net_core::{Graphs, Matching};
use query_core::QueryBase;
use refute_check::Refuter;
use std::alloc::{AllocError, Global};
use std::marker::Model;

/// A log of a query, whose lines are taken one by one. It refutes the query once its empty line is taken.
pub(crate) struct OpenLog<'a> {
    refuter: Refuter<QueryBase<'a>>,
}

impl<'a> Model for OpenLog<'a> {
    ghost use Rattle.account_check.specs.Proofs.{LogSoFar, IsLogSoFar};

    ghost Value = { LogSoFar };

    ghost view = { λ a. record {
      graphs = a.refuter.base.graphs;
      query = a.refuter.base.query;
      taken = a.refuter.taken;
    } };

    ghost invariant = { λ a. IsLogSoFar a.refuter.base.graphs a.refuter.base.query a.refuter.taken };
}

// By hand, so that each exit of a function has one call for it (docs/IDIOMS.md).
impl Drop for OpenLog<'_> {
    fn drop(self) {
        let OpenLog { refuter: _refuter } = self;
    }
}

impl<'a> OpenLog<'a> {
    /// No line was taken.
    pub(crate) fn new(
        alloc: Global,
        graphs: &'a Graphs<'a>,
        query: &Query,
    ) -> Result<OpenLog<'a>, AllocError>
        requires { IsQuery graphs.now query.now }
        ensures { IfOk result (λ log. log ≡ record { graphs = graphs.now; query = query.now; taken = [] }) }
    {
        let base = QueryBase::new(alloc, graphs, query)?;
        Ok(OpenLog {
            refuter: Refuter::new(alloc, base)?,
        })
    }

    /// A log of another output and value of the same matching, of which no line was taken. What the last log used
    /// serves it, so that it takes no memory.
    pub(crate) fn for_query(
        self,
        alloc: Global,
        matching: &Matching,
        output: u32,
        value: bool,
    ) -> OpenLog<'a>
        requires ports { HavePorts self.graphs.first self.graphs.second matching.now.inputs matching.now.outputs }
        requires output { output < length self.graphs.first.outputs }
        requires asked { IsOfMatching self.graphs.first.inputs matching.now self.query }
        ensures { result ≡ record {
          graphs = self.entry.graphs;
          query = match_query self.entry.graphs.first.inputs matching.now output value;
          taken = [];
        } }
    {
        let OpenLog { refuter } = self;
        let (mut base, values) = refuter.into_parts();
        base.set_output(matching, output, value);
        OpenLog {
            refuter: Refuter::with_values(alloc, base, values),
        }
    }

    /// Takes a line exactly where it is derived, and says whether it is the empty one: then the query is refuted. What
    /// is refused changes nothing, nor does running out of memory.
    pub(crate) fn line(&mut self, line: &LogLine) -> Result<bool, RecordStop>
        ensures refused { (reject : AnyReject) → result ≡ Err (stop.Reject reject)
            → Some reject ≡ refutation_of
            (line_fault (formula_of self.old.graphs self.old.query) self.old.taken line.now) }
        ensures derived { OnOk result
            (line_fault (formula_of self.old.graphs self.old.query) self.old.taken line.now ≡ None) }
        ensures closed { IfOk result (λ closed. closed ≡ is_empty line.now.clause) }
        ensures refuted { result ≡ Ok true → IsRefuted self.old.graphs self.old.query }
        ensures taken { OnOk result
            (self.new ≡ record self.old { taken = self.old.taken ++ line.now.clause ∷ [] }) }
        ensures unchanged { OnErr result (self.new ≡ self.old) }
    {
        self.refuter.reserve(line.clause.len())?;
        self.refuter.line(line)?;
        Ok(self.refuter.closed())
    }
}
