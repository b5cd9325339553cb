ghost use Rattle.std.specs.Prelude.{◌≡◌, ◌<◌, IfOk, length};
ghost use Rattle.circuits.specs.Matches.{HavePorts};
ghost use Rattle.claim_core.specs.Queries.{IsQuery};
ghost use Rattle.claim_core.specs.MatchQueries.{match_query, IsOfMatching};

use crate::clauses::{clause_over, count_of, variables_of};
use crate::variables::{Variables, left_variables, right_variables};
use claim_core::Query;
use cnf_core::{Base, Clause3};
use net_core::{Graphs, Matching};
use std::alloc::{AllocError, Global};
use std::marker::Model;

/// The clauses of a query. An assignment that meets them has, as the bits of its variables 1 to n, a vector that is
/// asked for, and each such vector is that of an assignment.
pub struct QueryBase<'a> {
    graphs: &'a Graphs<'a>,
    query: Query,
    /// The variables that stand for the gates of the left circuit, and of the right one.
    left: Variables,
    right: Variables,
}

impl<'a> Model for QueryBase<'a> {
    ghost use Rattle.claim_core.specs.Formulas.{Asking};
    ghost use Rattle.query_core.specs.Variables.{IsAsking};

    ghost Value = { Asking };

    ghost view = { λ a. record { graphs = a.graphs.now; query = a.query } };

    ghost invariant = { λ a. IsAsking a.graphs.now a.query a.left a.right };
}

// By hand, so that each exit of a function has one call for it (docs/IDIOMS.md).
impl Drop for QueryBase<'_> {
    fn drop(self) {
        let QueryBase {
            graphs: _graphs,
            query: _query,
            left: _left,
            right: _right,
        } = self;
    }
}

impl<'a> QueryBase<'a> {
    /// The clauses of a query that fits two circuits. Where both its cones are of one circuit it takes a byte for each
    /// of the circuit's signals.
    pub fn new(
        alloc: Global,
        graphs: &'a Graphs<'a>,
        query: &Query,
    ) -> Result<QueryBase<'a>, AllocError>
        requires { IsQuery graphs.now query.now }
        ensures { IfOk result (λ base. base ≡ record { graphs = graphs.now; query = query.now }) }
    {
        let left = left_variables(graphs, query);
        let right = right_variables(alloc, graphs, query)?;
        let query = query.copy()?;
        Ok(QueryBase {
            graphs,
            query,
            left,
            right,
        })
    }

    /// Asks about another output and value of the same matching. Only the last two clauses become others, and it takes
    /// no memory.
    pub fn set_output(&mut self, matching: &Matching, output: u32, value: bool)
        requires ports { HavePorts self.old.graphs.first self.old.graphs.second
            matching.now.inputs matching.now.outputs }
        requires output { output < length self.old.graphs.first.outputs }
        requires asked { IsOfMatching self.old.graphs.first.inputs matching.now self.old.query }
        ensures { self.new ≡ record self.old {
          query = match_query self.old.graphs.first.inputs matching.now output value;
        } }
    {
        let (place, sign) = matching.outputs[output as usize];
        self.query.left.output = output;
        self.query.left_value = value;
        self.query.right.output = place;
        self.query.right_value = !value != sign;
    }
}

impl<'a> Base for QueryBase<'a> {
    ghost use Rattle.claim_core.specs.Formulas.{formula_of};

    ghost formula = { λ a. formula_of a.graphs a.query };

    fn variables(&self) -> u64 {
        variables_of(self.graphs, &self.query)
    }

    fn count(&self) -> u64 {
        count_of(self.graphs, &self.query)
    }

    fn clause(&self, id: u64) -> Clause3 {
        clause_over(self.graphs, &self.query, &self.left, &self.right, id)
    }
}
