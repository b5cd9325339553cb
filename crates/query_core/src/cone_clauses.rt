ghost use Rattle.std.specs.Prelude.{◌≡◌, ◌<◌, ◌≤◌, ◌^◌, All, Contains, IfOk, length};
ghost use Rattle.cnf_core.specs.Clauses.{clause_at, literals_of, variable_of};
ghost use Rattle.claim_core.specs.ConeClauses.{AreConeIds};
ghost use Rattle.claim_core.specs.Formulas.{formula_of, query_clauses};
ghost use Rattle.claim_core.specs.Queries.{IsQuery};

use crate::clauses::{clause_over, count_of, variables_of};
use crate::cones::{gates_of, query_ids};
use crate::variables::{Variables, cone_variables, left_variables};
use claim_core::Query;
use cnf_core::Clause3;
use net_core::Graphs;
use std::alloc::{AllocError, Global};
use std::marker::Model;

/// The clauses that belong to a query's two cones: that of variable 0, those of the gates that the output of their cone
/// reaches, and those of the two outputs. What meets these clauses has a vector that is asked for.
///
/// They cost by the cones and not by the circuits: a step for each gate that is reached and for each input.
pub struct ConeClauses<'a> {
    graphs: &'a Graphs<'a>,
    query: Query,
    /// The variables that stand for the gates of the left circuit, and for those of the right one's cone.
    left: Variables,
    right: Variables,
    ids: Vec<u64>,
}

impl<'a> Model for ConeClauses<'a> {
    ghost use Rattle.claim_core.specs.ConeClauses.{Coned};
    ghost use Rattle.query_core.specs.Variables.{IsConing};

    ghost Value = { Coned };

    ghost view = { λ a. record { graphs = a.graphs.now; query = a.query; ids = a.ids.items } };

    ghost invariant = { λ a. IsConing a.graphs.now a.query a.left a.right a.ids.items };
}

// By hand, so that each exit of a function has one call for it (docs/IDIOMS.md).
impl Drop for ConeClauses<'_> {
    fn drop(self) {
        let ConeClauses {
            graphs: _graphs,
            query: _query,
            left: _left,
            right: _right,
            ids: _ids,
        } = self;
    }
}

impl<'a> ConeClauses<'a> {
    /// The clauses of the cones of a query that fits two circuits.
    ///
    /// # Errors
    ///
    /// Only when out of memory.
    pub fn new(
        alloc: Global,
        graphs: &'a Graphs<'a>,
        query: &Query,
    ) -> Result<ConeClauses<'a>, AllocError>
        requires { IsQuery graphs.now query.now }
        ensures graphs { IfOk result (λ cones. cones.graphs ≡ graphs.now) }
        ensures query { IfOk result (λ cones. cones.query ≡ query.now) }
        ensures ids { IfOk result (λ cones. AreConeIds graphs.now query.now cones.ids) }
    {
        let left_gates = gates_of(alloc, graphs, &query.left)?;
        let right_gates = gates_of(alloc, graphs, &query.right)?;
        let ids = query_ids(alloc, graphs, query, &left_gates, &right_gates)?;
        let left = left_variables(graphs, query);
        let right = cone_variables(alloc, graphs, query, &right_gates)?;
        let query = query.copy()?;
        Ok(ConeClauses {
            graphs,
            query,
            left,
            right,
            ids,
        })
    }

    /// The two circuits, which the query fits.
    pub fn graphs(&self) -> &Graphs<'a>
        ensures value { result.now ≡ self.now.graphs }
        ensures fits { IsQuery self.now.graphs self.now.query }
    {
        self.graphs
    }

    /// The numbers of the clauses in the query's formula, ascending.
    pub fn ids(&self) -> &[u64]
        ensures value { result.now ≡ self.now.ids }
        ensures are { AreConeIds self.now.graphs self.now.query self.now.ids }
    {
        &self.ids
    }

    /// How many variables the query's formula has.
    pub fn variables(&self) -> u64
        ensures { result ≡ (formula_of self.now.graphs self.now.query).variables }
    {
        variables_of(self.graphs, &self.query)
    }

    /// How many clauses the query's formula has: fewer than 2^62, so that each line of a log has a number.
    pub fn count(&self) -> u64
        ensures value { result ≡ length (query_clauses self.now.graphs self.now.query) }
        ensures few { result < 2 ^ 62 }
    {
        count_of(self.graphs, &self.query)
    }

    /// The clause of a number that belongs to the cones.
    pub fn clause(&self, id: u64) -> Clause3
        requires { Contains self.now.ids id }
        ensures value { literals_of result ≡ clause_at (query_clauses self.now.graphs self.now.query) id }
        ensures some { 1 ≤ result.len }
        ensures short { result.len ≤ 3 }
        ensures variables { All (λ literal. variable_of literal < (formula_of self.now.graphs self.now.query).variables)
            (literals_of result) }
    {
        // they bring in that both graphs are sound
        let _first = self.graphs.first();
        let _second = self.graphs.second();
        clause_over(self.graphs, &self.query, &self.left, &self.right, id)
    }
}
