//! The vector that a model has.

ghost use Rattle.std.specs.Prelude.{◌≡◌, IfOk, length};
ghost use Rattle.claim_core.specs.Queries.{IsQuery, bits_in, vector_in};
ghost use Rattle.claim_core.specs.Formulas.{formula_of};
ghost use Rattle.claim_core.specs.ConeClauses.{MeetsCones};
ghost use Rattle.ask_core.specs.Answers.{IsVector};

use bit_list::Marks;
use claim_core::Query;
use items::Items;
use net_core::Graphs;
use std::alloc::{AllocError, Global};

/// The bits of the input variables, where the values meet the clauses of a query's cones.
pub(crate) fn vector_of(
    alloc: Global,
    graphs: &Graphs<'_>,
    query: &Query,
    values: &Marks,
) -> Result<Items<bool>, AllocError>
    requires fits { IsQuery graphs.now query.now }
    requires variables { length values.now ≡ (formula_of graphs.now query.now).variables }
    requires meets { MeetsCones graphs.now query.now values.now }
    ensures { IfOk result (IsVector graphs.now query.now) }
{
    // the gates of a graph are in order, and its ports fewer than 2^32
    let _first = graphs.first();
    let _second = graphs.second();
    let inputs = query.left.feed.len();
    let mut vector = Items::new(alloc);
    for input in 0..inputs {
        vector.push(values.has(1 + input))?;
    }
    Ok(vector)
}
