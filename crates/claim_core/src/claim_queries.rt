ghost use Rattle.std.specs.Prelude.{◌≡◌, IfOk};
ghost use Rattle.claim_core.specs.Claims.{IsClaim};
ghost use Rattle.claim_core.specs.ClaimQueries.{claim_query, opposite_shape};
ghost use Rattle.claim_core.specs.Queries.{IsQuery};

use crate::claims::{Claim, Shape};
use crate::feeds::Feeds;
use crate::query::{Cone, Query};
use net_core::Graphs;
use std::alloc::{AllocError, Global};

/// Whether the claim's output can be 1 where its shape's inputs have the shape's values, and 0 where they have the
/// opposite ones. The claim holds exactly where no vector meets the query.
pub fn of_claim(alloc: Global, graphs: &Graphs<'_>, claim: &Claim) -> Result<Query, AllocError>
    requires { IsClaim graphs.now claim.now }
    ensures query { IfOk result (λ query. query ≡ claim_query graphs.now claim.now) }
    ensures fits { IfOk result (IsQuery graphs.now) }
{
    // the feeds of a claim take no memory
    let _ = alloc;
    let inputs = graphs.side(claim.side).inputs();
    let left = Cone {
        side: claim.side,
        output: claim.output,
        feed: Feeds::valued(inputs, claim.shape),
    };
    let right = Cone {
        side: claim.side,
        output: claim.output,
        feed: Feeds::valued(inputs, opposite(claim.shape)),
    };
    Ok(Query {
        left,
        left_value: true,
        right,
        right_value: false,
    })
}

// The shape with the opposite values.
fn opposite(shape: Shape) -> Shape
    ensures { result ≡ opposite_shape shape }
{
    match shape {
        Shape::Up(i) => Shape::Down(i),
        Shape::Down(i) => Shape::Up(i),
        Shape::Swap { i, j, a, b } => Shape::Swap { i, j, a: !a, b: !b },
    }
}
