//! The numbers of the clauses that belong to a query's cones.

ghost use Rattle.std.specs.Prelude.{◌≡◌, ◌+◌, ◌*◌, ◌^◌, ◌<◌, ◌++◌, IfOk, OnOk, length};
ghost use Rattle.claim_core.specs.Queries.{IsQuery, circuit_of};
ghost use Rattle.claim_core.specs.ConeClauses.{AreConeIds, AreReached, gate_ids};

use claim_core::{Cone, Query};
use net_core::Graphs;
use std::alloc::{AllocError, Global};

/// The gates that a cone's output reaches, ascending.
pub(crate) fn gates_of(
    alloc: Global,
    graphs: &Graphs<'_>,
    cone: &Cone,
) -> Result<Vec<u32>, AllocError>
    requires { cone.now.output < length (circuit_of graphs.now cone.now).outputs }
    ensures { IfOk result (λ gates. AreReached (circuit_of graphs.now cone.now) cone.now.output gates.items) }
{
    let gates = graphs.side(cone.side).cone(alloc, cone.output)?;
    Ok(gates)
}

/// The numbers for a query of two circuits, whose outputs reach these gates.
pub(crate) fn query_ids(
    alloc: Global,
    graphs: &Graphs<'_>,
    query: &Query,
    left_gates: &[u32],
    right_gates: &[u32],
) -> Result<Vec<u64>, AllocError>
    requires fits { IsQuery graphs.now query.now }
    requires left { AreReached (circuit_of graphs.now query.now.left) query.now.left.output left_gates.now }
    requires right { AreReached (circuit_of graphs.now query.now.right) query.now.right.output right_gates.now }
    ensures { IfOk result (λ ids. AreConeIds graphs.now query.now ids.items) }
{
    let left = graphs.side(query.left.side);
    let right = graphs.side(query.right.side);
    let after_left = 1 + 3 * left.gates().len() as u64;
    let after_right = after_left + 3 * right.gates().len() as u64;
    let mut ids = Vec::new(alloc);
    ids.push(0)?;
    push_gate_ids(&mut ids, 1, left_gates)?;
    push_gate_ids(&mut ids, after_left, right_gates)?;
    ids.push(after_right)?;
    ids.push(after_right + 1)?;
    Ok(ids)
}

// Adds the three numbers of each of these gates' clauses, where those of gate 0 are from `first` on.
fn push_gate_ids(ids: &mut Vec<u64>, first: u64, gates: &[u32]) -> Result<(), AllocError>
    requires { first < 2 ^ 62 }
    ensures { OnOk result (ids.new.items ≡ ids.old.items ++ gate_ids first gates.now) }
{
    for gate in gates.iter() {
        let id = first + 3 * u64::from(*gate);
        ids.extend_from_slice(&[id, id + 1, id + 2])?;
    }
    Ok(())
}
