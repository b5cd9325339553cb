//! Netlists put in order, by the levels of their definitions.

ghost use Rattle.std.specs.Prelude.{ℕ, ◌≡◌, ◌<◌, ◌≤◌, length, IfOk};
ghost use Rattle.circuits.specs.Expansion.{gates_in};
ghost use Rattle.circuits.specs.Functions.{Computes};
ghost use Rattle.circuits.specs.Levels.{IsAcyclic, IsFirstLooped, IsOrderOf};
ghost use Rattle.net_core.specs.Graph.{IsGraph};
ghost use Rattle.net_core.specs.Orders.{IsSortedOrder};
ghost use Rattle.net_core.specs.Limits.{most_gates};

use crate::counting::gate_count;
use crate::expanding::expand;
use crate::graph::Graph;
use crate::levels::{Placed, find_levels};
use crate::limits::MAX_GATES;
use crate::order_fault::OrderFault;
use crate::plain_net::PlainNet;
use std::alloc::{AllocError, Global};

/// The graph of a netlist: its definitions, expanded to gates, by level, and those of one level by
/// position. The constant and the inputs have level 0, and a definition is one level above the highest
/// signal that it names (levelization, as in textbooks of logic synthesis). A definition on a cycle or
/// above one has no level, and the first of these is refused; then more than [`MAX_GATES`] gates are refused.
///
/// An AND is one gate. Of a cover each row is the AND of its literals, left to right, and the rows are
/// joined one by one by OR, each after its own gates, without simplification; so a cover may be stood for
/// by a literal of the constant or of a signal before it.
pub fn order(alloc: Global, net: &PlainNet) -> Result<Graph, OrderFault>
    ensures graph { IfOk result (λ graph. IsOrderOf net.now graph) }
    ensures sound { IfOk result IsGraph }
    ensures computes { IfOk result (λ graph. Computes graph net.now) }
    ensures acyclic { IfOk result (λ _. IsAcyclic net.now) }
    ensures few { IfOk result (λ graph. length graph.gates ≤ most_gates) }
    ensures cycle { (d : ℕ) → result ≡ Err (OrderFault.Cycle d) → IsFirstLooped net.now d }
    ensures too_many { result ≡ Err OrderFault.TooManyGates
        → IsAcyclic net.now × (most_gates < gates_in net.now) }
{
    let placed = find_levels(alloc, net)?;
    // After the levels, since a cycle is the fault that comes first; and before any gate is made, so that
    // what is refused takes no memory for gates.
    if gate_count(net) > MAX_GATES as usize {
        return Err(OrderFault::TooManyGates);
    }
    let order = sorted_positions(alloc, placed)?;
    let graph = expand(alloc, net, &order)?;
    Ok(graph)
}

/// The positions, by level, and those of one level by position.
fn sorted_positions(alloc: Global, placed: Vec<Placed>) -> Result<Vec<u32>, AllocError>
    ensures { IfOk result (λ order. IsSortedOrder placed.items order.items) }
{
    let mut sorted = placed;
    sorted.sort()?;
    sorted.iter().map(|entry| entry.position).collect(alloc)
}
