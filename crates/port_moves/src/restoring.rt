//! A netlist with the ports of another one that it matches.

ghost use Rattle.std.specs.Prelude.{◌≡◌, IfOk, length};
ghost use Rattle.circuits.specs.Bijections.{IsSignedBijection};
ghost use Rattle.circuits.specs.Matches.{IsMatchOfFunctions};
ghost use Rattle.circuits.specs.Netlists.{Net};
ghost use Rattle.net_core.specs.Graph.{IsGraph};
ghost use Rattle.port_moves.specs.Restored.{AreEqual};

use crate::inverting::inverse;
use crate::moving::moved_graph;
use net_core::{Graph, Matching};
use std::alloc::{AllocError, Global};

/// The gates of `second` with the ports of a first circuit: input i is that from which the matching's entry i leads,
/// and so are the outputs, inverted where the matching says so. It computes what any first circuit does of which the
/// matching is a match with `second`, and has as many gates as `second`.
///
/// # Errors
///
/// `AllocError` when out of memory.
pub fn restored(alloc: Global, second: &Graph, matching: &Matching) -> Result<Graph, AllocError>
    requires inputs { IsSignedBijection second.now.inputs matching.now.inputs }
    requires outputs { IsSignedBijection (length second.now.outputs) matching.now.outputs }
    ensures equal { IfOk result (λ graph. (first : Net)
        → IsMatchOfFunctions first second.now matching.now.inputs matching.now.outputs
        → AreEqual first graph) }
    ensures size { IfOk result (λ graph. length graph.gates ≡ length second.now.gates) }
    ensures sound { IfOk result IsGraph }
{
    // it brings in that the graph is sound
    let _outputs = second.outputs();
    let back = inverse(alloc, matching)?;
    let graph = moved_graph(alloc, second, &back)?;
    Ok(graph)
}
