//! The cones of a circuit's outputs, kept for the next question about the same output.

ghost use Rattle.std.specs.Prelude.{◌≡◌, ◌==◌, ◌<◌, ℕ, [], IfOk, IfSome, OnErr, OnOk, Some as There, if◌then◌else◌};
ghost use Rattle.std.specs.Prelude.{length};
ghost use Rattle.ban_check.specs.Cones.{cone_kept, AreCones, IsConeOf};

use indexmap::IndexMap;
use items::Items;
use net_core::Graph;
use std::alloc::{AllocError, Global};

/// The cones that are kept have room for this many gates for each signal of the circuit; the last cone may go beyond.
/// With four bytes each they take four times as much as the gates themselves.
const LISTED_A_SIGNAL: usize = 8;

/// How many outputs are evaluated by all gates before cones that leave no room are let go. To find a cone costs as much
/// for each of its gates as to evaluate some twenty, so that finding all that there is room for costs less than so many
/// evaluations.
const WHOLE_EVALUATIONS: u32 = 256;

/// Cones of outputs.
#[derive(Drop)]
pub(crate) struct Cones {
    /// The gates of each, by its output.
    pub(crate) by_output: IndexMap<u32, Items<u32>>,
    /// How many gates they list.
    listed: usize,
    /// How many outputs were evaluated by all gates since there is no more room for cones.
    whole: u32,
}

/// No cone is kept.
pub(crate) fn no_cones(alloc: Global) -> Cones
    ensures { result.by_output.entries ≡ [] }
{
    Cones {
        by_output: IndexMap::new(alloc),
        listed: 0,
        whole: 0,
    }
}

/// The cone that is kept of an output.
pub(crate) fn cone_kept(cones: &Cones, output: u32) -> Option<&Items<u32>>
    ensures { IfSome result (λ cone. cone_kept cones.now.by_output.entries output ≡ There cone.now) }
{
    cones.by_output.get(&output)
}

/// Finds an output's cone, unless it is kept or there is no room for it.
pub(crate) fn look_for_cone(
    alloc: Global,
    graph: &Graph,
    output: u32,
    cones: &mut Cones,
) -> Result<(), AllocError>
    requires output { output < length graph.now.outputs }
    requires cones { AreCones graph.now cones.old.by_output.entries }
    ensures { AreCones graph.now cones.new.by_output.entries }
{
    if cones.by_output.contains_key(&output) {
        return Ok(());
    }
    if is_full(alloc, graph, cones) {
        return Ok(());
    }
    let cone = find_cone(alloc, graph, output)?;
    cones.listed = cones.listed.saturating_add(cone.len());
    keep(&mut cones.by_output, output, cone)
}

// Whether there is no room for one more. After some time those that are kept are let go.
fn is_full(alloc: Global, graph: &Graph, cones: &mut Cones) -> bool
    requires { AreCones graph.now cones.old.by_output.entries }
    ensures { AreCones graph.now cones.new.by_output.entries }
{
    if cones.listed <= LISTED_A_SIGNAL * graph.signals() {
        return false;
    }
    if cones.whole < WHOLE_EVALUATIONS {
        cones.whole += 1;
        return true;
    }
    *cones = no_cones(alloc);
    false
}

// An output's cone.
fn find_cone(alloc: Global, graph: &Graph, output: u32) -> Result<Items<u32>, AllocError>
    requires { output < length graph.now.outputs }
    ensures { IfOk result (IsConeOf graph.now output) }
{
    let cone = graph.cone(alloc, output)?;
    Ok(Items::from_vec(cone))
}

// Keeps an output's cone. When out of memory, nothing changes.
fn keep(
    cones: &mut IndexMap<u32, Items<u32>>,
    output: u32,
    cone: Items<u32>,
) -> Result<(), AllocError>
    ensures kept { OnOk result ((other : ℕ) → cone_kept cones.new.entries other
        ≡ (if output == other then There cone else cone_kept cones.old.entries other)) }
    ensures refused { OnErr result (cones.new.entries ≡ cones.old.entries) }
{
    cones.insert(output, cone)?;
    Ok(())
}
