ghost use Rattle.std.specs.Prelude.{◌≡◌, [], List, IfOk};
ghost use Rattle.account_core.specs.declared.step.Ban.{Ban as AnyBan};
ghost use Rattle.pair_search.specs.Progress.{IsTrail};

use account_core::PairableGraphs;
use circuits::PortKind;
use class_refine::Domains;
use pair_search::Queue;
use std::alloc::{AllocError, Global};

/// The pairs of two circuits, assigned and deleted in order, and how far propagation has come.
#[derive(Drop)]
pub(crate) struct PairTrail {
    pub(crate) domains: Domains,
    pub(crate) queue: Queue,
}

impl PairTrail {
    /// All pairs are open, and nothing was propagated.
    pub(crate) fn new(alloc: Global, graphs: &PairableGraphs<'_>) -> Result<PairTrail, AllocError>
        ensures trail { IfOk result (λ trail. (bans : List AnyBan) → IsTrail graphs.now bans trail.domains) }
        ensures none { IfOk result (λ trail. trail.domains.entries ≡ []) }
    {
        // both circuits have as many ports
        let _ports = graphs.graphs();
        let inputs = graphs.ports(PortKind::Input);
        let outputs = graphs.ports(PortKind::Output);
        let domains = Domains::new(alloc, inputs, outputs)?;
        let queue = Queue::new(alloc, inputs, outputs)?;
        Ok(PairTrail { domains, queue })
    }
}
