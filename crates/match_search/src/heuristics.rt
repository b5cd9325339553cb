//! The heuristic state of a search.

ghost use Rattle.std.specs.Prelude.{IfOk};
ghost use Rattle.sim_patterns.specs.Trials.{AreTrials};

use crate::Guide;
use account_core::PairableGraphs;
use sim_patterns::Trials;
use std::alloc::{AllocError, Global};

/// What guides a search, and vectors that pairs are tried on.
pub(crate) struct Heuristics {
    pub(crate) guide: Guide,
    pub(crate) trials: Trials,
}

// By hand, so that each exit of a function has one call for it (docs/IDIOMS.md).
impl Drop for Heuristics {
    fn drop(self) {
        let Heuristics {
            guide: _guide,
            trials: _trials,
        } = self;
    }
}

impl Heuristics {
    /// The state with which a search begins. Another seed draws other vectors.
    pub(crate) fn new(
        alloc: Global,
        graphs: &PairableGraphs<'_>,
        seed: u64,
    ) -> Result<Heuristics, AllocError>
        ensures { IfOk result (λ heuristics. AreTrials graphs.now.first heuristics.trials) }
    {
        let trials = Trials::new(alloc, graphs.first(), seed)?;
        let guide = Guide::new(alloc, graphs)?;
        Ok(Heuristics { guide, trials })
    }
}
