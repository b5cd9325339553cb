ghost use Rattle.std.specs.Prelude.{◌≡◌, ◌∷◌, [], IfOk};
ghost use Rattle.net_core.specs.Graph.{IsGraph};
ghost use Rattle.samples.specs.Samples.{net_numbered};

use crate::build::graph;
use crate::fault::SampleFault;
use net_core::{Graph, Graphs};
use std::alloc::Global;

/// Two graphs, of which a test lends both.
#[derive(Debug, Drop)]
pub struct GraphPair {
    pub first: Graph,
    pub second: Graph,
}

impl GraphPair {
    /// Two graphs of n inputs, each given by its gates and its one output.
    ///
    /// # Errors
    ///
    /// As those of [`graph`].
    pub fn new(
        alloc: Global,
        inputs: u32,
        first: (&[(u32, u32)], u32),
        second: (&[(u32, u32)], u32),
    ) -> Result<GraphPair, SampleFault>
        ensures first { IfOk result (λ pair. pair.first ≡ net_numbered inputs first.entry.0.now (first.entry.1 ∷ [])) }
        ensures second { IfOk result (λ pair. pair.second
            ≡ net_numbered inputs second.entry.0.now (second.entry.1 ∷ [])) }
        ensures sound { IfOk result (λ pair. IsGraph pair.first × IsGraph pair.second) }
    {
        Ok(GraphPair {
            first: graph(alloc, inputs, first.0, &[first.1])?,
            second: graph(alloc, inputs, second.0, &[second.1])?,
        })
    }

    /// Both graphs, lent.
    pub fn graphs(&self) -> Graphs<'_>
        ensures { result ≡ record { first = self.now.first; second = self.now.second } }
    {
        Graphs::new(&self.first, &self.second)
    }
}
