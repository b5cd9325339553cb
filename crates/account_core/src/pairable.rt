ghost use Rattle.std.specs.Prelude.{◌≡◌, ◌↔◌, IfSome, IsSome};
ghost use Rattle.net_core.specs.Graph.{IsGraph};
ghost use Rattle.net_core.specs.Sides.{graph_of};
ghost use Rattle.account_core.specs.Ports.{HaveAsMany, ports_in};

use crate::{have_as_many, ports_in};
use circuits::PortKind;
use net_core::{Graph, Graphs, Side};
use std::marker::Model;

/// Two graphs whose ports can be paired: they have the same number of inputs, and the same number of outputs. Where
/// they haven't there is no match, and nothing to search. Contracts see it as the two graphs.
#[derive(Drop)]
pub struct PairableGraphs<'a> {
    graphs: &'a Graphs<'a>,
}

impl<'a> Model for PairableGraphs<'a> {
    ghost use Rattle.net_core.specs.Sides.{Graphs as TwoNets};
    ghost use Rattle.account_core.specs.Ports.{HaveAsMany};

    ghost Value = { TwoNets };

    ghost view = { λ a. a.graphs.now };

    ghost invariant = { λ a. HaveAsMany a.graphs.now.first a.graphs.now.second };
}

impl<'a> PairableGraphs<'a> {
    /// These graphs, where they have the same number of inputs, and the same number of outputs.
    pub fn new(graphs: &'a Graphs<'a>) -> Option<PairableGraphs<'a>>
        ensures same { IfSome result (λ pairable. pairable ≡ graphs.now) }
        ensures exactly { IsSome result ↔ HaveAsMany graphs.now.first graphs.now.second }
    {
        if have_as_many(graphs) {
            Some(PairableGraphs { graphs })
        } else {
            None
        }
    }

    /// The two graphs.
    pub fn graphs(&self) -> &'a Graphs<'a>
        ensures value { result.now ≡ self.now }
        ensures ports { HaveAsMany self.now.first self.now.second }
    {
        self.graphs
    }

    /// The first graph.
    pub fn first(&self) -> &'a Graph
        ensures value { result.now ≡ self.now.first }
        ensures sound { IsGraph self.now.first }
        ensures ports { HaveAsMany self.now.first self.now.second }
    {
        self.graphs.first()
    }

    /// The second graph.
    pub fn second(&self) -> &'a Graph
        ensures value { result.now ≡ self.now.second }
        ensures sound { IsGraph self.now.second }
        ensures ports { HaveAsMany self.now.first self.now.second }
    {
        self.graphs.second()
    }

    /// The graph of a side.
    pub fn side(&self, side: Side) -> &'a Graph
        ensures { result.now ≡ graph_of self.now side }
    {
        self.graphs.side(side)
    }

    /// How many ports of a kind each of the two has.
    pub fn ports(&self, kind: PortKind) -> u32
        ensures first { result ≡ ports_in self.now.first kind }
        ensures second { result ≡ ports_in self.now.second kind }
    {
        ports_in(self.graphs.first(), kind)
    }
}
