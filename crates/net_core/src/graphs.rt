//! The two graphs of a comparison.

ghost use Rattle.std.specs.Prelude.{◌≡◌};
ghost use Rattle.net_core.specs.Graph.{IsGraph};
ghost use Rattle.net_core.specs.Sides.{graph_of};

use crate::graph::Graph;
use std::marker::Model;

/// One of two circuits.
#[derive(Clone, Copy, Debug, Drop, PartialEq, Eq, Hash)]
pub enum Side {
    First,
    Second,
}

/// Two graphs that are compared.
#[derive(Debug, Drop)]
pub struct Graphs<'a> {
    first: &'a Graph,
    second: &'a Graph,
}

impl<'a> Model for Graphs<'a> {
    ghost use Rattle.net_core.specs.Sides.{Graphs as TwoNets};

    ghost Value = { TwoNets };

    ghost view = { λ a. record { first = a.first.now; second = a.second.now } };
}

impl<'a> Graphs<'a> {
    /// These two graphs.
    pub fn new(first: &'a Graph, second: &'a Graph) -> Graphs<'a>
        ensures { result ≡ record { first = first.now; second = second.now } }
    {
        Graphs { first, second }
    }

    /// The first graph.
    pub fn first(&self) -> &'a Graph
        ensures value { result.now ≡ self.now.first }
        ensures sound { IsGraph self.now.first }
    {
        // it brings in that a graph is sound
        let _sound = self.first.inputs();
        self.first
    }

    /// The second graph.
    pub fn second(&self) -> &'a Graph
        ensures value { result.now ≡ self.now.second }
        ensures sound { IsGraph self.now.second }
    {
        // it brings in that a graph is sound
        let _sound = self.second.inputs();
        self.second
    }

    /// The graph of a side.
    pub fn side(&self, side: Side) -> &'a Graph
        ensures { result.now ≡ graph_of self.now side }
    {
        match side {
            Side::First => self.first,
            Side::Second => self.second,
        }
    }
}
