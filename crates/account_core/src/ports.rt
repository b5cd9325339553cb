//! The ports of two circuits, and pairs of them.

ghost use Rattle.std.specs.Prelude.{◌≡◌, ◌↔◌, IsTrue};
ghost use Rattle.account_core.specs.Covers.{way};
ghost use Rattle.account_core.specs.Ports.{HaveAsMany, ports_in};
ghost use Rattle.account_core.specs.Tallies.{other_side, port_of, port_on};

use circuits::{Pair, PortKind};
use net_core::{Graph, Graphs, Side};

/// A port of one of two circuits.
#[derive(Clone, Copy, Debug, PartialEq, Eq, Hash)]
pub struct Port {
    pub side: Side,
    pub kind: PortKind,
    /// The port's position, from 0.
    pub number: u32,
}

/// Whether two circuits have the same number of inputs, and the same number of outputs.
pub fn have_as_many(graphs: &Graphs<'_>) -> bool
    ensures { IsTrue result ↔ HaveAsMany graphs.now.first graphs.now.second }
{
    (graphs.first().inputs() == graphs.second().inputs())
        & (graphs.first().outputs().len() == graphs.second().outputs().len())
}

/// How many ports of a kind a circuit has.
pub fn ports_in(graph: &Graph, kind: PortKind) -> u32
    ensures { result ≡ ports_in graph.now kind }
{
    match kind {
        PortKind::Input => graph.inputs(),
        PortKind::Output => graph.outputs().len() as u32,
    }
}

/// A way to pair two ports.
pub fn way(kind: PortKind, from: u32, to: u32, flip: bool) -> Pair
    ensures { result ≡ way kind from to flip }
{
    Pair {
        kind,
        from,
        to,
        flip,
    }
}

/// The other side: of the first circuit the second, and of the second the first.
pub fn other_side(side: Side) -> Side
    ensures { result ≡ other_side side }
{
    match side {
        Side::First => Side::Second,
        Side::Second => Side::First,
    }
}

/// The number of a pair's port of a circuit.
pub fn port_on(side: Side, pair: Pair) -> u32
    ensures { result ≡ port_on side pair }
{
    match side {
        Side::First => pair.from,
        Side::Second => pair.to,
    }
}

/// A pair's port of a circuit.
pub fn port_of(side: Side, pair: Pair) -> Port
    ensures { result ≡ port_of side pair }
{
    Port {
        side,
        kind: pair.kind,
        number: port_on(side, pair),
    }
}
