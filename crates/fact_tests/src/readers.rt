//! Where signals are read.

ghost use Rattle.std.specs.Prelude.{◌≡◌, ◌<◌, ◌≤◌, IfOk, OnOk, length};
ghost use Rattle.circuits.specs.Literals.{signal_of};
ghost use Rattle.circuits.specs.Netlists.{Net, signals_of};
ghost use Rattle.net_core.specs.Graph.{IsGraph};
ghost use Rattle.fact_tests.specs.LocalExchanges.{AreSpans, IsSpan, Widens};

use items::Items;
use net_core::{Gate, Graph, Lit};
use std::alloc::{AllocError, Global};
use std::marker::Model;

/// The gates that read a signal are among those from `start` on and before `end`.
#[derive(Clone, Copy, Drop)]
pub(crate) struct GateSpan {
    pub start: u32,
    pub end: u32,
}

/// Of each signal of a circuit the gates among which those are that read it. Contracts see it as the circuit.
#[derive(Drop)]
pub(crate) struct Readers<'a> {
    graph: &'a Graph,
    spans: Items<GateSpan>,
}

impl<'a> Model for Readers<'a> {
    ghost use Rattle.std.specs.Prelude.{length};
    ghost use Rattle.circuits.specs.Netlists.{Net};
    ghost use Rattle.fact_tests.specs.LocalExchanges.{AreSpans};

    ghost Value = { Net };

    ghost view = { λ a. a.graph.now };

    ghost invariant = { λ a. AreSpans a.graph.now (length a.graph.now.gates) a.spans };
}

impl<'a> Readers<'a> {
    /// Finds the spans by one pass over the gates.
    pub(crate) fn new(alloc: Global, graph: &'a Graph) -> Result<Readers<'a>, AllocError>
        ensures { IfOk result (λ readers. readers ≡ graph.now) }
    {
        let spans = spans_of(alloc, graph)?;
        Ok(Readers { graph, spans })
    }

    /// The circuit.
    pub(crate) fn graph(&self) -> &Graph
        ensures { result.now ≡ self.now }
    {
        self.graph
    }

    /// The span of a signal.
    pub(crate) fn span(&self, signal: u32) -> GateSpan
        requires { signal < signals_of self.now }
        ensures { IsSpan self.now.gates (length self.now.gates) signal result }
    {
        self.spans[signal as usize]
    }
}

/// The spans of all signals.
fn spans_of(alloc: Global, graph: &Graph) -> Result<Items<GateSpan>, AllocError>
    ensures { IfOk result (AreSpans graph.now (length graph.now.gates)) }
{
    let mut spans = no_spans(alloc, graph.signals())?;
    let gates = graph.gates();
    for place in 0..gates.len() {
        let gate = gates[place];
        note_reader(gate.a, place as u32, &mut spans);
        note_reader(gate.b, place as u32, &mut spans);
    }
    Ok(spans)
}

/// Empty spans, as many as there are signals.
fn no_spans(alloc: Global, count: usize) -> Result<Items<GateSpan>, AllocError>
    ensures { IfOk result (λ spans. (net : Net) → signals_of net ≡ count → AreSpans net 0 spans) }
{
    let mut spans = Items::new(alloc);
    for _signal in 0..count {
        spans.push(GateSpan {
            start: u32::MAX,
            end: 0,
        })?;
    }
    Ok(spans)
}

/// Notes that the next gate reads a literal.
fn note_reader(lit: Lit, place: u32, spans: &mut Items<GateSpan>)
    requires signal { signal_of lit < length spans.old }
    requires place { place < 4_294_967_295 }
    ensures { Widens place (signal_of lit) spans.old spans.new }
{
    let signal = lit.signal() as usize;
    let start = spans[signal].start.min(place);
    spans.set(
        signal,
        GateSpan {
            start,
            end: place + 1,
        },
    );
}
