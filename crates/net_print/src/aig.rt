//! The binary form of AIGER.

ghost use Rattle.std.specs.Prelude.{◌≡◌, ◌+◌, ◌*◌, ◌≤◌, ◌<◌, ◌^◌, max, ◌++◌, length, OnOk, OnErr};
ghost use Rattle.text_core.specs.Extends.{Extends};
ghost use Rattle.net_core.specs.Graph.{AreInOrder};
ghost use Rattle.net_print.specs.Deltas.{delta_groups, gate_deltas, deltas};
ghost use Rattle.net_print.specs.Files.{aig_text};

use crate::rows::{Header, OutputRows};
use crate::symbols::{Symbols, symbols_of};
use net_core::{Gate, Graph};
use net_file::Named;
use std::alloc::AllocError;
use text_core::{Chain, Parts, put_all, put_leb128};

/// A delta has five groups of seven bits at most.
const MORE_GROUPS: u32 = 4;

/// Writes a netlist at the end of `out` as a file of the binary form of AIGER: the header, a line for each output, two
/// deltas for each gate, the greater operand first, and a symbol for each port.
/// When out of memory, a first part of the file may stand after what stood in `out`.
pub fn put_aig(named: &Named, out: &mut Vec<u8>) -> Result<(), AllocError>
    ensures ok { OnOk result (out.new.items ≡ out.old.items ++ aig_text named.now) }
    ensures kept { OnErr result (Extends out.old.items out.new.items) }
{
    put_all(AigParts::new(named), out)
}

/// A file of the binary form of AIGER, printed a line or a gate at a time.
#[derive(Drop)]
pub struct AigParts<'a> {
    lines: Lines<'a>,
}

/// The header, the outputs, the gates, and the symbols.
type Lines<'a> = Chain<Header<'a>, Chain<OutputRows<'a>, Chain<Deltas<'a>, Symbols<'a>>>>;

impl<'a> AigParts<'a> {
    /// The file that `put_aig` writes of a netlist.
    #[tactic(auto, using(crate::proofs::Parts::aig_parts))]
    pub fn new(named: &'a Named) -> AigParts<'a>
        ensures { ⟦<AigParts<'a> as Parts>⟧.left result ≡ aig_text named.now }
    {
        let graph = &named.graph;
        let body = Chain::new(Deltas::new(graph), symbols_of(named));
        AigParts {
            lines: Chain::new(
                Header::new(b"aig ", graph),
                Chain::new(OutputRows::new(graph), body),
            ),
        }
    }
}

impl<'a> Parts for AigParts<'a> {
    ghost left = { λ parts. ⟦<Lines<'a> as Parts>⟧.left parts.lines };

    ghost steps = { λ parts. ⟦<Lines<'a> as Parts>⟧.steps parts.lines };

    fn is_done(&self) -> bool {
        self.lines.is_done()
    }

    fn put_next(&mut self, out: &mut Vec<u8>) -> Result<(), AllocError> {
        self.lines.put_next(out)
    }
}

/// Two deltas for each gate.
#[derive(Drop)]
struct Deltas<'a> {
    variable: u64,
    gates: &'a [Gate],
    ghost few: { variable + length gates.now < 2 ^ 32 },
    ghost order: { AreInOrder variable gates.now },
}

impl<'a> Deltas<'a> {
    fn new(graph: &'a Graph) -> Deltas<'a>
        ensures { ⟦<Deltas<'a> as Parts>⟧.left result ≡ deltas (graph.now.inputs + 1) graph.now.gates }
    {
        Deltas {
            variable: graph.inputs() as u64 + 1,
            gates: graph.gates(),
        }
    }
}

impl<'a> Parts for Deltas<'a> {
    ghost left = { λ rows. deltas rows.variable rows.gates.now };

    ghost steps = { λ rows. length rows.gates.now };

    fn is_done(&self) -> bool {
        self.gates.is_empty()
    }

    fn put_next(&mut self, out: &mut Vec<u8>) -> Result<(), AllocError> {
        let [gate, rest @ ..] = self.gates else {
            return Ok(());
        };
        put_gate(self.variable, *gate, out)?;
        self.variable += 1;
        self.gates = rest;
        Ok(())
    }
}

fn put_gate(variable: u64, gate: Gate, out: &mut Vec<u8>) -> Result<(), AllocError>
    requires few { variable < 2 ^ 32 }
    requires order { max gate.a.0 gate.b.0 < 2 * variable }
    ensures ok { OnOk result (out.new.items ≡ out.old.items ++ gate_deltas variable gate) }
    ensures kept { Extends out.old.items out.new.items }
{
    let greater = u64::from(gate.a.0.max(gate.b.0));
    let lesser = u64::from(gate.a.0.min(gate.b.0));
    put_delta(2 * variable - greater, out)?;
    put_delta(greater - lesser, out)
}

fn put_delta(delta: u64, out: &mut Vec<u8>) -> Result<(), AllocError>
    requires { delta < 2 ^ 34 }
    ensures ok { OnOk result (out.new.items ≡ out.old.items ++ delta_groups delta) }
    ensures kept { Extends out.old.items out.new.items }
{
    put_leb128(delta, MORE_GROUPS, out)
}
