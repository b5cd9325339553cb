//! The ASCII form of AIGER.

ghost use Rattle.std.specs.Prelude.{◌≡◌, ◌+◌, ◌-◌, ◌<◌, ◌^◌, [], ◌∷◌, ◌++◌, length, map, OnOk, OnErr};
ghost use Rattle.std.specs.List.{range_with_len};
ghost use Rattle.text_core.specs.Extends.{Extends};
ghost use Rattle.net_print.specs.Rows.{rows_text, input_row, input_rows, gate_rows, gate_row};
ghost use Rattle.net_print.specs.Files.{aag_text, aag_front_text};

use crate::rows::{Header, OutputRows};
use crate::symbols::{Symbols, symbols_of};
use net_core::{Gate, Graph};
use net_file::Named;
use std::alloc::AllocError;
use text_core::{Chain, Parts, put_all, put_last_number, put_number};

/// Writes a netlist at the end of `out` as a file of the ASCII form of AIGER: the header, a line for each input, output
/// and gate in their order, with the graph's own numbers as literals, and a symbol for each port.
/// When out of memory, a first part of the file may stand after what stood in `out`.
pub fn put_aag(named: &Named, out: &mut Vec<u8>) -> Result<(), AllocError>
    ensures ok { OnOk result (out.new.items ≡ out.old.items ++ aag_text named.now) }
    ensures kept { OnErr result (Extends out.old.items out.new.items) }
{
    put_all(AagParts::new(named), out)
}

/// A file of the ASCII form of AIGER, printed a line at a time.
#[derive(Drop)]
pub struct AagParts<'a> {
    lines: Lines<'a>,
}

/// The header and the ports, the gates, and the symbols.
type Lines<'a> = Chain<Front<'a>, Chain<GateRows<'a>, Symbols<'a>>>;

impl<'a> AagParts<'a> {
    /// The file that `put_aag` writes of a netlist.
    #[tactic(auto, using(crate::proofs::Parts::aag_parts))]
    pub fn new(named: &'a Named) -> AagParts<'a>
        ensures { ⟦<AagParts<'a> as Parts>⟧.left result ≡ aag_text named.now }
    {
        let graph = &named.graph;
        AagParts {
            lines: Chain::new(
                front_of(graph),
                Chain::new(GateRows::new(graph), symbols_of(named)),
            ),
        }
    }
}

impl<'a> Parts for AagParts<'a> {
    ghost left = { λ parts. ⟦<Lines<'a> as Parts>⟧.left parts.lines };

    ghost steps = { λ parts. ⟦<Lines<'a> as Parts>⟧.steps parts.lines };

    fn is_done(&self) -> bool {
        self.lines.is_done()
    }

    fn put_next(&mut self, out: &mut Vec<u8>) -> Result<(), AllocError> {
        self.lines.put_next(out)
    }
}

/// The header and the lines of the ports.
type Front<'a> = Chain<Header<'a>, Chain<InputRows, OutputRows<'a>>>;

fn front_of<'a>(graph: &'a Graph) -> Front<'a>
    ensures { ⟦<Front<'a> as Parts>⟧.left result ≡ aag_front_text graph.now }
{
    let ports = Chain::new(InputRows::new(graph.inputs()), OutputRows::new(graph));
    Chain::new(Header::new(b"aag ", graph), ports)
}

/// A line for each input: the literal of its variable.
#[derive(Drop)]
struct InputRows {
    next: u32,
    inputs: u32,
}

impl InputRows {
    fn new(inputs: u32) -> InputRows
        ensures { ⟦<InputRows as Parts>⟧.left result ≡ rows_text (input_rows inputs) }
    {
        InputRows { next: 0, inputs }
    }
}

impl Parts for InputRows {
    ghost left = { λ rows. rows_text (map input_row (range_with_len rows.next (rows.inputs - rows.next))) };

    ghost steps = { λ rows. rows.inputs - rows.next };

    fn is_done(&self) -> bool {
        self.next >= self.inputs
    }

    fn put_next(&mut self, out: &mut Vec<u8>) -> Result<(), AllocError> {
        if self.next >= self.inputs {
            return Ok(());
        }
        put_last_number(2 * (self.next as u64 + 1), out)?;
        self.next += 1;
        Ok(())
    }
}

/// A line for each gate: its own literal and those of its operands.
#[derive(Drop)]
struct GateRows<'a> {
    variable: u64,
    gates: &'a [Gate],
    ghost few: { variable + length gates.now < 2 ^ 32 },
}

impl<'a> GateRows<'a> {
    fn new(graph: &'a Graph) -> GateRows<'a>
        ensures { ⟦<GateRows<'a> as Parts>⟧.left result ≡ rows_text (gate_rows (graph.now.inputs + 1) graph.now.gates) }
    {
        GateRows {
            variable: graph.inputs() as u64 + 1,
            gates: graph.gates(),
        }
    }
}

impl<'a> Parts for GateRows<'a> {
    ghost left = { λ rows. rows_text (gate_rows rows.variable rows.gates.now) };

    ghost steps = { λ rows. length rows.gates.now };

    fn is_done(&self) -> bool {
        self.gates.is_empty()
    }

    fn put_next(&mut self, out: &mut Vec<u8>) -> Result<(), AllocError> {
        let [gate, rest @ ..] = self.gates else {
            return Ok(());
        };
        put_gate_row(self.variable, *gate, out)?;
        self.variable += 1;
        self.gates = rest;
        Ok(())
    }
}

fn put_gate_row(variable: u64, gate: Gate, out: &mut Vec<u8>) -> Result<(), AllocError>
    requires { variable < 2 ^ 32 }
    ensures ok { OnOk result (out.new.items ≡ out.old.items ++ rows_text (gate_row variable gate ∷ [])) }
    ensures kept { Extends out.old.items out.new.items }
{
    put_number(2 * variable, out)?;
    put_number(gate.a.0 as u64, out)?;
    put_last_number(gate.b.0 as u64, out)
}
