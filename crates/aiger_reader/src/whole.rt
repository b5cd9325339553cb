ghost use Rattle.std.specs.Prelude.{◌≡◌, ℕ, ◌+◌, ◌<◌, false, List, [], length, map, IfOk, IfErr};
ghost use Rattle.circuits.specs.Functions.{Computes};
ghost use Rattle.circuits.specs.Levels.{IsAcyclic, IsOrderOf};
ghost use Rattle.net_file.specs.declared.fault.NetFault.{NetFault};
ghost use Rattle.net_file.specs.Stops.{IsStopBy};
ghost use Rattle.aiger_reader.specs.Numbers.{header_of};
ghost use Rattle.aiger_reader.specs.Reading.{rows_of};
ghost use Rattle.aiger_reader.specs.Bodies.{IsKnownRow, lit_from, text_circuit};
ghost use Rattle.aiger_reader.specs.Deltas.{and_from};
ghost use Rattle.aiger_reader.specs.Numbered.{IsSound, circuit_from};
ghost use Rattle.aiger_reader.specs.Symbols.{AreNames, IsSymbolStop};
ghost use Rattle.aiger_reader.specs.Aiger.{IsAigerFault, ReadAs};
ghost use Rattle.aiger_reader.specs.Assembly.{IsBegun, AreLinesRead, IsNetOf, IsBinaryBody};

use crate::body::{Body, read_body};
use crate::deltas::read_gates;
use crate::header::read_header;
use crate::limits::Header;
use crate::numbering::{find_undefined, number_gates, number_outputs, offset_of_line};
use crate::symbols::{Symbols, read_symbols};
use circuits::{Def, Lit};
use items::Items;
use net_core::{Graph, OrderFault, PlainNet, order};
use net_file::{Named, NetFault, NetKind, NetStop};
use std::alloc::{AllocError, Global};
use text_core::Cursor;

/// Reads a netlist with the names of its ports from a file of either AIGER form (AIGER 1.9), without latches and
/// properties. The graph has the gates by level, and those of one level in the order of the file.
///
/// # Errors
///
/// [`NetStop::Fault`] with the first fault of the file: of its header, whose faults stand at 0; of the lines after
/// it; of the deltas of the binary form; a variable that no line defines; a gate on a cycle or above one, at the
/// line of the first such gate; or of the symbols. [`NetStop::Memory`] only when out of memory.
pub fn read(alloc: Global, input: &[u8]) -> Result<Named, NetStop>
    ensures netlist { IfOk result (λ named. ReadAs input.now named.graph named.input_names named.output_names) }
    ensures fault { (fault : NetFault) → result ≡ Err (NetStop.Fault fault)
        → IsAigerFault input.now fault.kind fault.at }
{
    read_file(alloc, input)
}

// The netlist of a file and the names of its ports.
fn read_file(alloc: Global, input: &[u8]) -> Result<Named, NetStop>
    ensures netlist { IfOk result (λ named. ReadAs input.now named.graph named.input_names named.output_names) }
    ensures stop { IfErr result (IsStopBy (IsAigerFault input.now)) }
{
    let header = read_front(input)?;
    let mut body = read_body(alloc, input, header)?;
    let net = read_net(alloc, input, header, &mut body)?;
    // a cycle is reported at a gate's line, which stands before the symbols: so this comes before them
    let graph = put_in_order(alloc, input, header, &net)?;
    name_ports(alloc, header, &mut body.rest, graph)
}

// The header of the file.
fn read_front(input: &[u8]) -> Result<Header, NetStop>
    ensures begun { IfOk result (λ header. IsBegun input.now header) }
    ensures stop { IfErr result (IsStopBy (IsAigerFault input.now)) }
{
    read_header(input).map_err(|kind| NetStop::Fault(NetFault { kind, at: 0 }))
}

// The netlist of the file, and moves after the gates of the binary form.
fn read_net(
    alloc: Global,
    input: &[u8],
    header: Header,
    body: &mut Body<'_>,
) -> Result<PlainNet, NetStop>
    requires begun { IsBegun input.now header }
    requires lines { AreLinesRead input.now header body.old.literals body.old.signals.items body.old.rest }
    ensures netlist { IfOk result (λ net. IsNetOf input.now header net body.new.rest.bytes) }
    ensures end { body.new.rest.at + length body.new.rest.bytes ≡ length input.now }
    ensures stop { IfErr result (IsStopBy (IsAigerFault input.now)) }
{
    if !header.binary {
        return text_net(alloc, input, header, body);
    }
    let gates = read_gates(alloc, &mut body.rest, header.inputs, header.gates)?;
    binary_net(alloc, header, &body.literals.outputs, &gates)
}

// The netlist of the ASCII form.
fn text_net(
    alloc: Global,
    input: &[u8],
    header: Header,
    body: &Body<'_>,
) -> Result<PlainNet, NetStop>
    requires text { header.binary ≡ false }
    requires begun { IsBegun input.now header }
    requires lines { AreLinesRead input.now header body.now.literals body.now.signals.items body.now.rest }
    ensures netlist { IfOk result (λ net. IsNetOf input.now header net body.now.rest.bytes) }
    ensures stop { IfErr result (IsStopBy (IsAigerFault input.now)) }
{
    if let Some(at) = find_undefined(input, header, body) {
        return Err(NetStop::Fault(NetFault {
            kind: NetKind::Undefined,
            at,
        }));
    }
    known_net(alloc, header, body)
}

// The netlist of the ASCII form's lines, which read only what some line defines.
fn known_net(alloc: Global, header: Header, body: &Body<'_>) -> Result<PlainNet, NetStop>
    requires text { header.binary ≡ false }
    requires sound { IsSound (header_of header []) body.now.literals body.now.signals.items }
    requires known { (k : ℕ) → k < length (rows_of body.now.literals)
        → IsKnownRow (header_of header []) (rows_of body.now.literals) k }
    ensures netlist { IfOk result (λ net. (properties : List ℕ)
        → net ≡ text_circuit (header_of header properties) (rows_of body.now.literals)) }
    ensures memory { IfErr result (λ stop. stop ≡ NetStop.Memory) }
{
    let defs = number_gates(alloc, &body.signals, &body.literals.gates)?;
    let outputs = number_outputs(alloc, &body.signals, &body.literals.outputs)?;
    Ok(PlainNet::new(
        header.inputs,
        Items::from_vec(defs),
        Items::from_vec(outputs),
    ))
}

// The netlist of the binary form.
fn binary_net(
    alloc: Global,
    header: Header,
    outputs: &[u32],
    gates: &[(u32, u32)],
) -> Result<PlainNet, NetStop>
    requires { IsBinaryBody header outputs.now gates.now }
    ensures netlist { IfOk result (λ net. net
        ≡ circuit_from header.inputs (map and_from gates.now) (map lit_from outputs.now)) }
    ensures memory { IfErr result (λ stop. stop ≡ NetStop.Memory) }
{
    let defs = defs_of(alloc, gates)?;
    let outputs = lits_of(alloc, outputs)?;
    Ok(PlainNet::new(
        header.inputs,
        Items::from_vec(defs),
        Items::from_vec(outputs),
    ))
}

// The definitions of gates with these operands.
fn defs_of(alloc: Global, gates: &[(u32, u32)]) -> Result<Vec<Def>, AllocError>
    ensures { IfOk result (λ defs. defs.items ≡ map and_from gates.now) }
{
    let defs = gates.iter().map(|(a, b)| Def::And {
        a: Lit(*a),
        b: Lit(*b),
    });
    defs.collect(alloc)
}

// The literals with these numbers.
fn lits_of(alloc: Global, numbers: &[u32]) -> Result<Vec<Lit>, AllocError>
    ensures { IfOk result (λ lits. lits.items ≡ map lit_from numbers.now) }
{
    numbers.iter().map(|number| Lit(*number)).collect(alloc)
}

// The netlist in order.
fn put_in_order(
    alloc: Global,
    input: &[u8],
    header: Header,
    net: &PlainNet,
) -> Result<Graph, NetStop>
    requires netlist { (rest : List ℕ) × IsNetOf input.now header net.now rest }
    ensures order { IfOk result (λ graph. IsOrderOf net.now graph) }
    ensures acyclic { IfOk result (λ _. IsAcyclic net.now) }
    ensures computes { IfOk result (λ graph. Computes graph net.now) }
    ensures stop { IfErr result (IsStopBy (IsAigerFault input.now)) }
{
    match order(alloc, net) {
        Ok(graph) => Ok(graph),
        Err(OrderFault::Cycle(definition)) => Err(NetStop::Fault(NetFault {
            kind: NetKind::Cycle,
            at: offset_of_line(input, gate_line(header, definition)),
        })),
        // the header has a limit for them
        Err(OrderFault::TooManyGates) => unreachable!(),
        Err(OrderFault::Memory) => Err(NetStop::Memory),
    }
}

// The line of a gate of the ASCII form, counted from the header's.
fn gate_line(header: Header, gate: u32) -> usize
    ensures { result ≡ 1 + header.inputs + header.outputs + gate }
{
    1 + header.inputs as usize + header.outputs as usize + gate as usize
}

// The graph with the names of its ports, which the symbols in the rest of the file give.
fn name_ports(
    alloc: Global,
    header: Header,
    rest: &mut Cursor<'_>,
    graph: Graph,
) -> Result<Named, NetStop>
    requires inputs { graph.inputs ≡ header.inputs }
    requires outputs { length graph.outputs ≡ header.outputs }
    ensures graph { IfOk result (λ named. named.graph ≡ graph) }
    ensures names { IfOk result (λ named.
        AreNames header.inputs header.outputs rest.old.bytes named.input_names named.output_names) }
    ensures stop { IfErr result (IsSymbolStop header.inputs header.outputs rest.old) }
{
    let symbols = read_symbols(alloc, rest, header.inputs, header.outputs)?;
    let Symbols { inputs, outputs } = symbols;
    Ok(Named {
        graph,
        input_names: inputs,
        output_names: outputs,
    })
}
