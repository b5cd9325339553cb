ghost use Rattle.std.specs.Prelude.{◌≡◌, ◌+◌, ◌<◌, ◌≤◌, ◌^◌, length, IfOk, IfErr, OnOk};
ghost use Rattle.circuits.specs.Expansion.{gates_in};
ghost use Rattle.circuits.specs.Levels.{IsAcyclic, IsOrderOf};
ghost use Rattle.net_core.specs.Limits.{most_bytes, most_gates};
ghost use Rattle.net_file.specs.declared.fault.NetFault.{NetFault};
ghost use Rattle.net_file.specs.Stops.{IsStopBy};
ghost use Rattle.blif_reader.specs.Names.{input_words};
ghost use Rattle.blif_reader.specs.Numbers.{names_of};
ghost use Rattle.blif_reader.specs.Covers.{blif_circuit, signal_names};
ghost use Rattle.blif_reader.specs.Faults.{AreDeclared, AreDefinedOnce, AreKnown, AreFew};
ghost use Rattle.blif_reader.specs.Surveys.{IsSurveyed};
ghost use Rattle.blif_reader.specs.Building.{IsBuilt};
ghost use Rattle.blif_reader.specs.Blif.{blif_lines, IsBlifFault, ReadAs};

use crate::covers::{Covers, read_covers};
use crate::names::{PortNames, add_defined, name_ports};
use crate::ports::{find_excess, names_of_kind};
use crate::survey::{Survey, survey_lines};
use circuits::PortKind;
use indexmap::IndexSet;
use net_core::{Graph, OrderFault, PlainNet, order};
use net_file::{Named, NetFault, NetKind, NetStop};
use std::alloc::Global;

// That both kinds of port have a line.
fn check_port_lines(input: &[u8], survey: &Survey<'_>) -> Result<(), NetStop>
    requires { IsSurveyed (blif_lines input.now) survey.now }
    ensures declared { OnOk result (AreDeclared (blif_lines input.now)) }
    ensures stop { IfErr result (IsStopBy (IsBlifFault input.now)) }
{
    if survey.has_inputs & survey.has_outputs {
        return Ok(());
    }
    Err(NetStop::Fault(NetFault {
        kind: NetKind::NoPortLine,
        at: input.len() as u64,
    }))
}

// The names of the signals: those of the inputs, then those that covers define. No port of a kind is named twice, and
// no name is an input's and defined, or defined twice. Inputs have the first numbers wherever their lines stand, so all
// ports are named before the first cover's name is.
fn number_names<'a>(
    alloc: Global,
    input: &[u8],
    survey: &Survey<'a>,
) -> Result<IndexSet<&'a [u8]>, NetStop>
    requires surveyed { IsSurveyed (blif_lines input.now) survey.now }
    requires declared { AreDeclared (blif_lines input.now) }
    ensures numbered { IfOk result (λ names. AreDefinedOnce (blif_lines input.now)
        × (names_of names ≡ signal_names (blif_lines input.now))) }
    ensures stop { IfErr result (IsStopBy (IsBlifFault input.now)) }
{
    let PortNames {
        inputs: mut names,
        outputs: _,
    } = name_ports(alloc, &survey.ports)?;
    add_defined(&mut names, &survey.defined)?;
    Ok(names)
}

// That there are no more ports than the limits.
fn check_limits(input: &[u8], survey: &Survey<'_>) -> Result<(), NetStop>
    requires surveyed { IsSurveyed (blif_lines input.now) survey.now }
    requires known { AreKnown (blif_lines input.now) }
    ensures few { OnOk result (AreFew (blif_lines input.now)) }
    ensures stop { IfErr result (IsStopBy (IsBlifFault input.now)) }
{
    if let Some(at) = find_excess(&survey.ports, PortKind::Input) {
        return Err(NetStop::Fault(NetFault {
            kind: NetKind::TooManyInputs,
            at,
        }));
    }
    if let Some(at) = find_excess(&survey.ports, PortKind::Output) {
        return Err(NetStop::Fault(NetFault {
            kind: NetKind::TooManyOutputs,
            at,
        }));
    }
    Ok(())
}

// The netlist in order.
fn order_covers(alloc: Global, input: &[u8], inputs: u32, covers: Covers) -> Result<Graph, NetStop>
    requires few { AreFew (blif_lines input.now) }
    requires built { IsBuilt (signal_names (blif_lines input.now)) (blif_lines input.now) covers }
    requires inputs { inputs ≡ length (input_words (blif_lines input.now)) }
    requires signals { 1 + length (signal_names (blif_lines input.now)) < 2 ^ 30 }
    ensures acyclic { OnOk result (IsAcyclic (blif_circuit (blif_lines input.now))) }
    ensures few_gates { OnOk result (gates_in (blif_circuit (blif_lines input.now)) ≤ most_gates) }
    ensures ordered { IfOk result (λ graph. IsOrderOf (blif_circuit (blif_lines input.now)) graph) }
    ensures stop { IfErr result (IsStopBy (IsBlifFault input.now)) }
{
    let Covers {
        defs,
        places,
        outputs,
        current: _,
    } = covers;
    let net = PlainNet::new(inputs, defs, outputs);
    match order(alloc, &net) {
        Ok(graph) => Ok(graph),
        Err(OrderFault::Cycle(definition)) => Err(NetStop::Fault(NetFault {
            kind: NetKind::CoverCycle,
            at: places[definition as usize],
        })),
        Err(OrderFault::TooManyGates) => Err(NetStop::Fault(NetFault {
            kind: NetKind::TooManyGates,
            at: input.len() as u64,
        })),
        Err(OrderFault::Memory) => Err(NetStop::Memory),
    }
}

// The netlist in order, with the names of its ports.
fn name_net(
    alloc: Global,
    input: &[u8],
    survey: &Survey<'_>,
    covers: Covers,
) -> Result<Named, NetStop>
    requires surveyed { IsSurveyed (blif_lines input.now) survey.now }
    requires few { AreFew (blif_lines input.now) }
    requires built { IsBuilt (signal_names (blif_lines input.now)) (blif_lines input.now) covers }
    requires signals { 1 + length (signal_names (blif_lines input.now)) < 2 ^ 30 }
    ensures netlist { IfOk result (λ named. ReadAs input.now named.graph named.input_names named.output_names) }
    ensures stop { IfErr result (IsStopBy (IsBlifFault input.now)) }
{
    let input_names = names_of_kind(alloc, &survey.ports, PortKind::Input)?;
    let output_names = names_of_kind(alloc, &survey.ports, PortKind::Output)?;
    let graph = order_covers(alloc, input, input_names.len() as u32, covers)?;
    Ok(Named {
        graph,
        input_names,
        output_names,
    })
}

/// Reads a netlist with the names of its ports from a file in the Berkeley Logic Interchange Format (BLIF, University
/// of California at Berkeley, 1992), of one model without latches and don't-cares. The graph has the gates of the
/// covers by level, and those of one level in the order of the file. `input` is a file of at most 67,108,864 bytes.
///
/// # Errors
///
/// [`NetStop::Fault`] with the first fault of the file: of its lines; a kind of port without a line; a name that is
/// given to two ports of a kind, defined twice, or read and not known; more ports than 4,096 of a kind; a cover on a
/// cycle or above one, at its `.names` line; or more than 4,000,000 gates. [`NetStop::Memory`] when out of memory.
pub fn read(alloc: Global, input: &[u8]) -> Result<Named, NetStop>
    requires file { length input.now ≤ most_bytes }
    ensures netlist { IfOk result (λ named. ReadAs input.now named.graph named.input_names named.output_names) }
    ensures fault { (fault : NetFault) → result ≡ Err (NetStop.Fault fault)
        → IsBlifFault input.now fault.kind fault.at }
{
    read_file(alloc, input)
}

// The netlist of a file and the names of its ports.
fn read_file(alloc: Global, input: &[u8]) -> Result<Named, NetStop>
    requires { length input.now ≤ most_bytes }
    ensures netlist { IfOk result (λ named. ReadAs input.now named.graph named.input_names named.output_names) }
    ensures stop { IfErr result (IsStopBy (IsBlifFault input.now)) }
{
    // A line's fault comes before any of names, wherever the line stands, so all lines are read before a name is
    // looked at.
    let survey = survey_lines(alloc, input)?;
    check_port_lines(input, &survey)?;
    let names = number_names(alloc, input, &survey)?;
    // Names have numbers only now, so the covers are read in a second pass: a cover may name what a later one defines.
    let covers = read_covers(alloc, input, &names)?;
    // The limits come after the names, so a file that is malformed is said to be so however many ports it has.
    check_limits(input, &survey)?;
    name_net(alloc, input, &survey, covers)
}
