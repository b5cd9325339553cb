//! The limits of a model's ports.

ghost use Rattle.std.specs.Prelude.{◌≡◌, ◌≤◌, length, IfOk, IfErr, MatchOption};
ghost use Rattle.std.specs.List.{flat_map};
ghost use Rattle.net_core.specs.Limits.{most_ports};
ghost use Rattle.blif_reader.specs.Ports.{IsExcess};
ghost use Rattle.hier_blif.specs.Names.{inputs_on, outputs_on};
ghost use Rattle.hier_blif.specs.Stops.{IsStopBy};
ghost use Rattle.hier_blif.specs.Limits.{words_on, HasFewPorts, HasManyPorts};

use crate::fault::{HierKind, HierStop, fault_at};
use crate::model::ModelLine;
use circuits::PortKind;
use net_core::MAX_PORTS;
use text_core::Span;

/// Checks that a model with these lines has no more inputs than [`MAX_PORTS`], and no more outputs: what is read here
/// is flattened to a netlist like those that `blif_reader` reads. The fault is at the first port beyond.
pub(crate) fn check_limits(lines: &[ModelLine<'_>]) -> Result<(), HierStop>
    ensures few { IfOk result (λ _. HasFewPorts lines.now) }
    ensures fault { IfErr result (IsStopBy (HasManyPorts lines.now)) }
{
    if let Some(at) = find_excess(lines, PortKind::Input) {
        return Err(fault_at(at, HierKind::TooManyInputs));
    }
    if let Some(at) = find_excess(lines, PortKind::Output) {
        return Err(fault_at(at, HierKind::TooManyOutputs));
    }
    Ok(())
}

// The offset of the first port of a kind beyond the limit, if there are more.
fn find_excess(lines: &[ModelLine<'_>], kind: PortKind) -> Option<u64>
    ensures { MatchOption result (length (flat_map (words_on kind) lines.now) ≤ most_ports)
        (λ at. IsExcess (flat_map (words_on kind) lines.now) at) }
{
    let mut left = MAX_PORTS as usize;
    for line in lines.iter() {
        let words = words_on(line, kind);
        if words.len() > left {
            return Some(words[left].at());
        }
        left -= words.len();
    }
    None
}

// The words of a line that name ports of a kind.
fn words_on<'m, 'a>(line: &'m ModelLine<'a>, kind: PortKind) -> &'m [Span<'a>]
    ensures { result.now ≡ words_on kind line.now }
{
    match kind {
        PortKind::Input => inputs_on(line),
        PortKind::Output => outputs_on(line),
    }
}

fn inputs_on<'m, 'a>(line: &'m ModelLine<'a>) -> &'m [Span<'a>]
    ensures { result.now ≡ inputs_on line.now }
{
    match line {
        ModelLine::Inputs(words) => words.as_slice(),
        _ => &[],
    }
}

fn outputs_on<'m, 'a>(line: &'m ModelLine<'a>) -> &'m [Span<'a>]
    ensures { result.now ≡ outputs_on line.now }
{
    match line {
        ModelLine::Outputs(words) => words.as_slice(),
        _ => &[],
    }
}
