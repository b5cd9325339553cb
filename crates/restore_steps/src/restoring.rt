//! A netlist with the ports of another one that it matches, written to a file.

ghost use Rattle.std.specs.Prelude.{◌≡◌, IfOk};
ghost use Rattle.circuits.specs.Matches.{IsMatchOfFunctions};
ghost use Rattle.shelf_core.specs.State.{Closed};
ghost use Rattle.run_steps.specs.Commands.{asked_restore};
ghost use Rattle.run_steps.specs.Steps.{Decides};
ghost use Rattle.restore_steps.specs.Restoring.{HasFirstPorts, Restores};

use check_steps::{Check, Ending, Judgement, Outcome, Restore, judge_files, report_line};
use net_core::Matching;
use net_file::Named;
use net_print::AigParts;
use port_moves::restored;
use run_steps::{reported, symbol_names, write_named};
use shelf_core::Shelf;
use std::alloc::{AllocError, Global};
use watch_core::Watch;

/// Has the account that the words name judged as a check does, and where it proves a match of the two netlists, writes
/// the second one with the first one's ports, in the binary form of AIGER. Any other verdict is the answer, and
/// nothing is written. The error is an outcome whose report is one line: a file is no netlist, or there was a fault.
pub fn restore_files<S: Shelf, W: Watch>(
    alloc: Global,
    asked: &Restore<'_>,
    shelf: &mut S,
    watch: &W,
) -> Result<Ending, Outcome>
    requires { (S.state shelf.old).mode ≡ Closed }
    ensures { Decides S.tells (asked_restore asked.now) (S.state shelf.old) (S.state shelf.new) result }
{
    let check = Check {
        first: asked.first,
        second: asked.second,
        account: asked.account,
    };
    let judgement = judge_files(alloc, &check, shelf, watch)?;
    let Judgement {
        first,
        second,
        outcome,
    } = judgement;
    match outcome {
        Outcome::AcceptedMatch(matching) => {
            restore_by(alloc, asked.restored, &first, &second, &matching, shelf)
        }
        other => reported(alloc, other),
    }
}

/// Writes the second of two netlists with the first one's ports, by a match of them. The error is that memory ran
/// out, or that the file wasn't written.
fn restore_by<S: Shelf>(
    alloc: Global,
    name: &str,
    first: &Named,
    second: &Named,
    matching: &Matching,
    shelf: &mut S,
) -> Result<Ending, Outcome>
    requires closed { (S.state shelf.old).mode ≡ Closed }
    requires matches { IsMatchOfFunctions first.now.graph second.now.graph
        matching.now.inputs matching.now.outputs }
    ensures { Restores S.tells first.now second.now name.now (S.state shelf.old) (S.state shelf.new) result }
{
    let netlist = with_ports(alloc, first, second, matching)?;
    let outcome = Outcome::Restored {
        gates: netlist.graph.gates().len() as u64,
    };
    let report = report_line(alloc, &outcome)?;
    let mut text = AigParts::new(&netlist);
    write_named(alloc, shelf, name, &mut text)?;
    Ok(Ending { outcome, report })
}

/// The gates of `second` with the ports of `first`, with its names.
fn with_ports(
    alloc: Global,
    first: &Named,
    second: &Named,
    matching: &Matching,
) -> Result<Named, AllocError>
    requires { IsMatchOfFunctions first.now.graph second.now.graph
        matching.now.inputs matching.now.outputs }
    ensures { IfOk result (HasFirstPorts first.now second.now) }
{
    let graph = restored(alloc, &second.graph, matching)?;
    let input_names = symbol_names(alloc, &first.input_names)?;
    let output_names = symbol_names(alloc, &first.output_names)?;
    Ok(Named {
        graph,
        input_names,
        output_names,
    })
}
