//! A netlist with one signal in place of all that compute the same, or the complement.

ghost use Rattle.std.specs.Prelude.{◌≡◌, length, map, IfOk};
ghost use Rattle.shelf_core.specs.State.{Closed};
ghost use Rattle.print_laws.specs.Printable.{symbol_name};
ghost use Rattle.run_steps.specs.Commands.{asked_sweep};
ghost use Rattle.run_steps.specs.Steps.{Decides};
ghost use Rattle.rewrite_steps.specs.Rewriting.{IsSweptIn, Never, Rewrites};

use crate::ending::end_printed;
use check_steps::{Ending, Outcome, Sweep, Which, read_netlist};
use net_core::Graph;
use net_file::Named;
use run_steps::symbol_names;
use shelf_core::Shelf;
use std::alloc::{AllocError, Global};
use sweep::{Swept, reduce};
use watch_core::Watch;

/// The number that the vectors are drawn from. Any number serves: a run is to be the same each time.
const SEED: u64 = 1;

/// Reads the netlist that the words name, and writes it with one signal in place of all that compute the same, or the
/// complement, in the ASCII form of AIGER. The error is an outcome whose report is one line: the file is no netlist, or
/// there was a fault.
pub fn sweep_files<S: Shelf, W: Watch>(
    alloc: Global,
    asked: &Sweep<'_>,
    shelf: &mut S,
    watch: &W,
) -> Result<Ending, Outcome>
    requires { (S.state shelf.old).mode ≡ Closed }
    ensures { Decides S.tells (asked_sweep asked.now) (S.state shelf.old) (S.state shelf.new) result }
{
    let netlist = read_netlist(alloc, shelf, Which::First, asked.file, watch)?;
    sweep_to(alloc, asked.swept, &netlist, asked.allowance, shelf)
}

/// Sweeps a netlist within an allowance, and writes it under a name.
fn sweep_to<S: Shelf>(
    alloc: Global,
    name: &str,
    netlist: &Named,
    allowance: u64,
    shelf: &mut S,
) -> Result<Ending, Outcome>
    requires { (S.state shelf.old).mode ≡ Closed }
    ensures { Rewrites (IsSweptIn netlist.now allowance) Never
        S.tells name.now (S.state shelf.old) (S.state shelf.new) result }
{
    let Swept { net, left } = reduce(alloc, netlist, allowance, SEED)?;
    let Named {
        graph,
        input_names: _input_names,
        output_names: _output_names,
    } = net;
    let printed = with_symbol_names(alloc, netlist, graph)?;
    let outcome = Outcome::Swept {
        before: netlist.graph.gates().len() as u64,
        after: printed.graph.gates().len() as u64,
        left,
    };
    end_printed(alloc, shelf, name, &printed, outcome)
}

/// A graph with as many ports as a netlist has, by their names as symbols are printed.
fn with_symbol_names(alloc: Global, netlist: &Named, graph: Graph) -> Result<Named, AllocError>
    requires inputs { graph.inputs ≡ netlist.now.graph.inputs }
    requires outputs { length graph.outputs ≡ length netlist.now.graph.outputs }
    ensures graph { IfOk result (λ named. named.graph ≡ graph) }
    ensures input_names { IfOk result (λ named. named.input_names ≡ map symbol_name netlist.now.input_names) }
    ensures output_names { IfOk result (λ named. named.output_names ≡ map symbol_name netlist.now.output_names) }
{
    let input_names = symbol_names(alloc, &netlist.input_names)?;
    let output_names = symbol_names(alloc, &netlist.output_names)?;
    Ok(Named {
        graph,
        input_names,
        output_names,
    })
}
