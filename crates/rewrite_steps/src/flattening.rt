//! A file of several models as one flat netlist.

ghost use Rattle.std.specs.Prelude.{◌≡◌, ◌≤◌, length};
ghost use Rattle.net_core.specs.Limits.{most_bytes};
ghost use Rattle.shelf_core.specs.State.{Closed};
ghost use Rattle.run_steps.specs.Commands.{asked_flatten};
ghost use Rattle.run_steps.specs.Steps.{Decides};
ghost use Rattle.rewrite_steps.specs.Rewriting.{IsFaultOfModels, IsFlatIn, Rewrites};

use crate::ending::end_printed;
use check_steps::{Ending, File, Flatten, NETLIST_LIMIT, Outcome, Which, read_file};
use hier_blif::{HierStop, read};
use run_steps::reported;
use shelf_core::Shelf;
use std::alloc::Global;

/// Reads the file of models that the words name, and where it has no fault, writes it as one flat netlist, in the ASCII
/// form of AIGER. That there is no file, that it is too long, or that it has a fault, is an answer too, and nothing is
/// written. The error is an outcome whose report is one line: there was a fault of the outside, or no memory.
pub fn flatten_files<S: Shelf>(
    alloc: Global,
    asked: &Flatten<'_>,
    shelf: &mut S,
) -> Result<Ending, Outcome>
    requires { (S.state shelf.old).mode ≡ Closed }
    ensures { Decides S.tells (asked_flatten asked.now) (S.state shelf.old) (S.state shelf.new) result }
{
    match read_file(alloc, shelf, asked.file, NETLIST_LIMIT)? {
        File::Absent => reported(alloc, Outcome::Absent(Which::First)),
        File::TooLong => reported(alloc, Outcome::TooLarge(Which::First)),
        File::Bytes(bytes) => flatten_to(alloc, asked.flat, &bytes, shelf),
    }
}

/// Flattens the models of a file, and writes them under a name as one netlist; or says the file's first fault.
fn flatten_to<S: Shelf>(
    alloc: Global,
    name: &str,
    file: &[u8],
    shelf: &mut S,
) -> Result<Ending, Outcome>
    requires closed { (S.state shelf.old).mode ≡ Closed }
    requires short { length file.now ≤ most_bytes }
    ensures { Rewrites (IsFlatIn file.now) (IsFaultOfModels file.now)
        S.tells name.now (S.state shelf.old) (S.state shelf.new) result }
{
    match read(alloc, file) {
        Ok(hier) => {
            let outcome = Outcome::Flattened {
                models: hier.models,
                instances: hier.instances,
                gates: hier.net.graph.gates().len() as u64,
            };
            end_printed(alloc, shelf, name, &hier.net, outcome)
        }
        Err(HierStop::Fault(fault)) => reported(alloc, Outcome::BadHierarchy(fault)),
        Err(HierStop::Memory) => Err(Outcome::Memory),
    }
}
