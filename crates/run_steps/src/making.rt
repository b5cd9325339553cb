//! The pair of netlists that a number gives, written to two files.

ghost use Rattle.std.specs.Prelude.{◌≡◌, ◌++◌, IfOk};
ghost use Rattle.net_print.specs.BlifLines.{blif_text};
ghost use Rattle.net_print.specs.Files.{aig_text};
ghost use Rattle.shelf_core.specs.State.{Closed};
ghost use Rattle.run_steps.specs.Make.{IsDrawn};
ghost use Rattle.run_steps.specs.Steps.{Decides, WritesPair, WritesText};
ghost use Rattle.run_steps.specs.Commands.{asked_make};

use crate::concluding::unwritten;
use crate::{write_text, write_with_end};
use check_steps::{Ending, Make, Outcome, report_line};
use gen_pair::{GenPair, make};
use net_core::Graphs;
use net_print::{AigParts, BlifParts};
use shelf_core::Shelf;
use std::alloc::{AllocError, Global};
use text_core::Parts;

/// Makes the pair of a number, and writes the first netlist in the binary form of AIGER and the second as BLIF. The
/// error is an outcome whose report is one line: memory ran out, or a file was not written.
pub fn make_files<S: Shelf>(
    alloc: Global,
    asked: &Make<'_>,
    shelf: &mut S,
) -> Result<Ending, Outcome>
    requires { (S.state shelf.old).mode ≡ Closed }
    ensures { Decides S.tells (asked_make asked.now) (S.state shelf.old) (S.state shelf.new) result }
{
    let outcome = Outcome::Made;
    let report = report_line(alloc, &outcome)?;
    let pair = pair_of(alloc, asked.number)?;
    write_pair(alloc, shelf, asked, &pair)?;
    Ok(Ending { outcome, report })
}

/// The pair of a number. Its graphs' gates stand in order, so that what is printed of it can be read.
fn pair_of(alloc: Global, number: u64) -> Result<GenPair, AllocError>
    ensures { IfOk result (IsDrawn number) }
{
    let pair = make(alloc, number)?;
    let graphs = Graphs::new(&pair.first.graph, &pair.second.graph);
    // the gates of a graph are in order, and its ports fewer than 2^32
    let _first = graphs.first();
    let _second = graphs.second();
    Ok(pair)
}

/// Writes the netlists of a pair, each part by part.
fn write_pair<S: Shelf>(
    alloc: Global,
    shelf: &mut S,
    asked: &Make<'_>,
    pair: &GenPair,
) -> Result<(), Outcome>
    requires { (S.state shelf.old).mode ≡ Closed }
    ensures { WritesPair S.tells asked.now.first.now asked.now.second.now
        (aig_text pair.now.first) (blif_text pair.now.second.graph) (S.state shelf.old) (S.state shelf.new) result }
{
    let mut first = AigParts::new(&pair.first);
    write_named(alloc, shelf, asked.first, &mut first)?;
    let mut second = BlifParts::new(&pair.second.graph);
    write_named(alloc, shelf, asked.second, &mut second)
}

/// Writes a text under a name, or says how the run ends without it.
pub fn write_named<S: Shelf, P: Parts>(
    alloc: Global,
    shelf: &mut S,
    name: &str,
    text: &mut P,
) -> Result<(), Outcome>
    requires { (S.state shelf.old).mode ≡ Closed }
    ensures { WritesText S.tells name.now (P.left text.old) (S.state shelf.old) (S.state shelf.new) result }
{
    match write_text(alloc, shelf, name, text) {
        Ok(()) => Ok(()),
        Err(stop) => Err(unwritten(stop)),
    }
}

/// Writes a text and its end under a name, the end by itself, or says how the run ends without them.
pub fn write_named_with_end<S: Shelf, P: Parts>(
    alloc: Global,
    shelf: &mut S,
    name: &str,
    text: &mut P,
    end: &[u8],
) -> Result<(), Outcome>
    requires { (S.state shelf.old).mode ≡ Closed }
    ensures { WritesText S.tells name.now (P.left text.old ++ end.now) (S.state shelf.old) (S.state shelf.new) result }
{
    match write_with_end(alloc, shelf, name, text, end) {
        Ok(()) => Ok(()),
        Err(stop) => Err(unwritten(stop)),
    }
}
