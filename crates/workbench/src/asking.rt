//! Questions about two netlists whose ports correspond by position.

ghost use Rattle.std.specs.Prelude.{IfOk, IsTrue};
ghost use Rattle.circuits.specs.Matches.{HavePorts};
ghost use Rattle.claim_core.specs.Queries.{IsQuery};

use anyhow::{Result, bail, ensure};
use ask_core::{Answer, ask};
use claim_core::{Query, of_match};
use cnf_core::{Log, Stop};
use items::Items;
use net_core::{Graphs, Matching};
use query_core::{Ledger, QueryBase};
use refute_check::Refuter;
use std::alloc::{AllocError, AllocFailed, Global};

/// Asks whether an output of the first netlist can have the value where that of the second has not, with n learned
/// lines at most, and prints the answer: `vector` with a bit for each input, `refuted` with the number of the log's
/// lines where each of them was derived again, or `spent` with the number of learned lines.
pub(crate) fn run<R: Print + AllocGlobal>(
    rt: &R,
    graphs: &Graphs<'_>,
    output: u32,
    value: bool,
    budget: u64,
) -> Result<()> {
    let alloc = rt.alloc();
    let query = question(alloc, graphs, output, value)?;
    let mut ledger = Ledger::new(alloc, budget);
    match ask(alloc, graphs, &query, &mut ledger) {
        Ok(Answer::Vector(vector)) => {
            let bits = text_of(alloc, &vector)?;
            println!(rt; "vector {bits}")?;
        }
        Ok(Answer::Refuted(log)) => {
            ensure!(
                is_derived(alloc, graphs, &query, &log)?,
                "a line of the log isn't derived"
            );
            println!(rt; "refuted {} checked", log.lines.len())?;
        }
        Err(Stop::Spent(learned)) => println!(rt; "spent {learned}")?,
        Err(Stop::Memory) => bail!("out of memory"),
    }
    Ok(())
}

/// The question of an output and a value.
fn question(alloc: Global, graphs: &Graphs<'_>, output: u32, value: bool) -> Result<Query>
    ensures { IfOk result (IsQuery graphs.now) }
{
    let inputs = graphs.first().inputs();
    let outputs = graphs.first().outputs().len();
    let matching = Matching {
        inputs: in_place(alloc, inputs)?,
        outputs: in_place(alloc, outputs as u32)?,
    };
    ensure!(
        have_ports(graphs, &matching),
        "the netlists have different ports"
    );
    ensure!((output as usize) < outputs, "there is no such output");
    Ok(of_match(alloc, graphs, &matching, output, value)?)
}

/// Each of n ports goes to the one of its position.
fn in_place(alloc: Global, ports: u32) -> Result<Items<(u32, bool)>, AllocFailed<(u32, bool)>> {
    let mut places = Items::new(alloc);
    for place in 0..ports {
        places.push((place, false))?;
    }
    Ok(places)
}

/// Whether two netlists have as many ports, and a matching pairs them.
fn have_ports(graphs: &Graphs<'_>, matching: &Matching) -> bool
    ensures { IsTrue result
        → HavePorts graphs.now.first graphs.now.second matching.now.inputs matching.now.outputs }
{
    let (inputs, outputs) = (graphs.first().inputs(), graphs.first().outputs().len());
    if graphs.second().inputs() != inputs || graphs.second().outputs().len() != outputs {
        return false;
    }
    matching.check_shape(inputs, outputs as u32)
}

/// Whether each line of a log is derived, and the last one is empty.
fn is_derived(
    alloc: Global,
    graphs: &Graphs<'_>,
    query: &Query,
    log: &Log,
) -> Result<bool, AllocError>
    requires { IsQuery graphs.now query.now }
{
    let base = QueryBase::new(alloc, graphs, query)?;
    let mut refuter = Refuter::new(alloc, base)?;
    for line in log.lines.iter() {
        refuter.reserve(line.clause.len())?;
        if let Err(_fault) = refuter.line(line) {
            return Ok(false);
        }
    }
    Ok(refuter.closed())
}

/// The bits as digits.
fn text_of(alloc: Global, bits: &[bool]) -> Result<String, AllocError> {
    let mut text = String::new(alloc);
    for bit in bits.iter() {
        text.push(if *bit { '1' } else { '0' })?;
    }
    Ok(text)
}
