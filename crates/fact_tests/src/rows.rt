//! What is known of each output of a circuit.

ghost use Rattle.std.specs.Prelude.{◌≡◌, ◌<◌, IfOk, length};
ghost use Rattle.oracle_core.specs.Oracles.{Serves, Suits};
ghost use Rattle.fact_tests.specs.Outputs.{IsOutput, MayAsk, arity, function};
ghost use Rattle.claim_core.specs.Rows.{AreRows, IsRow};

use crate::first_output::FirstOutput;
use crate::func_support::support;
use crate::readers::Readers;
use crate::symmetric_pairs::symmetries;
use claim_core::OutputInfo;
use cnf_core::Stop;
use net_core::Graphs;
use oracle_core::Oracle;
use query_core::Ledger;
use sim_signature::Supports;
use std::alloc::Global;

/// What an oracle knows of each output of the first circuit: a row for each.
pub(crate) fn rows_by<'a, O: Oracle>(
    alloc: Global,
    graphs: &'a Graphs<'a>,
    supports: &'a Supports<'a>,
    readers: &'a Readers<'a>,
    oracle: &mut O,
    ledger: &mut Ledger,
) -> Result<Vec<OutputInfo>, Stop>
    requires graphs { (O.known oracle.old).graphs ≡ graphs.now }
    requires supports { supports.now ≡ graphs.now.first }
    requires readers { readers.now ≡ graphs.now.first }
    requires suits { Suits (O.known oracle.old) ledger.old }
    ensures serves { Serves (O.known oracle.old) (O.known oracle.new) ledger.old ledger.new result }
    ensures rows { IfOk result (λ rows. AreRows graphs.now.first rows.items) }
{
    // the facts of an oracle are of its circuits
    let _facts = oracle.facts();
    let _second = graphs.second();
    let mut rows = Vec::new(alloc);
    let count = graphs.first().outputs().len() as u32;
    for number in 0..count {
        let output = FirstOutput {
            alloc,
            graphs,
            supports,
            readers,
            number,
        };
        let row = row(&output, oracle, ledger)?;
        rows.push(row)?;
    }
    Ok(rows)
}

/// The row of an output.
fn row<O: Oracle>(
    output: &FirstOutput<'_>,
    oracle: &mut O,
    ledger: &mut Ledger,
) -> Result<OutputInfo, Stop>
    requires may { MayAsk output.now.graphs.now (O.known oracle.old) ledger.old }
    requires output { IsOutput output.now }
    ensures serves { Serves (O.known oracle.old) (O.known oracle.new) ledger.old ledger.new result }
    ensures row { IfOk result (IsRow (arity output.now) (function output.now)) }
{
    let support = support(output, oracle, ledger)?;
    let pairs = symmetries(output, &support, oracle, ledger)?;
    Ok(OutputInfo { support, pairs })
}
