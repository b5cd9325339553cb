//! The support of an output.

ghost use Rattle.std.specs.Prelude.{◌≡◌, ◌<◌, ◌++◌, IfOk, OnOk, length};
ghost use Rattle.oracle_core.specs.Oracles.{Serves};
ghost use Rattle.fact_tests.specs.Outputs.{IsOutput, MayAsk, arity, entry_of, function};
ghost use Rattle.claim_core.specs.Rows.{ListsSupport};

use crate::first_output::FirstOutput;
use crate::unate_test::unateness;
use claim_core::Unate;
use cnf_core::Stop;
use items::Items;
use oracle_core::Oracle;
use query_core::Ledger;
use std::alloc::AllocError;

/// The inputs that the output depends on, ascending, and how.
pub(crate) fn support<O: Oracle>(
    output: &FirstOutput<'_>,
    oracle: &mut O,
    ledger: &mut Ledger,
) -> Result<Items<(u32, Unate)>, Stop>
    requires may { MayAsk output.now.graphs.now (O.known oracle.old) ledger.old }
    requires output { IsOutput output.now }
    ensures serves { Serves (O.known oracle.old) (O.known oracle.new) ledger.old ledger.new result }
    ensures support { IfOk result (ListsSupport (arity output.now) (function output.now) 0 (arity output.now)) }
{
    let mut entries = Items::new(output.alloc);
    let inputs = output.graphs.first().inputs();
    for input in 0..inputs {
        let unate = unateness(output, input, oracle, ledger)?;
        note(input, unate, &mut entries)?;
    }
    Ok(entries)
}

/// Adds the entry of an input, where the output depends on it.
fn note(
    input: u32,
    unate: Option<Unate>,
    entries: &mut Items<(u32, Unate)>,
) -> Result<(), AllocError>
    ensures { OnOk result (entries.new ≡ entries.old ++ entry_of input unate) }
{
    if let Some(unate) = unate {
        entries.push((input, unate))?;
    }
    Ok(())
}
