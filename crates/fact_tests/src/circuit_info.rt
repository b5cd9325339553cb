//! What is known of the outputs of one circuit.

ghost use Rattle.std.specs.Prelude.{◌≡◌, IfOk};
ghost use Rattle.oracle_core.specs.Oracles.{Serves, Suits};
ghost use Rattle.claim_core.specs.Rows.{AreRows};

use crate::fact_book::FactBook;
use crate::readers::Readers;
use crate::rows::rows_by;
use claim_core::OutputInfo;
use cnf_core::Stop;
use net_core::Graphs;
use oracle_core::Oracle;
use query_core::Ledger;
use sim_signature::Supports;
use std::alloc::Global;
use watch_core::Watch;

/// Of each output of the first circuit the inputs that it depends on, and how, and the pairs of these inputs that may
/// be exchanged. An output depends on no input that it doesn't reach through gates, and of these nothing is asked. The
/// others are decided by claims; of two swaps that make a symmetry the second is asked only where the first holds, and
/// neither where the gates near the two inputs show it. Inputs that may be exchanged are a class, so each input is
/// compared with one of each class.
///
/// # Errors
///
/// `Spent` where a line had to be learned and the budget was spent; the ledger keeps it as the refused line. `Memory`
/// when out of memory; nothing is said of the ledger then.
pub fn info<W: Watch>(
    alloc: Global,
    graphs: &Graphs<'_>,
    book: &mut FactBook<'_, W>,
    ledger: &mut Ledger,
) -> Result<Vec<OutputInfo>, Stop>
    requires graphs { book.old.graphs ≡ graphs.now }
    requires suits { Suits book.old ledger.old }
    ensures serves { Serves book.old book.new ledger.old ledger.new result }
    ensures rows { IfOk result (λ rows. AreRows graphs.now.first rows.items) }
{
    // the facts of a book are of its circuits
    let _facts = book.facts();
    let supports = Supports::new(alloc, graphs.first())?;
    let readers = Readers::new(alloc, graphs.first())?;
    rows_by(alloc, graphs, &supports, &readers, book, ledger)
}
