//! The rows of all outputs.

ghost use Rattle.std.specs.Prelude.{◌≡◌, ◌<◌, [], IfOk, length, map, slice_index_or};
ghost use Rattle.net_core.specs.Sides.{graph_of};
ghost use Rattle.account_core.specs.Given.{decided_by};
ghost use Rattle.fact_bans.specs.Asking.{AreSame, MayAskBy, ServesBy, loans};
ghost use Rattle.class_refine.specs.Rows.{AreAllRows, AreRowsOf};

use crate::swap_index::swaps_of;
use account_core::PairableGraphs;
use ban_book::InputClaims;
use claim_core::Claim;
use cnf_core::Stop;
use fact_bans::{Asker, claims_of};
use indexmap::IndexMap;
use items::Items;
use net_core::Side;
use oracle_core::Oracle;

/// The decided claims of each output of both circuits: a row with those of one input, in the order of the outputs.
pub(crate) struct Rows {
    pub(crate) first: Items<Items<InputClaims>>,
    pub(crate) second: Items<Items<InputClaims>>,
    /// The numbers of the facts of claims of two inputs, by claim.
    pub(crate) swaps: IndexMap<Claim, u64>,
}

// By hand, so that each exit of a function has one call for it (docs/IDIOMS.md).
impl Drop for Rows {
    fn drop(self) {
        let Rows {
            first: _first,
            second: _second,
            swaps: _swaps,
        } = self;
    }
}

/// Has the claims of one input of all outputs decided. Each output has to go to one of the other circuit, so that none
/// of them is decided in vain.
pub(crate) fn rows_of<O: Oracle>(
    graphs: &PairableGraphs<'_>,
    asker: &mut Asker<'_, O>,
) -> Result<Rows, Stop>
    requires may { MayAskBy graphs.now (loans O.known asker.old) }
    ensures same { AreSame (loans O.known asker.old) (loans O.known asker.new) }
    ensures serves { ServesBy (loans O.known asker.old) (loans O.known asker.new) result }
    ensures rows { IfOk result (AreAllRows graphs.now (map decided_by (O.known asker.new.oracle.now).facts)) }
{
    // the facts of an oracle are of its circuits
    let _facts = asker.oracle.facts();
    let first = side_rows(graphs, asker, Side::First)?;
    let second = side_rows(graphs, asker, Side::Second)?;
    let swaps = swaps_of(asker.alloc, asker.oracle.facts())?;
    Ok(Rows {
        first,
        second,
        swaps,
    })
}

// Has the claims of one input of all outputs of one circuit decided.
fn side_rows<O: Oracle>(
    graphs: &PairableGraphs<'_>,
    asker: &mut Asker<'_, O>,
    side: Side,
) -> Result<Items<Items<InputClaims>>, Stop>
    requires may { MayAskBy graphs.now (loans O.known asker.old) }
    ensures same { AreSame (loans O.known asker.old) (loans O.known asker.new) }
    ensures serves { ServesBy (loans O.known asker.old) (loans O.known asker.new) result }
    ensures rows { IfOk result (AreRowsOf graphs.now (map decided_by (O.known asker.new.oracle.now).facts) side
        (length (graph_of graphs.now side).outputs)) }
{
    // the facts of an oracle are of its circuits
    let _facts = asker.oracle.facts();
    let outputs = graphs.side(side).outputs().len() as u32;
    let mut rows = Items::new(asker.alloc);
    for output in 0..outputs {
        let row = claims_of(graphs, asker, side, output)?;
        rows.push(row)?;
    }
    Ok(rows)
}

/// The row of an output.
pub(crate) fn row_at(rows: &Items<Items<InputClaims>>, output: u32) -> &[InputClaims]
    requires { output < length rows.now }
    ensures { result.now ≡ slice_index_or rows.now output [] }
{
    &rows[output as usize]
}
