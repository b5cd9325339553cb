//! Matchings from cells.

ghost use Rattle.std.specs.Prelude.{◌≡◌, IfOk, IfSome};
ghost use Rattle.circuits.specs.Matches.{HavePorts};

use account_core::PairableGraphs;
use cell_splits::State;
use circuits::PortKind;
use items::Items;
use net_core::{Matching, Side};
use port_cells::{Cells, port_at};
use std::alloc::{AllocError, Global};

/// The matching of cells, if they make one: within a cell the first literal goes to the first, and so on.
pub(crate) fn matching_of(
    alloc: Global,
    graphs: &PairableGraphs<'_>,
    state: &State,
) -> Result<Option<Matching>, AllocError>
    ensures { IfOk result (λ found. IfSome found
        (λ matching. HavePorts graphs.now.first graphs.now.second matching.inputs matching.outputs)) }
{
    let inputs = graphs.ports(PortKind::Input);
    let outputs = graphs.ports(PortKind::Output);
    let matching = Matching {
        inputs: entries(alloc, &state.inputs)?,
        outputs: entries(alloc, &state.outputs)?,
    };
    if matching.check_shape(inputs, outputs) {
        return Ok(Some(matching));
    }
    Ok(None)
}

// Where each port of the first circuit goes.
fn entries(alloc: Global, cells: &Cells) -> Result<Items<(u32, bool)>, AllocError> {
    let left = cells.members(alloc, Side::First)?;
    let right = cells.members(alloc, Side::Second)?;
    let mut entries = vec![in alloc; (0u32, false); cells.of(Side::First).len() / 2]?;
    for (mine, its) in left.iter().zip(right.iter()) {
        put_entries(mine, its, &mut entries);
    }
    Ok(Items::from_vec(entries))
}

fn put_entries(mine: &[usize], its: &[usize], entries: &mut [(u32, bool)]) {
    for (from, to) in mine.iter().zip(its.iter()) {
        put_entry(*from, *to, entries);
    }
}

fn put_entry(from: usize, to: usize, entries: &mut [(u32, bool)]) {
    if (from % 2 == 0) & (from / 2 < entries.len()) {
        entries[from / 2] = (port_at(to / 2), to % 2 == 1);
    }
}
