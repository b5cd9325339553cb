//! The end of a run that wrote an account or a netlist.

ghost use Rattle.std.specs.Prelude.{◌≡◌, ◌≤◌, length};
ghost use Rattle.net_print.specs.Files.{aag_text};
ghost use Rattle.shelf_core.specs.State.{Closed};
ghost use Rattle.rewrite_steps.specs.Rewriting.{EndsWritten};

use crate::bytes_left::BytesLeft;
use account_file::is_binary;
use check_steps::{Ending, Outcome, report_line};
use net_file::Named;
use net_print::AagParts;
use run_steps::{write_named, write_named_with_end};
use shelf_core::Shelf;
use std::alloc::Global;

/// How many bytes the last record of an account has as text: `end` and its line feed.
const END_OF_TEXT: usize = 4;

/// How many bytes it has in version 2: its tag, and the eight of an empty body's length.
const END_IN_BYTES: usize = 9;

/// Writes an account under a name, its last record by itself, so that a file that was cut off doesn't end as an account
/// does. Then the run ends by the outcome, which its line says. The error is that memory ran out, or that the file
/// wasn't written.
pub(crate) fn end_written<S: Shelf>(
    alloc: Global,
    shelf: &mut S,
    name: &str,
    account: &[u8],
    outcome: Outcome,
) -> Result<Ending, Outcome>
    requires { (S.state shelf.old).mode ≡ Closed }
    ensures { EndsWritten S.tells outcome account.now name.now (S.state shelf.old) (S.state shelf.new) result }
{
    let report = report_line(alloc, &outcome)?;
    let (records, end) = account.split_at(place_of_end(account));
    let mut text = BytesLeft::new(records);
    write_named_with_end(alloc, shelf, name, &mut text, end)?;
    Ok(Ending { outcome, report })
}

/// Writes a netlist under a name, in the ASCII form of AIGER. Then the run ends by the outcome, which its line says. The
/// error is that memory ran out, or that the file wasn't written.
pub(crate) fn end_printed<S: Shelf>(
    alloc: Global,
    shelf: &mut S,
    name: &str,
    netlist: &Named,
    outcome: Outcome,
) -> Result<Ending, Outcome>
    requires { (S.state shelf.old).mode ≡ Closed }
    ensures { EndsWritten S.tells outcome (aag_text netlist.now) name.now (S.state shelf.old) (S.state shelf.new)
        result }
{
    let report = report_line(alloc, &outcome)?;
    let mut text = AagParts::new(netlist);
    write_named(alloc, shelf, name, &mut text)?;
    Ok(Ending { outcome, report })
}

/// Where the last record of an account begins.
fn place_of_end(account: &[u8]) -> usize
    ensures { result ≤ length account.now }
{
    let size = if is_binary(account) {
        END_IN_BYTES
    } else {
        END_OF_TEXT
    };
    // an account has its last record; of other bytes that are fewer all are written at once
    account.len().saturating_sub(size)
}
