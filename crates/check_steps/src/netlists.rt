//! Netlists from a shelf.

ghost use Rattle.std.specs.Prelude.{◌≡◌, ◌↔◌, ◌≤◌, IsTrue, Err, IfOk, IfErr, length};
ghost use Rattle.net_core.specs.Limits.{most_bytes};
ghost use Rattle.shelf_core.specs.State.{Closed};
ghost use Rattle.net_file.specs.declared.fault.NetFault.{NetFault};
ghost use Rattle.check_steps.specs.Circuits.{BeginsAsAiger, IsCircuitFault};
ghost use Rattle.check_steps.specs.Reading.{ReadAs, ReadsNetlist, IsStopOf};

use crate::outcome::{Outcome, Which};
use crate::{File, read_file};
use net_file::{Named, NetStop};
use shelf_core::Shelf;
use std::alloc::Global;
use watch_core::{Stage, Watch};

/// The most bytes that a netlist may have, 64 MiB: what is printed as BLIF of one within the other limits has no more.
pub const NETLIST_LIMIT: u64 = 67_108_864;

/// Reads the netlist under a name. The error is how the run ends where none stands there: `which` is the file that
/// it names. A file of more than 67,108,864 bytes is closed unread.
pub fn read_netlist<S: Shelf, W: Watch>(
    alloc: Global,
    shelf: &mut S,
    which: Which,
    name: &str,
    watch: &W,
) -> Result<Named, Outcome>
    requires { (S.state shelf.old).mode ≡ Closed }
    ensures { ReadsNetlist S.tells which name.now (S.state shelf.old) (S.state shelf.new) result }
{
    watch.at(Stage::Reading {
        file: place_of(which),
    });
    match read_file(alloc, shelf, name, NETLIST_LIMIT)? {
        File::Absent => Err(Outcome::Absent(which)),
        File::TooLong => Err(Outcome::TooLarge(which)),
        File::Bytes(bytes) => parse_netlist(alloc, which, &bytes),
    }
}

/// A file's place among those that the words name, from 1.
fn place_of(which: Which) -> u32 {
    match which {
        Which::First => 1,
        Which::Second => 2,
        Which::Account => 3,
    }
}

/// The netlist that a file's bytes are.
fn parse_netlist(alloc: Global, which: Which, bytes: &[u8]) -> Result<Named, Outcome>
    requires { length bytes.now ≤ most_bytes }
    ensures netlist { IfOk result
        (λ named. ReadAs bytes.now named.graph named.input_names named.output_names) }
    ensures stop { IfErr result (IsStopOf which bytes.now) }
{
    match read_circuit(alloc, bytes) {
        Ok(named) => Ok(named),
        Err(NetStop::Fault(fault)) => Err(Outcome::Malformed {
            which,
            kind: fault.kind,
            at: fault.at,
        }),
        Err(NetStop::Memory) => Err(Outcome::Memory),
    }
}

/// Reads a file in the format that its first four bytes say: AIGER where they are `aag ` or `aig `, else BLIF.
fn read_circuit(alloc: Global, bytes: &[u8]) -> Result<Named, NetStop>
    requires { length bytes.now ≤ most_bytes }
    ensures netlist { IfOk result
        (λ named. ReadAs bytes.now named.graph named.input_names named.output_names) }
    ensures fault { (fault : NetFault) → result ≡ Err (NetStop.Fault fault)
        → IsCircuitFault bytes.now fault.kind fault.at }
{
    if begins_as_aiger(bytes) {
        aiger_reader::read(alloc, bytes)
    } else {
        blif_reader::read(alloc, bytes)
    }
}

fn begins_as_aiger(bytes: &[u8]) -> bool
    ensures { IsTrue result ↔ BeginsAsAiger bytes.now }
{
    bytes.starts_with(b"aag ") || bytes.starts_with(b"aig ")
}
