//! Names, numbered in the order in which they come.

ghost use Rattle.std.specs.Prelude.{◌≡◌, ◌<◌, List, true, false, length, map, MatchOption, IfOk, IfErr, OnOk};
ghost use Rattle.std.specs.List.{list_any, position_or_len};
ghost use Rattle.std.specs.Str.{bytes_eq};
ghost use Rattle.text_core.specs.Piece.{Piece};
ghost use Rattle.net_file.specs.Stops.{IsStopBy};
ghost use Rattle.blif_reader.specs.Numbers.{names_of, bytes_of, IsAdded, AreNamed, AreDefined, IsRepeatedPort};
ghost use Rattle.blif_reader.specs.Numbers.{IsRepeatedName};

use crate::survey::PortWord;
use circuits::PortKind;
use indexmap::IndexSet;
use net_file::{NetFault, NetKind, NetStop};
use std::alloc::{AllocError, Global};
use text_core::Span;

/// The names of the ports of both kinds, each kind in the order of the text.
#[derive(Drop)]
pub struct PortNames<'a> {
    pub inputs: IndexSet<&'a [u8]>,
    pub outputs: IndexSet<&'a [u8]>,
}

/// Names the ports. The fault is at the first word that names a port of the same kind again.
pub fn name_ports<'a>(alloc: Global, ports: &[PortWord<'a>]) -> Result<PortNames<'a>, NetStop>
    ensures named { IfOk result (λ named.
        AreNamed ports.now (length ports.now) (names_of named.inputs) (names_of named.outputs)) }
    ensures stop { IfErr result (IsStopBy (IsRepeatedPort ports.now)) }
{
    let mut named = PortNames {
        inputs: IndexSet::new(alloc),
        outputs: IndexSet::new(alloc),
    };
    name_all(ports, &mut named)?;
    Ok(named)
}

// Names the ports where none is named so far.
fn name_all<'a>(ports: &[PortWord<'a>], named: &mut PortNames<'a>) -> Result<(), NetStop>
    requires { AreNamed ports.now 0 (names_of named.old.inputs) (names_of named.old.outputs) }
    ensures named { OnOk result
        (AreNamed ports.now (length ports.now) (names_of named.new.inputs) (names_of named.new.outputs)) }
    ensures stop { IfErr result (IsStopBy (IsRepeatedPort ports.now)) }
{
    for port in ports.iter() {
        if !add_port(named, port)? {
            return Err(NetStop::Fault(NetFault {
                kind: NetKind::DuplicatePort,
                at: port.word.at(),
            }));
        }
    }
    Ok(())
}

// Adds the name of a port to those of its kind. Says whether it was added.
fn add_port<'a>(named: &mut PortNames<'a>, port: &PortWord<'a>) -> Result<bool, AllocError>
    ensures inputs { port.now.kind ≡ PortKind.Input → IfOk result
        (λ added. IsAdded port.now.word.bytes added (names_of named.old.inputs) (names_of named.new.inputs)
        × (names_of named.new.outputs ≡ names_of named.old.outputs)) }
    ensures outputs { port.now.kind ≡ PortKind.Output → IfOk result
        (λ added. IsAdded port.now.word.bytes added (names_of named.old.outputs) (names_of named.new.outputs)
        × (names_of named.new.inputs ≡ names_of named.old.inputs)) }
{
    match port.kind {
        PortKind::Input => add_name(&mut named.inputs, port.word.bytes()),
        PortKind::Output => add_name(&mut named.outputs, port.word.bytes()),
    }
}

/// Numbers the names that are defined after those of the inputs. The fault is at the first name that is there already.
pub(crate) fn add_defined<'a>(
    names: &mut IndexSet<&'a [u8]>,
    defined: &[Span<'a>],
) -> Result<(), NetStop>
    ensures defined { (inputs : List Piece) → names_of names.old ≡ bytes_of inputs
        → OnOk result (AreDefined inputs defined.now (length defined.now) (names_of names.new)) }
    ensures stop { (inputs : List Piece) → names_of names.old ≡ bytes_of inputs
        → IfErr result (IsStopBy (IsRepeatedName inputs defined.now)) }
{
    for word in defined.iter() {
        if !add_name(names, word.bytes())? {
            return Err(NetStop::Fault(NetFault {
                kind: NetKind::NameRedefined,
                at: word.at(),
            }));
        }
    }
    Ok(())
}

/// Adds a name at the end, where it isn't there already. Says whether it was added.
pub fn add_name<'a>(names: &mut IndexSet<&'a [u8]>, name: &'a [u8]) -> Result<bool, AllocError>
    ensures { IfOk result (λ added. IsAdded name.now added (names_of names.old) (names_of names.new)) }
{
    Ok(names.insert(name)?)
}

/// The place of a name, counted from 0; None where it isn't there.
pub fn find_name(names: &IndexSet<&[u8]>, name: &[u8]) -> Option<usize>
    ensures { MatchOption result (list_any (bytes_eq name.now) (names_of names.now) ≡ false)
        (λ place. (list_any (bytes_eq name.now) (names_of names.now) ≡ true)
        × (place ≡ position_or_len (bytes_eq name.now) (names_of names.now))
        × (place < length (names_of names.now))) }
{
    names.get_index_of(name)
}
