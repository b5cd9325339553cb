//! Ports by their kind: how many there are, and their names.

ghost use Rattle.std.specs.Prelude.{◌≡◌, ◌≤◌, length, MatchOption, IfOk};
ghost use Rattle.net_core.specs.Limits.{most_ports};
ghost use Rattle.blif_reader.specs.Numbers.{port_names};
ghost use Rattle.blif_reader.specs.Names.{words_of_kind};
ghost use Rattle.blif_reader.specs.Ports.{IsExcess};

use crate::survey::PortWord;
use circuits::PortKind;
use items::Items;
use net_core::MAX_PORTS;
use net_file::Name;
use std::alloc::{AllocError, Global};

/// The offset of the first port of a kind beyond [`MAX_PORTS`], if there are more.
pub(crate) fn find_excess(ports: &[PortWord<'_>], kind: PortKind) -> Option<u64>
    ensures { MatchOption result (length (words_of_kind kind ports.now) ≤ most_ports)
        (λ at. IsExcess (words_of_kind kind ports.now) at) }
{
    let mut count = 0;
    for port in ports.iter() {
        if port.kind == kind {
            if count == MAX_PORTS {
                return Some(port.word.at());
            }
            count += 1;
        }
    }
    None
}

/// The names of the ports of a kind, in the order of the text.
pub(crate) fn names_of_kind(
    alloc: Global,
    ports: &[PortWord<'_>],
    kind: PortKind,
) -> Result<Items<Name>, AllocError>
    ensures { IfOk result (λ names. names ≡ port_names kind ports.now) }
{
    let mut names = Items::new(alloc);
    for port in ports.iter() {
        if port.kind == kind {
            names.push(Items::from_vec(port.word.bytes().to_vec(alloc)?))?;
        }
    }
    Ok(names)
}
