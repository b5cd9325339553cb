//! What can be done about a netlist that isn't read as it is.

use net_file::NetKind;
use std::fmt;

/// What to do with a netlist, and the line that does it, of this program, yosys or ABC: F is the file, G is made.
#[derive(Clone, Copy, Debug, PartialEq, Eq)]
pub(crate) enum Remedy {
    /// Models that name others are to be one.
    Flatten,
    /// Cells of a library are to be replaced by what they compute.
    Unmap,
    /// The BLIF file's latches are to be cut: their outputs become inputs, and their inputs outputs.
    CutBlif,
    /// So are those of a binary AIGER file.
    CutAig,
    /// So are those of an AIGER file of text, which ABC doesn't read.
    CutAag,
}

impl Remedy {
    /// What helps against a fault of a file, which stands in this line.
    pub(crate) fn of(kind: NetKind, bytes: &[u8], line: &[u8]) -> Option<Remedy> {
        match kind {
            NetKind::Directive => remedy_of_directive(line.trim_ascii_start()),
            NetKind::SecondModel => Some(Remedy::Flatten),
            NetKind::Latch => Some(Remedy::CutBlif),
            NetKind::Sequential if bytes.starts_with(b"aag") => Some(Remedy::CutAag),
            NetKind::Sequential => Some(Remedy::CutAig),
            _ => None,
        }
    }
}

fn remedy_of_directive(line: &[u8]) -> Option<Remedy> {
    if line.starts_with(b".subckt") {
        return Some(Remedy::Flatten);
    }
    line.starts_with(b".gate").then_some(Remedy::Unmap)
}

impl fmt::Display for Remedy {
    fn fmt<W: fmt::Write>(&self, f: &mut fmt::Formatter<W>) -> fmt::Result {
        f.write_str(match self {
            Remedy::Flatten => { "flatten it to one model: `npnp flatten F G`" }
            Remedy::Unmap => {
                "replace the cells by what they compute, by their library: `abc -c 'read_genlib LIBRARY; \
                 read_blif F; unmap; write_blif G'`, or of Liberty `yosys -p 'read_liberty LIBRARY; read_blif F; \
                 hierarchy -auto-top; flatten; techmap; write_blif G'`"
            }
            Remedy::CutBlif => {
                "cut it at the registers, so that their outputs are inputs: `abc -c 'read_blif F; comb; write_blif G'`"
            }
            Remedy::CutAig => {
                "cut it at the registers, so that their outputs are inputs: `abc -c 'read_aiger F; comb; \
                 write_aiger G'`"
            }
            Remedy::CutAag => {
                "cut it at the registers, so that their outputs are inputs: `yosys -p 'read_aiger F; \
                 write_aiger H'; abc -c 'read_aiger H; comb; write_aiger G'`"
            }
        })
    }
}
