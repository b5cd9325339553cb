//! BLIF.

ghost use Rattle.std.specs.Prelude.{◌≡◌, ◌++◌, OnOk, OnErr};
ghost use Rattle.text_core.specs.Extends.{Extends};
ghost use Rattle.net_print.specs.BlifLines.{blif_text};

use crate::covers::Covers;
use crate::ports::{Declarations, declarations_of};
use net_core::{Gate, Graph, Lit};
use net_file::Named;
use std::alloc::AllocError;
use text_core::{Chain, Parts, Whole, put_all};

/// Writes a netlist at the end of `out` as a BLIF file: the names of the ports, a cover without rows for the constant,
/// and a cover of one row for each gate and for each output. The netlist's own names aren't kept: ports are called
/// `i0`, `i1` and `o0`, `o1`, the gates `g0`, `g1`, and the constant `z`. When out of memory, a first part of the file
/// may stand after what stood in `out`.
pub fn put_blif(named: &Named, out: &mut Vec<u8>) -> Result<(), AllocError>
    ensures ok { OnOk result (out.new.items ≡ out.old.items ++ blif_text named.now.graph) }
    ensures kept { OnErr result (Extends out.old.items out.new.items) }
{
    put_all(BlifParts::new(&named.graph), out)
}

/// A BLIF file, printed a port's name or a cover at a time.
#[derive(Drop)]
pub struct BlifParts<'a> {
    lines: Lines<'a>,
}

/// The declarations, the gates' covers, the outputs' covers, and the last line.
type Lines<'a> = Chain<
    Declarations<'a>,
    Chain<Covers<'a, Gate>, Chain<Covers<'a, Lit>, Whole<'a>>>,
>;

impl<'a> BlifParts<'a> {
    /// The file that `put_blif` writes of a netlist.
    pub fn new(graph: &'a Graph) -> BlifParts<'a>
        ensures { ⟦<BlifParts<'a> as Parts>⟧.left result ≡ blif_text graph.now }
    {
        let outputs = Covers::new(graph.inputs(), graph.outputs());
        let last = Chain::new(outputs, Whole::new(b".end\n"));
        let gates = Covers::new(graph.inputs(), graph.gates());
        let covers = Chain::new(gates, last);
        BlifParts {
            lines: Chain::new(declarations_of(graph), covers),
        }
    }
}

impl<'a> Parts for BlifParts<'a> {
    ghost left = { λ parts. ⟦<Lines<'a> as Parts>⟧.left parts.lines };

    ghost steps = { λ parts. ⟦<Lines<'a> as Parts>⟧.steps parts.lines };

    fn is_done(&self) -> bool {
        self.lines.is_done()
    }

    fn put_next(&mut self, out: &mut Vec<u8>) -> Result<(), AllocError> {
        self.lines.put_next(out)
    }
}
