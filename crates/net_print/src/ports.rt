//! The first lines of a BLIF file: the model, the names of the ports, and the cover of the constant.

ghost use Rattle.std.specs.Prelude.{◌≡◌, ◌-◌, [], ◌∷◌, ◌++◌, OnOk};
ghost use Rattle.std.specs.List.{range_with_len};
ghost use Rattle.std.specs.Fmt.{decimal};
ghost use Rattle.text_core.specs.Extends.{Extends};
ghost use Rattle.net_print.specs.BlifLines.{words_text, declarations, ports_line, names_text};

use net_core::Graph;
use std::alloc::AllocError;
use text_core::{Chain, Parts, Whole, put_decimal, put_text};

/// The lines before the gates' covers.
pub(crate) type Declarations<'a> = Chain<
    Whole<'a>,
    Chain<PortsLine<'a>, Chain<PortsLine<'a>, Whole<'a>>>,
>;

#[tactic(auto, using(crate::proofs::Parts::declared_parts))]
pub(crate) fn declarations_of<'a>(graph: &'a Graph) -> Declarations<'a>
    ensures { ⟦<Declarations<'a> as Parts>⟧.left result ≡ words_text (declarations graph.now) }
{
    let inputs = line_of_ports(b".inputs", b'i', graph.inputs());
    let outputs = line_of_ports(b".outputs", b'o', graph.outputs().len() as u32);
    let ports = Chain::new(inputs, Chain::new(outputs, Whole::new(b".names z\n")));
    Chain::new(Whole::new(b".model npnp\n"), ports)
}

/// The line that declares the ports of a kind, a name at a time.
pub(crate) type PortsLine<'a> = Chain<Whole<'a>, Chain<PortNames, Whole<'a>>>;

#[tactic(auto, using(crate::proofs::Parts::ports_parts))]
fn line_of_ports<'a>(directive: &'a [u8], letter: u8, count: u32) -> PortsLine<'a>
    ensures { ⟦<PortsLine<'a> as Parts>⟧.left result ≡ words_text (ports_line directive.now letter count ∷ []) }
{
    let names = PortNames::new(letter, count);
    Chain::new(Whole::new(directive), Chain::new(names, Whole::new(b"\n")))
}

/// The names of ports, each with a blank before it.
#[derive(Drop)]
pub(crate) struct PortNames {
    letter: u8,
    next: u32,
    count: u32,
}

impl PortNames {
    fn new(letter: u8, count: u32) -> PortNames
        ensures { ⟦<PortNames as Parts>⟧.left result ≡ names_text letter (range_with_len 0 count) }
    {
        PortNames {
            letter,
            next: 0,
            count,
        }
    }
}

impl Parts for PortNames {
    ghost left = { λ ports. names_text ports.letter (range_with_len ports.next (ports.count - ports.next)) };

    ghost steps = { λ ports. ports.count - ports.next };

    fn is_done(&self) -> bool {
        self.next >= self.count
    }

    fn put_next(&mut self, out: &mut Vec<u8>) -> Result<(), AllocError> {
        if self.next >= self.count {
            return Ok(());
        }
        put_port_name(self.letter, self.next, out)?;
        self.next += 1;
        Ok(())
    }
}

// Writes a port's name, with a blank before it.
fn put_port_name(letter: u8, port: u32, out: &mut Vec<u8>) -> Result<(), AllocError>
    ensures ok { OnOk result (out.new.items ≡ out.old.items ++ 32 ∷ letter ∷ decimal port) }
    ensures kept { Extends out.old.items out.new.items }
{
    put_text(b" ", out)?;
    put_name(letter, port as u64, out)
}

/// Writes a letter and a number.
pub(crate) fn put_name(letter: u8, number: u64, out: &mut Vec<u8>) -> Result<(), AllocError>
    ensures ok { OnOk result (out.new.items ≡ out.old.items ++ letter ∷ decimal number) }
    ensures kept { Extends out.old.items out.new.items }
{
    out.push(letter)?;
    put_decimal(number, out)
}
