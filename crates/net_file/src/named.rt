ghost use Rattle.std.specs.Prelude.{◌≡◌, length};

use items::Items;
use net_core::Graph;

/// A port's name, byte for byte as the file has it.
pub type Name = Items<u8>;

/// An ordered graph with one name for each input and one for each output.
#[derive(Debug, Drop)]
pub struct Named {
    pub graph: Graph,
    pub input_names: Items<Name>,
    pub output_names: Items<Name>,
    ghost inputs_named: { length input_names ≡ graph.inputs },
    ghost outputs_named: { length output_names ≡ length graph.outputs },
}
