//! Graphs with names, for the tests of what is written of ports.

ghost use Rattle.std.specs.Prelude.{◌≡◌, IfOk, length};

use items::Items;
use net_core::Graph;
use net_file::{Name, Named};
use std::alloc::{AllocError, Global};

fn names(alloc: Global, texts: &[&[u8]]) -> Result<Items<Name>, AllocError>
    ensures { IfOk result (λ names. length names ≡ length texts.now) }
{
    let mut names = Items::new(alloc);
    for text in texts.iter() {
        names.push(Items::from_slice(alloc, text)?)?;
    }
    Ok(names)
}

/// The graph with these names of its ports.
pub(crate) fn named(
    alloc: Global,
    graph: Graph,
    inputs: &[&[u8]],
    outputs: &[&[u8]],
) -> Result<Named, AllocError>
    requires inputs { length inputs.now ≡ graph.inputs }
    requires outputs { length outputs.now ≡ length graph.outputs }
{
    Ok(Named {
        graph,
        input_names: names(alloc, inputs)?,
        output_names: names(alloc, outputs)?,
    })
}
