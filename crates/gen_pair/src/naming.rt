//! Names of ports: a letter and the port's position.

ghost use Rattle.std.specs.Prelude.{◌≡◌, ◌∷◌, ◌<◌, ◌^◌, IfOk, length, map};
ghost use Rattle.std.specs.Fmt.{decimal};
ghost use Rattle.std.specs.List.{range_with_len};
ghost use Rattle.gen_pair.specs.Names.{port_name, port_names, HasNames};

use items::Items;
use net_core::Graph;
use net_file::{Name, Named};
use std::alloc::{AllocError, Global};
use text_core::put_decimal;

/// The letters of the inputs and of the outputs.
#[derive(Clone, Copy, Debug)]
pub(crate) struct Letters {
    pub(crate) input: u8,
    pub(crate) output: u8,
}

/// A graph with names of its ports.
pub(crate) fn with_names(alloc: Global, graph: Graph, letters: Letters) -> Result<Named, AllocError>
    ensures graph { IfOk result (λ named. named.graph ≡ graph) }
    ensures names { IfOk result (HasNames letters.input letters.output) }
{
    let input_names = port_names(alloc, letters.input, graph.inputs())?;
    let output_names = port_names(alloc, letters.output, graph.outputs().len() as u32)?;
    Ok(Named {
        graph,
        input_names,
        output_names,
    })
}

// The names of ports, by position.
fn port_names(alloc: Global, letter: u8, count: u32) -> Result<Items<Name>, AllocError>
    ensures { IfOk result (λ names. names ≡ port_names letter count) }
{
    let mut names = Items::new(alloc);
    for position in 0..count {
        let name = port_name(alloc, letter, position)?;
        names.push(name)?;
    }
    Ok(names)
}

fn port_name(alloc: Global, letter: u8, position: u32) -> Result<Name, AllocError>
    ensures { IfOk result (λ name. name ≡ port_name letter position) }
{
    let mut bytes = Vec::new(alloc);
    bytes.push(letter)?;
    put_decimal(u64::from(position), &mut bytes)?;
    Ok(Items::from_vec(bytes))
}
