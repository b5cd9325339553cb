//! Files of several models in the Berkeley Logic Interchange Format (BLIF), in which models have instances of other
//! ones (`.subckt`): their models, line by line, their first fault, what such a file means, nested and flat, and the
//! flat netlist of its first model.
#![tactic(auto)]

mod bindings;
mod checks;
mod drivers;
mod fault;
mod flattening;
mod frames;
mod hier;
mod laws;
mod limits;
mod model;
mod names;
mod numbers;
mod order;
mod reader;
mod sizes;
mod whole;
mod words;

pub use checks::check_models;
pub use fault::{HierFault, HierKind, HierStop};
pub use hier::Hier;
pub use laws::{
    covers_are_counted, covers_are_wide, flattened_means_nested, hier_blif_is_a_format,
    names_have_a_numbering,
};
pub use model::{BlifModel, CoverLine, InstanceLine, ModelLine};
pub use names::check_names;
pub use reader::read_models;
pub use whole::read;
