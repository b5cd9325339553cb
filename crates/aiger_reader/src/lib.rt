//! A reader of netlists in the AIGER format: of whole files of either form, without latches and properties.
#![tactic(auto)]

mod body;
mod deltas;
mod header;
mod laws;
mod limits;
mod literals;
mod numbering;
mod symbols;
mod whole;
mod words;

pub use laws::aiger_is_a_format;
pub use net_core::{Gate, Graph, Lit};
pub use net_file::{Name, Named, NetFault, NetKind, NetStop};
pub use whole::read;
