//! Circuits as plain data, and what the words of the field mean for them: vectors, netlists and their valuations,
//! signed bijections, matches and NPNP equality. An error comes only when out of memory.
#![tactic(auto)]

mod definition;
pub mod laws;
mod netlist;
pub mod plain;
mod port;

pub use definition::{Def, Trit};
pub use netlist::{Gate, Lit, Netlist, is_ordered};
pub use port::{Pair, PortKind};
