//! Checks logs of hinted derivations line by line.
#![tactic(auto)]

mod propagation;
mod refuter;
mod values;

pub use cnf_core::{Base, LineFault, LogLine, SatLit};
pub use refuter::Refuter;
pub use values::Values;
