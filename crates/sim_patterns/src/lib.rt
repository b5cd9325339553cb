//! Simulation patterns that are kept to refute pairs of ports. An error comes only when out of memory.
#![tactic(auto)]

mod trials;
mod vectors;

pub use trials::{Suspect, Trials};
