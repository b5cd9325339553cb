//! Which claims about two circuits vectors break. Nothing rests on it: it says which claims are worth deciding. An
//! error comes only when out of memory.
#![tactic(auto)]

mod claims;
mod classes;
mod mutants;
mod paths;
mod sampling;
mod swaps;

pub use claims::{BrokenClaims, OneInput};
pub use classes::{BYTES_OF_BAN, Classes};
pub use sampling::{Flips, Sample};
