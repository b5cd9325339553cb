//! Netlists printed: AIGER files of both forms, and BLIF files.
//!
//! Each file is printed part by part, about a line at a time, so that it need never be whole in memory.

#![tactic(auto, using(text_core::proofs::Extending::extends_same, text_core::proofs::Extending::extends_twice))]

mod aag;
mod aig;
mod blif;
mod covers;
mod ports;
mod rows;
mod symbols;

pub use aag::{AagParts, put_aag};
pub use aig::{AigParts, put_aig};
pub use blif::{BlifParts, put_blif};
