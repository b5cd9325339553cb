//! A netlist evaluated on many vectors at once, 64 in a word, and on vectors with unknown bits. An error comes only
//! when out of memory.
#![tactic(auto)]

mod blocks;
mod digits;
pub mod laws;
mod mixing;
mod rails;
mod simulation;
mod three_values;
mod tri;
mod words;

pub use blocks::{and_lanes, first_bit, signed_lanes, word_at};
pub use digits::alternating;
pub use mixing::mix;
pub use rails::{Rails, rails_eval};
pub use simulation::{run_gate_blocks, simulate};
pub use three_values::{tri_eval, tri_output};
pub use tri::Tri;
pub use words::Words;
