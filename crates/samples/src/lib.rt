//! Small circuits for the tests of crates above, made of the numbers of their literals.
#![tactic(auto)]

mod build;
mod drawing;
mod fault;
mod pair;

pub use build::{graph, matching};
pub use drawing::{drawn, drawn_over, output_on};
pub use fault::SampleFault;
pub use pair::GraphPair;
