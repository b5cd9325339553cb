//! An oracle for tests: it tries all vectors, and refutes by splitting on one input after the other.
#![tactic(auto)]

mod answering;
mod clauses;
mod splitting;
mod table;
mod vectors;

pub use table::TableOracle;
