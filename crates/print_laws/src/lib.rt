//! What is printed of a netlist reads back: laws over whole files, by the definitions of the readers. The functions do
//! nothing; their contracts are the laws.

#![tactic(auto)]

mod laws;

pub use laws::{aag_reads_back, aig_reads_back, blif_reads_back, printed_is_short};
