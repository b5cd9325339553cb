//! Lines of a log as bytes, delta-coded in LEB128: one or two bytes for most literals and hints.
#![tactic(auto)]

mod coding;
mod decoding;
mod layout;

pub use cnf_core::{LogLine, SatLit};
pub use coding::put_line;
pub use decoding::first_line;
