//! A netlist that lost its ports gets them back, by an account of a match with one that has them: the steps of
//! `restore`.
#![tactic(auto)]

mod restoring;

pub use restoring::restore_files;
