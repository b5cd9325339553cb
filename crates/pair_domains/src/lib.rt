//! The signed pairs of two circuits with as many ports: which are assigned, which are deleted, and why.
#![tactic(auto)]

mod domains;
mod entry;
mod numbers;
mod places;
mod tables;

pub use domains::Domains;
pub use entry::{Cause, Entry, Fate, Reason};
