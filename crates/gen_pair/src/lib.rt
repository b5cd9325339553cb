//! Pairs of netlists that a number gives, each with a match of them.

#![tactic(auto)]

mod drawing;
mod hidden;
mod naming;
mod pair;
mod windows;

pub use pair::{GenPair, make};
