//! Netlists reduced by what their signals compute (functional reduction: Mishchenko, Chatterjee, Jiang and Brayton,
//! FRAIGs, 2005). An error comes only when out of memory.
#![tactic(auto)]

mod classes;
mod comparing;
mod drawing;
mod exposing;
mod leaders;
mod merging;
mod pruning;
mod reducing;
mod sweeping;

pub use reducing::{Swept, reduce};
