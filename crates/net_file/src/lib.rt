//! What files of netlists come to: a graph with the names of its ports, or what is wrong.
#![tactic(auto)]

mod fault;
mod named;

pub use fault::{NetFault, NetKind, NetStop};
pub use named::{Name, Named};
