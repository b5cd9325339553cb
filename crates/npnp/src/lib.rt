//! One run of `npnp`: finds a match of two combinational netlists, up to the order and the negation of their inputs and
//! outputs, or that there is none, and writes an account that proves it; checks such accounts; reports what the
//! outputs of a netlist depend on, and how; and makes pairs of netlists that match, and tries them.
#![tactic(auto)]

mod info;
mod matching;
mod naming;
pub mod outcome;
pub mod run;
mod trying;
