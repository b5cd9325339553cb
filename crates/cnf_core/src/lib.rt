//! Clauses of propositional logic and logs of hinted derivations, as plain data with their definitions.
#![tactic(auto)]

mod assignment;
mod base;
mod charge;
mod clause;
mod clause_store;
mod effect;
mod fault;
pub mod laws;
mod literal;
mod log;
mod stop;

pub use assignment::{Assignment, ShortAssignment, opposites};
pub use base::Base;
pub use charge::Charge;
pub use clause::Clause3;
pub use clause_store::ClauseStore;
pub use effect::{Effect, effect_of};
pub use fault::LineFault;
pub use literal::SatLit;
pub use log::{Log, LogLine};
pub use stop::Stop;
