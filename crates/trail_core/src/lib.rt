//! The literals that a search for a model has assigned, in order.
#![tactic(auto)]

mod assigned;
mod trail;

pub use assigned::Assigned;
pub use trail::Trail;
