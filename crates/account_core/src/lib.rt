//! What an account says: facts, bans with their steps, conclusions. An error comes only when out of memory.
#![tactic(auto)]

mod conclusion;
mod fact;
mod pairable;
mod ports;
mod sent;
mod step;
pub mod step_laws;

pub use conclusion::Conclusion;
pub use fact::{Evidence, Fact, FactHead};
pub use pairable::PairableGraphs;
pub use ports::{Port, have_as_many, other_side, port_of, port_on, ports_in, way};
pub use sent::values_sent;
pub use step::{Ban, Step, Tallied};
