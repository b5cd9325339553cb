//! Netlists under other places and signs of their ports (NPNP transformations: Katebi and Markov, DATE 2010).
#![tactic(auto)]

mod inverting;
mod moving;
mod restoring;

pub use inverting::inverse;
pub use moving::{moved_graph, signed};
pub use restoring::restored;
