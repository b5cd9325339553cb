//! Whether what is given of two circuits is so: a ban, pairs of ports that no match has all of, by its step; and a
//! claim that fails, by a vector that breaks it. An error comes only when out of memory.
#![tactic(auto)]

mod ascent;
mod breaking;
mod cone_values;
mod cones;
mod covers;
mod evaluator;
mod given;
mod mismatches;
mod missing;
mod ordered;
mod pair_index;
mod ports;
mod references;
mod steps;
mod tallies;
mod vectors;

pub use account_core::have_as_many;
pub use breaking::breaks;
pub use evaluator::Evaluator;
pub use given::Given;
pub use ordered::OrderedPairs;
pub use ports::are_known;
pub use steps::{are_names_known, has_shown, keeps_rule};
