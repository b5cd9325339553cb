//! What outputs of few inputs have on cubes of these, and how that refuses a match. An error comes only when out of
//! memory.
#![tactic(auto)]

mod column;
mod cone;
mod costs;
mod cubes;
mod exclusions;
mod halves;
mod images;
mod pair_costs;
mod plan;
mod primes;
mod tables;

pub use cone::exchanged;
pub use exclusions::Exclusion;
pub use plan::Plan;
