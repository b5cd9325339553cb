//! Ways to split the cells of literals that may correspond. An error comes only when out of memory.
#![tactic(auto)]

mod anchors;
mod assignments;
mod climbing;
mod exact;
mod input_order;
mod lane_counts;
mod link;
mod patterns;
mod rare_values;
mod similarity;
mod state;

pub use anchors::{Starts, anchored};
pub use assignments::{CellAssignment, open_in};
pub use climbing::{BEST, climbed};
pub use exact::{Keys, add_hashes};
pub use link::Link;
pub use patterns::Patterns;
pub use rare_values::rare_blocks;
pub use similarity::Similarity;
pub use state::State;
