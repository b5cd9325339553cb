//! The signed pairs of two circuits, each open, assigned or deleted, and refining them until no ban and no fact
//! excludes one that isn't deleted.
#![tactic(auto)]

mod alone;
mod grounds;
mod inputs;
mod ports;
mod refined;
mod refining;
mod rows;
mod settling;
mod shown;
mod swap_index;
mod swaps;

pub use pair_domains::{Cause, Domains, Entry, Fate, Reason};
pub use refined::Refined;
pub use refining::refine;
