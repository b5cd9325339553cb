//! Bans by vectors on which an output differs from its partner, made only where claims of one input show none.
#![tactic(auto)]

mod difference;
mod foresight;
mod last_resort;
mod suspicion;

pub use difference::{Difference, exclude};
pub use foresight::foresee;
pub use suspicion::{Suspicion, ban_suspected};
