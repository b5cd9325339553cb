//! How many learned lines are enough for all that can be asked of two circuits, whatever is asked in which order: a
//! budget of so many is never spent.
#![tactic(auto)]

pub mod laws;
mod number;
mod tens;

pub use number::enough;
pub use tens::tens_enough;
