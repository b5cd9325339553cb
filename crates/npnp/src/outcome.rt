//! How a run of the program ends.

pub use check_steps::{Outcome, Which};
