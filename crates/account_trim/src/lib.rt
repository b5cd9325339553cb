//! An account without what its conclusion doesn't rest on. Records are marked from the last to the first, and those
//! that are marked are written again.
#![tactic(auto)]

mod laws;
mod links;
mod lowering;
mod places;
mod reaching;
mod reading;
mod trimming;
mod writing;

pub use laws::trimmed_again;
pub use trimming::{Trimmed, trim};
