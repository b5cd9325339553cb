//! Bans that follow from decided claims.
#![tactic(auto)]

mod asker;
mod deciding;
mod exchanges;
mod lists;
mod mismatched;
mod mismatches;
mod open_claims;
mod refusal;
mod rows;
mod tallies;
mod tally_plan;

pub use asker::Asker;
pub use ban_book::Unlike;
pub use exchanges::{SwapPairs, swap_mismatch};
pub use mismatches::{ask_difference, mismatch};
pub use refusal::refuse;
pub use rows::claims_of;
pub use tallies::tally;
