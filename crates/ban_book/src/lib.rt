//! The bans that a search has made, and those that covers of ports and decided claims show.
#![tactic(auto)]

pub mod block;
mod book;
pub mod clash;
pub mod cover;
mod input_claims;
mod mismatched;
mod mismatches;
pub mod needed;
mod ports;
mod row_bans;
mod tallies;
pub mod ways;

pub use book::{BanBook, contains};
pub use input_claims::{DecidedClaim, InputClaims};
pub use mismatched::{Carried, Unlike, carry, mismatch_ban, unlike_of};
pub use ports::{one_input, two_inputs};
pub use row_bans::ban_by_facts;
pub use tallies::{Lists, tally_ban};
