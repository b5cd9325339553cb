//! What is asked of circuits, as plain data. An error comes only when out of memory.
#![tactic(auto)]

mod claim_queries;
mod claims;
pub mod fact_laws;
mod feeds;
mod images;
mod info;
pub mod laws;
mod matches;
mod query;

pub use claim_queries::of_claim;
pub use claims::{Claim, Shape};
pub use feeds::Feeds;
pub use images::{image, moved_value, pair_of};
pub use info::{OutputInfo, Sym, Unate};
pub use matches::of_match;
pub use query::{Cone, Feed, Query};
