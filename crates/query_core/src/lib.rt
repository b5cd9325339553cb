//! The clauses of what is asked of two circuits, of all their gates or of the two cones alone; and what was asked in a
//! run, with the lines learned for it.
#![tactic(auto)]

mod asked_query;
mod base;
mod charged;
mod claim_base;
mod clauses;
mod cone_clauses;
mod cones;
mod ledger;
mod lines;
mod reaching;
mod variables;

pub use asked_query::AskedQuery;
pub use base::QueryBase;
pub use charged::ChargedLines;
pub use claim_base::ClaimBase;
pub use claim_core::{Claim, Cone, Feed, Query, Shape, image, of_claim, of_match};
pub use clauses::count_of;
pub use cone_clauses::ConeClauses;
pub use ledger::{Asked, Ledger};
pub use lines::Lines;
