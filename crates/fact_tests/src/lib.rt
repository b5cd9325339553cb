//! What is known of the outputs of two circuits: facts, decided by structure, by vectors that were seen and by refutation;
//! and of one circuit the supports, unateness and symmetries of its outputs.
#![tactic(auto)]

mod answers;
mod asking;
mod book;
mod circuit_info;
mod decide;
mod deciding;
mod exchange_classes;
mod fact_book;
mod facts;
mod first_output;
mod func_support;
pub mod laws;
mod local_exchange;
mod nearby;
mod readers;
mod rows;
mod sightings;
mod symmetric_pairs;
mod symmetry_test;
mod unate_test;

pub use book::Book;
pub use circuit_info::info;
pub use decide::Decide;
pub use deciding::evidence_of;
pub use fact_book::FactBook;
