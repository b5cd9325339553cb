//! What questions about two circuits have learned, for later ones.
#![tactic(auto)]

mod choosing;
mod common;
mod feeds;
mod guiding;
mod keeping;
mod lemmas;
mod marking;
mod numbering;
mod shared;
mod stock;
mod structural;
mod taking;
mod trimming;

pub use common::Common;
pub use marking::mark_hinted;
pub use shared::SharedLemmas;
pub use taking::{note, take_marked};
pub use trimming::{trim_answer, unplaced};
