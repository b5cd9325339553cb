//! Texts of reports.
#![tactic(auto, using(text_core::proofs::Extending::extends_same, text_core::proofs::Extending::extends_twice))]

mod info;
mod rejected;
mod table;

pub use info::put_info;
pub use rejected::put_rejected;
pub use table::put_match;
