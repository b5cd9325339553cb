//! What a ban without pairs rests on. A search comes to more facts and bans than its last ban needs; here those are
//! found that it does need, and numbered again. An error comes only when out of memory.
#![tactic(auto)]

mod keeping;
mod laws;
mod marking;
mod numbering;
mod renumbering;
mod trimming;

pub use laws::{trimmed_bans, trimmed_conclusion, trimmed_facts, valid_bans_refer_back};
pub use marking::mark_all;
pub use trimming::{Core, trim};
