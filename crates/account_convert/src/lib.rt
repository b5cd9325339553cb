//! An account in the other version: from text to bytes, with a drop of each fact and of each ban as soon as no later
//! record names it; and from bytes to text, without drops.
#![tactic(auto)]

mod binary_writer;
mod conversion;
mod dues;
mod laws;
mod mentions;
mod reading;
mod stop;
mod text_writer;

pub use conversion::{Converted, convert};
pub use laws::{converted_back, records_stay, verdict_stays, verdict_was};
pub use stop::ConvertStop;
