//! Accounts in bytes: the binary form of what stands after the header.
#![tactic(auto)]

mod claims;
mod entry;
mod form;
mod laws;
mod lists;
mod reading;
mod steps;
mod values;
mod writing;

pub use entry::Entry;
pub use laws::{one_answer, one_entry};
pub use reading::{EntryStop, read_entry};
pub use writing::{put_ban, put_conclusion, put_entry, put_fact, put_log_line};
