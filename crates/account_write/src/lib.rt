//! Writes the account of what a search came to. The account is accepted where what the search came to is so.
#![tactic(auto)]

mod account;
mod laws;
mod lines;

pub use account::Account;
pub use laws::{match_is_accepted, none_ports_is_accepted, refusal_is_accepted};
pub use lines::{AccountLines, last_line};
