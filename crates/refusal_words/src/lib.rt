//! Why there is no match, in words: by the numbers of ports, or by what the account's last exclusion is about.
#![tactic(auto)]

mod account_search;
mod cover;
mod exclusion;
mod netlists;
mod pieces;
mod refusal;
mod terminal_text;

pub use pieces::{Need, Seek, seek_in};
pub use refusal::{netlist_again, put_refusal};
pub use terminal_text::TerminalText;
