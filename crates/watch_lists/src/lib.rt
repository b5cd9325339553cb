//! Propagation by two watched literals of each clause (Moskewicz and others, Chaff, 2001; Eén and Sörensson, MiniSat,
//! 2003).
#![tactic(auto)]

mod arena;
pub mod laws;
mod list_store;
mod lists;
mod watch_choice;
mod watches;

pub use watches::Watches;
