//! The search for a match.
#![tactic(auto)]

mod ahead;
mod asking;
mod branching;
mod candidate;
mod choosing;
mod compared;
mod deciding;
mod fewest;
mod following;
mod found;
mod guessed;
mod guide;
mod heuristics;
mod matching;
mod reads;
mod room;
mod rounds;
mod searching;
mod session;
mod step_back;
mod swap_bans;
mod table_refusal;
mod trail;
mod unlike;
mod weights;

pub use choosing::next_port;
pub use deciding::decide;
pub use found::Found;
pub use guide::Guide;
pub use match_guess::SearchStart;
pub use searching::search;
