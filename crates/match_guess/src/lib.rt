//! A matching that may be a match, without evidence. An error comes only when out of memory.
#![tactic(auto)]

mod choice;
mod choice_point;
mod circuit;
mod effort;
mod guesser;
mod guesses;
mod kept;
mod leaf;
mod likely;
mod matching;
mod patience;
mod refiner;
mod signs;

pub use effort::Effort;
pub use guesser::Guesser;
pub use guesses::{Guesses, SearchStart};
