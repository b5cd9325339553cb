//! One question about two cones, answered by a vector or by a refutation.
#![tactic(auto)]

mod base;
mod charging;
mod classes;
mod clauses;
mod covers;
mod dense_search;
mod gates;
mod guided;
mod guiding;
mod joint;
mod lines;
mod occurring;
mod pairs;
mod places;
mod question;
mod solving;
mod sums;
mod tab;
mod translation;
mod vector;
mod verdict;
mod xors;

pub use base::DenseBase;
pub use gates::{LitGate, gates_of, inputs_of};
pub use guided::ask_guided;
pub use guiding::agenda_of;
pub use lines::translated;
pub use occurring::variable_in;
pub use pairs::{GatePair, pairs_of};
pub use question::{Answer, Question, ask, ask_watched};
pub use solving::solve_dense;
pub use tab::{REPORTED_EVERY, Tab};
pub use verdict::DenseVerdict;
