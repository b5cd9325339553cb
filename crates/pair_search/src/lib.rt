//! A search over signed pairs: what follows, conflicts and their resolution, and going back.
#![tactic(auto)]

mod back;
mod clashes;
mod conflict;
mod conflict_set;
mod crowds;
mod deletion;
mod gather;
mod learned;
mod mismatch;
mod partners;
mod ports;
mod propagation;
mod queue;
mod refer;
mod resolution;
mod resolved;
mod units;
mod view;
mod watchers;

pub use back::{start_over, turn_back};
pub use conflict::{Conflict, conflict_set_of};
pub use conflict_set::{ConflictSet, conflict_set_of_ban};
pub use deletion::{Deletion, deletion_of};
pub use learned::{Back, LearnedBan};
pub use mismatch::Mismatches;
pub use ports::{branch, way_of};
pub use propagation::propagate;
pub use queue::Queue;
pub use resolution::{choice_between, resolve};
pub use resolved::Resolved;
pub use units::is_open;
