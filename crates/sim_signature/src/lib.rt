//! What outputs are on many vectors, and which inputs they reach.
#![tactic(auto)]

mod change;
mod claims;
mod columns;
mod gates;
mod hunting;
mod input_pairs;
mod lanes;
mod reading;
mod sighting;
mod signatures;
mod simulation;
mod supports;
mod vectors;

pub use hunting::hunt;
pub use sighting::Sighting;
pub use signatures::Signatures;
pub use supports::Supports;
