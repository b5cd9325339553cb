//! Assigned literals.

use cnf_core::SatLit;

/// A literal that was made true.
#[derive(Clone, Copy, Debug, PartialEq, Eq)]
pub struct Assigned {
    pub literal: SatLit,
    /// How many decisions had been made when it was assigned, its own included.
    pub level: u64,
    /// The number of the clause that left nothing else, or None for a decision.
    pub reason: Option<u64>,
}
