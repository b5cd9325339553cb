//! Answers of the solver.

use cnf_core::Log;
use items::Items;

/// What a search found.
#[derive(Debug, Drop)]
pub enum Finding {
    /// A value for each variable: together they meet the clauses.
    Model(Items<bool>),
    /// The solver's lines refute the formula: the last one is empty.
    Refuted,
}

/// How a search ends.
#[derive(Debug, Drop)]
pub enum Verdict {
    /// A value for each variable: together they meet the clauses.
    Model(Items<bool>),
    /// A log that refutes the formula.
    Refuted(Log),
}
