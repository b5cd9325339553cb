//! Answers in terms of the formula.

use bit_list::Marks;
use cnf_core::Log;

/// How a search over dense variables ends, in terms of the formula.
#[derive(Drop)]
pub enum DenseVerdict {
    /// The variables that are true: together with the others, which are false, they meet the clauses.
    Model(Marks),
    /// A log that refutes the formula.
    Refuted(Log),
}
