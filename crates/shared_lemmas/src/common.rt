//! What two formulas have in common.

/// How many clauses two formulas have, and how many of the first ones are the same in both. Those of two questions
/// about the same circuits under the same feeds differ in the clauses of their outputs alone, which are the last two.
#[derive(Clone, Copy, Drop)]
pub struct Common {
    /// How many clauses either formula has.
    pub count: u64,
    /// How many of the first ones are the same: at most `count`.
    pub same: u64,
}
