use account_core::{Ban, Conclusion, FactHead};
use cnf_core::LogLine;

/// What stands in an account after its header.
#[derive(Debug, Drop)]
pub enum Entry {
    /// A claim that fails, or one that holds, whose log follows.
    Fact(FactHead),
    /// A line of a log.
    Line(LogLine),
    /// Pairs of ports that no match has all of, and why.
    Ban(Ban),
    /// What the account comes to.
    Conclusion(Conclusion),
    /// That no later entry names the fact of this number.
    DropFact(u64),
    /// That no later entry names the ban of this number.
    DropBan(u64),
    /// That the account is whole.
    End,
}
