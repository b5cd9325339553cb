use account_core::{Ban, Conclusion, FactHead};
use cnf_core::LogLine;

/// A record of an account: a line of its text, or in version 2 an entry of its bytes.
#[derive(Debug)]
pub enum Record {
    /// The first one, which names the format.
    Header,
    /// A claim that fails, or one that holds, whose log follows.
    Fact(FactHead),
    /// A line of a log.
    Line(LogLine),
    /// Pairs of ports that no match has all of, and why.
    Ban(Ban),
    /// What the account comes to.
    Conclusion(Conclusion),
    /// That no later record names the fact of this number. Only version 2 has it.
    DropFact(u64),
    /// That no later record names the ban of this number. Only version 2 has it.
    DropBan(u64),
    /// The last one.
    End,
}

// By hand, so that each exit of a function has one call for it (docs/IDIOMS.md).
impl Drop for Record {
    fn drop(self) {
        match self {
            Record::Header => {}
            Record::Fact(_head) => {}
            Record::Line(_line) => {}
            Record::Ban(_ban) => {}
            Record::Conclusion(_conclusion) => {}
            Record::DropFact(_fact) => {}
            Record::DropBan(_ban) => {}
            Record::End => {}
        }
    }
}
