//! Where an account stands.

/// What may come next in an account.
#[derive(Clone, Copy, Debug, Drop, PartialEq, Eq)]
pub enum Place {
    /// The header.
    Start,
    /// A fact, a ban or the conclusion.
    Headed,
    /// A line of the log of a fact that holds.
    FactLog,
    /// So many logs, and then the end.
    Logs(u64),
    /// Nothing.
    Ended,
}
