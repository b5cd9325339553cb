use cnf_core::Log;
use items::Items;
use net_core::Matching;
use pair_search::Conflict;

/// What a step ahead comes to.
#[derive(Drop)]
pub(crate) enum Ahead {
    /// One more pair is assigned or deleted.
    Deeper,
    /// The pairs that are assigned, one of each port, are a match.
    Match(Matching, Items<Log>),
    /// The search can't go on.
    Conflict(Conflict),
}

/// What comparing the outputs under a whole matching comes to.
#[derive(Drop)]
pub(crate) enum WholeCompared {
    /// The matching is a match.
    Match(Matching, Items<Log>),
    /// The matching has all pairs of this ban.
    Ban(u64),
}
