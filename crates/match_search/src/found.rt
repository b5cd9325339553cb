use cnf_core::Log;
use items::Items;
use net_core::Matching;

/// What a search comes to.
#[derive(Debug, Drop)]
pub enum Found {
    /// A match, with two logs of each output, in order: they refute that the output differs from its partner where it
    /// is true, and where it is false.
    Match(Matching, Items<Log>),
    /// There is no match: the ban of this number has no pairs.
    None(u64),
}
