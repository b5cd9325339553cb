use circuits::Pair;
use items::Items;

/// What an account comes to.
#[derive(Debug, Drop)]
pub enum Conclusion {
    /// No match exists, since the circuits have different numbers of ports.
    NonePorts,
    /// No match exists, since the ban of this number, from 0, has no pairs.
    NoneBan(u64),
    /// These pairs of ports are a match.
    Match(Items<Pair>),
}
