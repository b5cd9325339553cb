use circuits::Pair;

/// Where to go back to: before the choice whose entry stands at this place. There the pair is open, and the ban has no
/// other pairs than it and those that are assigned there.
#[derive(Clone, Copy, Debug, PartialEq, Eq)]
pub struct Back {
    pub place: usize,
    pub pair: Pair,
    pub ban: u64,
}

/// What a conflict is resolved to.
#[derive(Clone, Copy, Debug, PartialEq, Eq)]
pub enum LearnedBan {
    /// The ban of this number has no pairs: there is no match.
    Refusal(u64),
    /// A ban of which all pairs but one are assigned before some choice.
    Back(Back),
}
