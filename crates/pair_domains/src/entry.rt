use circuits::Pair;
use net_core::Side;

/// Why a pair is assigned.
#[derive(Clone, Copy, Debug, PartialEq, Eq)]
pub enum Cause {
    /// The pair was chosen.
    Choice,
    /// The pair's port of this circuit had no other way left.
    LastWay(Side),
}

/// Why a pair is deleted. It names the assigned pairs with which the pair can't be.
#[derive(Clone, Copy, Debug, PartialEq, Eq)]
pub enum Reason {
    /// The assigned pair shares a port with it.
    Clash(Pair),
    /// The ban of this number has no other pairs than this one and assigned ones.
    Ban(u64),
    /// The assigned pair is of the other kind, and two facts tell the two apart: the one says that a claim fails, the
    /// other one that the claim which the pairs carry it to holds, or which they carry to it. The facts are named by
    /// their numbers.
    Mismatch { with: Pair, fails: u64, holds: u64 },
}

/// What became of a pair.
#[derive(Clone, Copy, Debug, PartialEq, Eq)]
pub enum Fate {
    Assigned(Cause),
    Deleted(Reason),
}

/// A pair, and what became of it.
#[derive(Clone, Copy, Debug, PartialEq, Eq)]
pub struct Entry {
    pub pair: Pair,
    pub fate: Fate,
}
