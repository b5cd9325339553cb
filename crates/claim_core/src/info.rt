//! What is known of the function of an output.

use items::Items;

/// How an output depends on an input.
#[derive(Clone, Copy, Debug, Drop, PartialEq, Eq)]
pub enum Unate {
    /// The output never falls where the input rises.
    Positive,
    /// The output never rises where the input rises.
    Negative,
    /// The output falls and rises: it is binate in the input.
    Binate,
}

/// In which way two inputs may be exchanged: as they are, each inverted, or both ways.
#[derive(Clone, Copy, Debug, Drop, PartialEq, Eq)]
pub enum Sym {
    Symmetric,
    Skew,
    Both,
}

/// What is known of an output.
#[derive(Debug, Drop)]
pub struct OutputInfo {
    /// The inputs that it depends on, and how.
    pub support: Items<(u32, Unate)>,
    /// Pairs of these inputs, the lesser one first, that may be exchanged.
    pub pairs: Items<(u32, u32, Sym)>,
}
