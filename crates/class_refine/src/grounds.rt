use crate::rows::Rows;
use account_core::{Fact, PairableGraphs};
use circuits::Pair;

/// By what pairs are settled: two circuits, facts about them, what these say of all outputs, and which inputs have an
/// assigned pair.
#[derive(Clone, Copy)]
pub(crate) struct Grounds<'a> {
    pub(crate) graphs: &'a PairableGraphs<'a>,
    pub(crate) facts: &'a [Fact],
    pub(crate) rows: &'a Rows,
    /// The assigned pairs of inputs, in the order that bans have.
    pub(crate) inputs: &'a [Pair],
}
