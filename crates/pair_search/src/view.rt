use account_core::PairableGraphs;
use circuits::Pair;
use pair_domains::Domains;
use std::alloc::Global;

/// The trail as a conflict is resolved on it: both circuits, their pairs, and the first assigned ones, which alone a
/// new ban may have.
#[derive(Clone, Copy)]
pub(crate) struct TrailView<'a> {
    pub(crate) alloc: Global,
    pub(crate) graphs: &'a PairableGraphs<'a>,
    pub(crate) domains: &'a Domains,
    pub(crate) assigned: &'a [Pair],
}
