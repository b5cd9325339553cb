//! Queries about an output of each of two circuits.

ghost use Rattle.std.specs.Prelude.{◌≡◌, IfOk};

use crate::feeds::Feeds;
use net_core::Side;
use std::alloc::AllocError;

/// What an input of a cone gets: a fixed bit, or a bit of the vector that is looked for.
#[derive(Clone, Copy, Debug, PartialEq, Eq, Hash)]
pub enum Feed {
    Fixed(bool),
    /// Bit `place` of the vector, inverted where `flip` says so.
    Wire { place: u32, flip: bool },
}

/// An output of a circuit, with what each of the circuit's inputs gets.
#[derive(Clone, Debug, Drop, PartialEq, Eq, Hash)]
pub struct Cone {
    pub side: Side,
    pub output: u32,
    /// One entry for each input, in their order.
    pub feed: Feeds,
}

/// Whether there is a vector on which two cones have these values.
#[derive(Clone, Debug, Drop, PartialEq, Eq, Hash)]
pub struct Query {
    pub left: Cone,
    pub left_value: bool,
    pub right: Cone,
    pub right_value: bool,
}

impl Query {
    /// An equal query.
    pub fn copy(&self) -> Result<Query, AllocError>
        ensures { IfOk result (λ query. query ≡ self.now) }
    {
        self.clone()
    }
}
