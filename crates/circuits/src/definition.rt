//! Definitions of signals, as the lines of a netlist give them, in any order.

ghost use Rattle.std.specs.Prelude.{◌≡◌, ◌<◌, length, slice_index_or};
ghost use Rattle.circuits.specs.Circuits.{named_by};

use crate::Lit;
use items::Items;

/// What one position of a row requires of its signal (the Berkeley Logic Interchange Format).
#[derive(Clone, Copy, Debug, Drop, PartialEq, Eq)]
pub enum Trit {
    /// That it is 0.
    Zero,
    /// That it is 1.
    One,
    /// Nothing.
    Dash,
}

/// What a signal is, by other signals.
#[derive(Debug, Drop)]
pub enum Def {
    /// The AND of two literals.
    And {
        a: Lit,
        b: Lit,
    },
    /// A cover (the Berkeley Logic Interchange Format): the signals that it names, its rows, and whether
    /// they list where it is 1 (the on-set) or where it is 0 (the off-set). A row fits where each position
    /// that is no dash has the bit of its name. A cover without rows is 0.
    Cover {
        names: Items<u32>,
        rows: Items<Items<Trit>>,
        on: bool,
    },
}

impl Def {
    /// How many signals the definition names, each as often as it does.
    pub fn names(&self) -> usize
        ensures { result ≡ length (named_by self.now) }
    {
        match self {
            Def::And { .. } => 2,
            Def::Cover { names, .. } => names.len(),
        }
    }

    /// The signal that the definition names at a place.
    pub fn name(&self, place: usize) -> u32
        requires { place < length (named_by self.now) }
        ensures { result ≡ slice_index_or (named_by self.now) place result }
    {
        match self {
            Def::And { a, .. } if place == 0 => a.signal(),
            Def::And { b, .. } => b.signal(),
            Def::Cover { names, .. } => names[place],
        }
    }
}
