ghost use Rattle.std.specs.Prelude.{◌≡◌};
ghost use Rattle.word_sim.specs.ThreeValues.{tri_not};

use net_core::SignalValue;

/// A bit, or X, which stands for either.
#[derive(Clone, Copy, Debug, Drop, PartialEq, Eq)]
pub enum Tri {
    /// The bit 0.
    Zero,
    /// The bit 1.
    One,
    /// Either bit.
    X,
}

impl Tri {
    // The value inverted: X stays.
    fn inverse(self) -> Tri
        ensures { result ≡ tri_not self }
    {
        match self {
            Tri::Zero => Tri::One,
            Tri::One => Tri::Zero,
            Tri::X => Tri::X,
        }
    }
}

impl SignalValue for Tri {
    ghost use Rattle.word_sim.specs.ThreeValues.{tris};

    ghost operations = { tris };

    fn signed(self, flip: bool) -> Tri {
        if flip { self.inverse() } else { self }
    }

    /// 0 where one of them is 0, 1 where both are 1, and else X.
    fn and(self, other: Tri) -> Tri {
        match (self, other) {
            (Tri::Zero, _) | (_, Tri::Zero) => Tri::Zero,
            (Tri::One, Tri::One) => Tri::One,
            _ => Tri::X,
        }
    }
}
