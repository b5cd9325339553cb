//! Decided claims, as rows have them.

ghost use Rattle.std.specs.Prelude.{◌≡◌};
ghost use Rattle.ban_book.specs.Rows.{says_both, says_one, decided_from};

/// A decided claim: the number of its fact, and whether it holds.
#[derive(Clone, Copy, Debug, Drop, PartialEq, Eq)]
pub struct DecidedClaim {
    pub number: u64,
    pub holds: bool,
}

/// An output's two claims of one input, decided: that the output never falls where the input goes up, and that it never
/// falls where the input goes down. The output depends on the input where one of them fails, and is binate in it where
/// both fail.
#[derive(Clone, Copy, Debug, Drop, PartialEq, Eq)]
pub struct InputClaims {
    pub up: DecidedClaim,
    pub down: DecidedClaim,
}

impl InputClaims {
    /// The claim for a change of the input from this value: `up` where it is false, and `down` where it is true.
    pub fn with(self, value: bool) -> DecidedClaim
        ensures { result ≡ decided_from value self }
    {
        if value { self.down } else { self.up }
    }

    // Whether one of the claims holds, or fails where `holds` is false.
    pub(crate) fn says_one(self, holds: bool) -> bool
        ensures { result ≡ says_one holds self }
    {
        (self.up.holds == holds) | (self.down.holds == holds)
    }

    // Whether both do.
    pub(crate) fn says_both(self, holds: bool) -> bool
        ensures { result ≡ says_both holds self }
    {
        (self.up.holds == holds) & (self.down.holds == holds)
    }
}
