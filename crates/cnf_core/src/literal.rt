ghost use Rattle.std.specs.Prelude.{◌≡◌, ◌<◌, ◌*◌, ◌+◌, ◌^◌};
ghost use Rattle.cnf_core.specs.Clauses.{literal_of, opposite, variable_of, is_negated};

/// A literal: a variable, plain or negated. Its number is twice the variable's, plus 1 where it is negated.
#[derive(Clone, Copy, Debug, Default, PartialEq, Eq, PartialOrd, Ord, Hash)]
pub struct SatLit(pub u64);

impl SatLit {
    /// The literal of a variable that is true where the variable has this bit.
    pub fn of(variable: u64, bit: bool) -> SatLit
        requires { variable < 2 ^ 63 }
        ensures { result ≡ literal_of variable bit }
    {
        if bit {
            SatLit(2 * variable)
        } else {
            SatLit(2 * variable + 1)
        }
    }

    /// The variable that the literal reads.
    pub fn variable(self) -> u64
        ensures { result ≡ variable_of self }
    {
        self.0 / 2
    }

    /// Whether the literal inverts its variable.
    pub fn is_negated(self) -> bool
        ensures { result ≡ is_negated self }
    {
        self.0 % 2 == 1
    }

    /// The literal of the same variable with the other sign.
    pub fn opposite(self) -> SatLit
        ensures { result ≡ opposite self }
    {
        if self.is_negated() {
            SatLit(self.0 - 1)
        } else {
            SatLit(self.0 + 1)
        }
    }
}
