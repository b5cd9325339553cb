ghost use Rattle.std.specs.Prelude.{◌≡◌, ◌≤◌, ◌∷◌, []};
ghost use Rattle.cnf_core.specs.Clauses.{literals_of};

use crate::literal::SatLit;

/// A clause of one to three literals: the first `len` of `lits`. The others mean nothing.
#[derive(Clone, Copy, Debug)]
pub struct Clause3 {
    pub lits: [SatLit; 3],
    pub len: u8,
}

impl Clause3 {
    /// The clause of one literal.
    pub fn one(a: SatLit) -> Clause3
        ensures literals { literals_of result ≡ a ∷ [] }
        ensures len { result.len ≡ 1 }
    {
        Clause3 {
            lits: [a, a, a],
            len: 1,
        }
    }

    /// The clause of two literals.
    pub fn two(a: SatLit, b: SatLit) -> Clause3
        ensures literals { literals_of result ≡ a ∷ b ∷ [] }
        ensures len { result.len ≡ 2 }
    {
        Clause3 {
            lits: [a, b, b],
            len: 2,
        }
    }

    /// The clause of three literals.
    pub fn three(a: SatLit, b: SatLit, c: SatLit) -> Clause3
        ensures literals { literals_of result ≡ a ∷ b ∷ c ∷ [] }
        ensures len { result.len ≡ 3 }
    {
        Clause3 {
            lits: [a, b, c],
            len: 3,
        }
    }

    /// The literals.
    pub fn literals(&self) -> &[SatLit]
        requires { self.now.len ≤ 3 }
        ensures { result.now ≡ literals_of self.now }
    {
        &self.lits[..self.len as usize]
    }
}
