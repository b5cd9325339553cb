//! Facts about the outputs of two circuits.

ghost use Rattle.std.specs.Prelude.{◌≡◌};
ghost use Rattle.account_core.specs.Given.{decided_by};

use bit_list::Bits;
use claim_core::Claim;
use cnf_core::Log;

/// Why a claim fails, or why it holds.
#[derive(Debug)]
pub enum Evidence {
    /// The claim fails: this vector breaks it. It has one bit for each input of the claim's circuit.
    Fails(Bits),
    /// The claim holds: this log refutes its query.
    Holds(Log),
}

// By hand, so that each exit of a function has one call for it (docs/IDIOMS.md).
impl Drop for Evidence {
    fn drop(self) {
        match self {
            Evidence::Fails(_vector) => {}
            Evidence::Holds(_log) => {}
        }
    }
}

/// A claim that was decided.
#[derive(Debug)]
pub struct Fact {
    pub claim: Claim,
    pub evidence: Evidence,
}

// By hand, so that each exit of a function has one call for it (docs/IDIOMS.md).
impl Drop for Fact {
    fn drop(self) {
        let Fact {
            claim: _claim,
            evidence: _evidence,
        } = self;
    }
}

impl Fact {
    /// Whether the claim holds.
    pub fn holds(&self) -> bool
        ensures { result ≡ (decided_by self.now).holds }
    {
        match &self.evidence {
            Evidence::Fails(_) => false,
            Evidence::Holds(_) => true,
        }
    }
}

/// The record that gives a fact. After a claim that holds, the records of its log follow.
#[derive(Debug, Drop)]
pub enum FactHead {
    /// The claim fails: the vector of these bits breaks it.
    Fails { claim: Claim, bits: Bits },
    /// The claim holds.
    Holds { claim: Claim },
}
