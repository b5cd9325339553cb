//! Facts under their numbers.

ghost use Rattle.std.specs.Prelude.{◌≡◌, ◌≢◌, ◌∷◌, [], ◌++◌, All, IfSome, IfNone, IfOk, OnOk, OnErr, length, map};
ghost use Rattle.oracle_core.specs.Oracles.{IsNumberOf};

use account_core::Fact;
use claim_core::Claim;
use indexmap::IndexSet;
use items::Items;
use std::alloc::{AllocError, Global};
use std::marker::Model;

/// Facts, in the order of their numbers, and the number of each fact's claim. Contracts see it as the list of the
/// facts.
#[derive(Drop)]
pub struct FactList {
    facts: Vec<Fact>,
    /// The claims of the facts, in the same order.
    claims: IndexSet<Claim>,
}

impl Model for FactList {
    ghost use Rattle.std.specs.Prelude.{◌≡◌, List, map};
    ghost use Rattle.account_core.specs.declared.fact.Fact.{Fact as AnyFact};

    ghost Value = { List AnyFact };

    ghost view = { λ a. a.facts.items };

    ghost invariant = { λ a. a.claims.keys ≡ map (λ fact. fact.claim) a.facts.items };
}

impl FactList {
    /// No facts.
    pub fn new(alloc: Global) -> FactList
        ensures { result ≡ [] }
    {
        FactList {
            facts: Vec::new(alloc),
            claims: IndexSet::new(alloc),
        }
    }

    /// The number of the fact of a claim.
    pub fn number_of(&self, claim: &Claim) -> Option<u64>
        ensures found { IfSome result (IsNumberOf self.now claim.now) }
        ensures none { IfNone result (All (λ fact. fact.claim ≢ claim.now) self.now) }
    {
        let number = self.claims.get_index_of(claim)?;
        Some(number as u64)
    }

    /// Adds a fact of a claim that has none, and answers its number. A refusal changes nothing.
    pub fn add(&mut self, fact: Fact) -> Result<u64, AllocError>
        requires { All (λ other. other.claim ≢ fact.claim) self.old }
        ensures number { IfOk result (λ number. number ≡ length self.old) }
        ensures added { OnOk result (self.new ≡ self.old ++ fact ∷ []) }
        ensures refused { OnErr result (self.new ≡ self.old) }
    {
        self.facts.reserve(1)?;
        self.claims.insert(fact.claim)?;
        let number = self.facts.len() as u64;
        self.facts.push_reserved(fact);
        Ok(number)
    }

    /// The facts, in the order of their numbers.
    pub fn as_slice(&self) -> &[Fact]
        ensures { result.now ≡ self.now }
    {
        self.facts.as_slice()
    }

    /// The facts as a list, in the order of their numbers. It takes no memory.
    pub fn into_items(self) -> Items<Fact>
        ensures { result ≡ self }
    {
        let FactList { facts, claims: _ } = self;
        Items::from_vec(facts)
    }
}
