//! The literals that are true in a propagation, few or many.

ghost use Rattle.std.specs.Prelude.{◌≡◌, ◌++◌, ◌∷◌, [], IfOk, OnOk, map};
ghost use Rattle.cnf_core.specs.Clauses.{opposite};
ghost use Rattle.cnf_core.specs.Derivations.{is_true};
ghost use Rattle.joint_hash.specs.Made.{AreNumbersOf, AreTold};

use cnf_core::{Assignment, SatLit, opposites};
use indexmap::IndexSet;
use std::alloc::{AllocError, Global};
use std::marker::Model;
use std::mem;

/// So many literals are gone over one by one. The hints of a lemma make fewer true.
const MOST_SCANNED: usize = 16;

/// A partial assignment that grows. Contracts see it as the literals that were made true, in order.
pub(crate) struct Made {
    literals: Vec<SatLit>,
    numbers: Numbers,
}

/// The numbers of literals, where these are many.
#[derive(Drop)]
enum Numbers {
    Few,
    Many(IndexSet<u64>),
}

impl Model for Made {
    ghost use Rattle.std.specs.Prelude.{List};
    ghost use Rattle.cnf_core.specs.declared.literal.SatLit.{SatLit as AnyLiteral};
    ghost use Rattle.joint_hash.specs.Made.{AreTold as NumbersTell};

    ghost Value = { List AnyLiteral };

    ghost view = { λ a. a.literals.items };

    ghost invariant = { λ a. NumbersTell a.literals.items a.numbers };
}

// By hand, so that each exit of a function has one call for it (docs/IDIOMS.md).
impl Drop for Made {
    fn drop(self) {
        let Made {
            literals: _literals,
            numbers: _numbers,
        } = self;
    }
}

impl Made {
    /// The assignment that makes all literals of a clause false.
    pub(crate) fn against(alloc: Global, clause: &[SatLit]) -> Result<Made, AllocError>
        ensures { IfOk result (λ made. made ≡ map opposite clause.now) }
    {
        let literals = opposites(alloc, clause)?;
        Ok(Made {
            literals,
            numbers: Numbers::Few,
        })
    }

    /// Makes one literal more true.
    pub(crate) fn make(&mut self, alloc: Global, literal: SatLit) -> Result<(), AllocError>
        ensures { OnOk result (self.new ≡ self.old ++ literal ∷ []) }
    {
        let numbers = mem::replace(&mut self.numbers, Numbers::Few);
        let more = with_number(alloc, numbers, &self.literals, literal)?;
        self.literals.push(literal)?;
        self.numbers = more;
        Ok(())
    }
}

impl Assignment for Made {
    ghost made = { λ made. made };

    ghost can_ask = { λ _ _. Unit {0} };

    fn is_true(&self, literal: SatLit) -> bool {
        is_among(&self.literals, &self.numbers, literal)
    }

    fn is_false(&self, literal: SatLit) -> bool {
        is_among(&self.literals, &self.numbers, literal.opposite())
    }
}

// Whether a literal is one of these.
fn is_among(literals: &[SatLit], numbers: &Numbers, literal: SatLit) -> bool
    requires { AreTold literals.now numbers.now }
    ensures { result ≡ is_true literals.now literal }
{
    match numbers {
        Numbers::Few => literals.iter().any(|other| literal == *other),
        Numbers::Many(numbers) => numbers.contains(&literal.0),
    }
}

// The numbers of literals with one more.
fn with_number(
    alloc: Global,
    numbers: Numbers,
    literals: &[SatLit],
    literal: SatLit,
) -> Result<Numbers, AllocError>
    requires { AreTold literals.now numbers }
    ensures { IfOk result (AreTold (literals.now ++ literal ∷ [])) }
{
    if literals.len() < MOST_SCANNED {
        return Ok(Numbers::Few);
    }
    let mut all = numbers_of(alloc, numbers, literals)?;
    all.insert(literal.0)?;
    Ok(Numbers::Many(all))
}

// The numbers of literals, however many these are.
fn numbers_of(
    alloc: Global,
    numbers: Numbers,
    literals: &[SatLit],
) -> Result<IndexSet<u64>, AllocError>
    requires { AreTold literals.now numbers }
    ensures { IfOk result (λ all. AreNumbersOf literals.now all.keys) }
{
    match numbers {
        Numbers::Few => listed(alloc, literals),
        Numbers::Many(all) => Ok(all),
    }
}

// The numbers of literals.
fn listed(alloc: Global, literals: &[SatLit]) -> Result<IndexSet<u64>, AllocError>
    ensures { IfOk result (λ all. AreNumbersOf literals.now all.keys) }
{
    let mut all = IndexSet::new(alloc);
    for literal in literals.iter() {
        all.insert(literal.0)?;
    }
    Ok(all)
}
