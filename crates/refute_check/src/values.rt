ghost use Rattle.std.specs.Prelude.{◌≡◌, ◌+◌, ◌<◌, ◌≤◌, ◌++◌, ◌∷◌, [], false, None, IfOk, All, length, replicate};
ghost use Rattle.std.specs.Prelude.{vec_len, vec_capacity};
ghost use Rattle.cnf_core.specs.Clauses.{variable_of};
ghost use Rattle.refute_check.specs.Values.{CanBeMade, IsOfMade, is_bit, bit_at};

use cnf_core::{Assignment, SatLit};
use std::alloc::{AllocError, Global};
use std::marker::Model;

/// The literals that were made true, over n variables. None of them has the variable of another. To make one takes
/// no memory.
#[derive(Debug, Drop)]
pub struct Values {
    /// The bit of each variable that has one.
    bits: Vec<Option<bool>>,
    /// The literals, in the order in which they were made true.
    made: Vec<SatLit>,
}

impl Model for Values {
    ghost use Rattle.std.specs.Prelude.{length};
    ghost use Rattle.refute_check.specs.Values.{Made, IsMade};

    ghost Value = { Made };

    ghost view = { λ a. record { variables = length a.bits.items; made = a.made.items } };

    ghost invariant = { λ a. IsMade a.bits.items a.made };
}

impl Values {
    /// No literal is true.
    pub(crate) fn new(alloc: Global, variables: u64) -> Result<Values, AllocError>
        ensures { IfOk result (λ values. values ≡ record { variables = variables; made = [] }) }
    {
        let bits = no_bits(alloc, variables as usize)?;
        let made = Vec::with_capacity(alloc, variables as usize)?;
        Ok(Values { bits, made })
    }

    /// Makes a literal true that is neither true nor false.
    pub(crate) fn make(&mut self, literal: SatLit)
        requires { CanBeMade self.old literal }
        ensures variables { self.new.variables ≡ self.old.variables }
        ensures made { self.new.made ≡ self.old.made ++ literal ∷ [] }
    {
        self.bits[literal.variable() as usize] = Some(!literal.is_negated());
        self.made.push_reserved(literal);
    }

    /// Takes back all that was made true.
    pub(crate) fn clear(&mut self)
        ensures { self.new ≡ record { variables = self.old.variables; made = [] } }
    {
        unset(&mut self.bits, &self.made);
        self.made.clear();
    }
}

impl Assignment for Values {
    ghost made = { λ values. values.made };

    ghost can_ask = { λ values literal. variable_of literal < values.variables };

    fn is_true(&self, literal: SatLit) -> bool {
        has_bit(&self.bits, literal.variable(), !literal.is_negated())
    }

    fn is_false(&self, literal: SatLit) -> bool {
        has_bit(&self.bits, literal.variable(), literal.is_negated())
    }
}

// No variable has a bit.
fn no_bits(alloc: Global, count: usize) -> Result<Vec<Option<bool>>, AllocError>
    ensures { IfOk result (λ bits. bits.items ≡ replicate count None) }
{
    vec![in alloc; None; count]
}

// Whether a variable has this bit.
fn has_bit(bits: &[Option<bool>], variable: u64, bit: bool) -> bool
    requires { variable < length bits.now }
    ensures { result ≡ is_bit (bit_at bits.now variable) bit }
{
    match bits[variable as usize] {
        Some(value) => value == bit,
        None => false,
    }
}

// Takes the bits of literals away.
fn unset(bits: &mut [Option<bool>], made: &[SatLit])
    requires { IsOfMade bits.old made.now }
    ensures { bits.new ≡ replicate (length bits.old) None }
{
    for literal in made.iter() {
        bits[literal.variable() as usize] = None;
    }
}
