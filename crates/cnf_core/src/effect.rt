ghost use Rattle.std.specs.Prelude.{◌≡◌, All};
ghost use Rattle.cnf_core.specs.Derivations.{effect_of};

use crate::assignment::Assignment;
use crate::literal::SatLit;

/// What a clause does where some literals were made true (unit propagation).
#[derive(Clone, Copy, Debug, PartialEq, Eq)]
pub enum Effect {
    /// All its literals are false.
    Conflict,
    /// It is unit: its literals that aren't false are all this one, which isn't true yet and is to be made true.
    Makes(SatLit),
    /// It has another literal that isn't false, or a true one.
    Neither,
}

/// What a clause does under a partial assignment.
pub fn effect_of<A: Assignment>(assignment: &A, clause: &[SatLit]) -> Effect
    requires { All (A.can_ask assignment.now) clause.now }
    ensures { result ≡ effect_of (A.made assignment.now) clause.now }
{
    let mut left = None;
    for literal in clause.iter() {
        if !assignment.is_false(*literal) {
            match left {
                None => left = Some(*literal),
                Some(other) if other == *literal => {}
                Some(_) => return Effect::Neither,
            }
        }
    }
    match left {
        None => Effect::Conflict,
        Some(literal) if assignment.is_true(literal) => Effect::Neither,
        Some(literal) => Effect::Makes(literal),
    }
}
