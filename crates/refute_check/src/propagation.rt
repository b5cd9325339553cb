ghost use Rattle.std.specs.Prelude.{◌≡◌, ◌<◌, ◌++◌, [], false, All, length, map, nat_lt, None, Some, OnOk};
ghost use Rattle.std.specs.Prelude.{if◌then◌else◌};
ghost use Rattle.std.specs.List.{list_any, list_all};
ghost use Rattle.cnf_core.specs.declared.effect.Effect.TheVariants.{Conflict};
ghost use Rattle.cnf_core.specs.declared.fault.LineFault.TheVariants as fault;
ghost use Rattle.cnf_core.specs.declared.literal.SatLit.{SatLit as AnyLiteral};
ghost use Rattle.cnf_core.specs.Clauses.{clause_at, opposite, variable_of, AreKnown};
ghost use Rattle.cnf_core.specs.Derivations.{effect_of, fault_after, hint_fault, is_empty, line_fault};
ghost use Rattle.cnf_core.specs.Derivations.{repeats_variable};
ghost use Rattle.refute_check.specs.Refutations.{answer_of};
ghost use Rattle.refute_check.specs.Values.{CanBeMade};

use crate::values::Values;
use cnf_core::{Assignment, Base, ClauseStore, Effect, LineFault, LogLine, SatLit, effect_of};

/// Derives a line from a formula and from the lines that were taken. What is made true on the way stays so.
pub(crate) fn derive<B: Base>(
    base: &B,
    taken: &ClauseStore,
    values: &mut Values,
    line: &LogLine,
) -> Result<(), LineFault>
    requires variables { values.old.variables ≡ (B.formula base.now).variables }
    requires none_made { values.old.made ≡ [] }
    requires known { All (AreKnown (B.formula base.now).variables) taken.now.clauses }
    requires not_closed { list_any is_empty taken.now.clauses ≡ false }
    ensures answer { result ≡ answer_of (line_fault (B.formula base.now) taken.now.clauses line.now) }
    ensures variables { values.new.variables ≡ values.old.variables }
{
    if !are_known(base.variables(), &line.clause) {
        return Err(LineFault::UnknownVariable);
    }
    negate(values, &line.clause)?;
    walk(base, taken, values, &line.hints)
}

// Whether the variable of each literal is one of n.
fn are_known(variables: u64, clause: &[SatLit]) -> bool
    ensures { result ≡ list_all (λ literal. nat_lt (variable_of literal) variables) clause.now }
{
    clause.iter().all(|literal| literal.variable() < variables)
}

// Makes each literal of a clause false, unless two have one variable.
fn negate(values: &mut Values, clause: &[SatLit]) -> Result<(), LineFault>
    requires known { AreKnown values.old.variables clause.now }
    requires none_made { values.old.made ≡ [] }
    ensures answer { result ≡ answer_of (if repeats_variable clause.now then Some fault.TwiceVariable else None) }
    ensures made { OnOk result (values.new.made ≡ map opposite clause.now) }
    ensures variables { values.new.variables ≡ values.old.variables }
{
    for literal in clause.iter() {
        if values.is_true(*literal) | values.is_false(*literal) {
            return Err(LineFault::TwiceVariable);
        }
        values.make(literal.opposite());
    }
    Ok(())
}

// Goes over the hints, from one clause that they name to the next.
fn walk<B: Base>(
    base: &B,
    taken: &ClauseStore,
    values: &mut Values,
    hints: &[u64],
) -> Result<(), LineFault>
    requires variables { values.old.variables ≡ (B.formula base.now).variables }
    requires known { All (AreKnown (B.formula base.now).variables) taken.now.clauses }
    ensures answer { result ≡ answer_of
        (hint_fault ((B.formula base.now).clauses ++ taken.now.clauses) values.old.made hints.now) }
    ensures variables { values.new.variables ≡ values.old.variables }
{
    let mut left = hints;
    while let [hint, rest @ ..] = left {
        match effect_at(base, taken, values, *hint) {
            None => return Err(LineFault::UnknownHint),
            Some(Effect::Neither) => return Err(LineFault::NotUnit),
            Some(Effect::Conflict) => return end_at_conflict(rest),
            Some(Effect::Makes(literal)) => values.make(literal),
        }
        left = rest;
    }
    Err(LineFault::NoConflict)
}

// Nothing may stand after a conflict.
fn end_at_conflict(rest: &[u64]) -> Result<(), LineFault>
    ensures { result ≡ answer_of (fault_after Conflict rest.now (λ _. None)) }
{
    if rest.is_empty() {
        Ok(())
    } else {
        Err(LineFault::AfterConflict)
    }
}

// What the clause of a number does, or None where there is no such clause.
fn effect_at<B: Base>(base: &B, taken: &ClauseStore, values: &Values, id: u64) -> Option<Effect>
    requires variables { values.now.variables ≡ (B.formula base.now).variables }
    requires known { All (AreKnown (B.formula base.now).variables) taken.now.clauses }
    ensures makes { (literal : AnyLiteral) → result ≡ Some (Effect.Makes literal) → CanBeMade values.now literal }
    ensures effect { let clauses = (B.formula base.now).clauses ++ taken.now.clauses
        in result ≡ (if nat_lt id (length clauses)
        then Some (effect_of values.now.made (clause_at clauses id)) else None) }
{
    let count = base.count();
    if id < count {
        let clause = base.clause(id);
        return Some(effect_of(values, clause.literals()));
    }
    if id - count < taken.count() {
        return Some(effect_of(values, taken.get(id - count)));
    }
    None
}
