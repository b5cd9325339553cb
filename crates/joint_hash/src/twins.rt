//! What stands for the variables of gates that were joined to an earlier one.

ghost use Rattle.std.specs.Prelude.{◌≡◌, ◌==◌, ◌∷◌, ◌++◌, [], ℕ, Some, OnOk, if◌then◌else◌};
ghost use Rattle.cnf_core.specs.Clauses.{is_negated, opposite, variable_of};
ghost use Rattle.joint_hash.specs.Classes.{in_order, lemma_ids, operands_of, representative, twin_of};

use crate::gates::ConeGate;
use cnf_core::SatLit;
use indexmap::IndexMap;
use std::alloc::AllocError;

/// What stands for a variable.
#[derive(Clone, Copy, Drop)]
pub(crate) struct Twin {
    /// The literal of the first gate of the class, plain.
    pub(crate) first: SatLit,
    /// The number of the lemma that the first gate implies the variable.
    pub(crate) to_variable: u64,
    /// The number of the lemma that the variable implies the first gate.
    pub(crate) from_variable: u64,
}

/// What stands for a variable, if anything does but itself.
pub(crate) fn twin_of(twins: &IndexMap<u64, Twin>, variable: u64) -> Option<Twin>
    ensures { result ≡ twin_of twins.now.entries variable }
{
    twins.get(&variable).copied()
}

/// Puts what stands for a variable.
pub(crate) fn put_twin(
    twins: &mut IndexMap<u64, Twin>,
    variable: u64,
    twin: Twin,
) -> Result<(), AllocError>
    ensures { OnOk result ((other : ℕ) → twin_of twins.new.entries other
        ≡ (if variable == other then Some twin else twin_of twins.old.entries other)) }
{
    twins.insert(variable, twin)?;
    Ok(())
}

/// The representatives of a gate's operands, in order.
pub(crate) fn operands_of(twins: &IndexMap<u64, Twin>, gate: &ConeGate) -> (SatLit, SatLit)
    ensures { result ≡ operands_of (twin_of twins.now.entries) gate.now }
{
    in_order(
        representative(twins, gate.first),
        representative(twins, gate.second),
    )
}

/// The literal that stands for a literal: that of the first gate of its class, with its sign, or itself.
pub(crate) fn representative(twins: &IndexMap<u64, Twin>, literal: SatLit) -> SatLit
    ensures { result ≡ representative (twin_of twins.now.entries) literal }
{
    match twin_of(twins, literal.variable()) {
        None => literal,
        Some(twin) => signed_as(literal, twin.first),
    }
}

// A literal, with the sign of another.
fn signed_as(other: SatLit, literal: SatLit) -> SatLit
    ensures { result ≡ (if is_negated other then opposite literal else literal) }
{
    if other.is_negated() {
        literal.opposite()
    } else {
        literal
    }
}

/// Two literals, the one of the lesser number first.
pub(crate) fn in_order(one: SatLit, other: SatLit) -> (SatLit, SatLit)
    ensures { result ≡ in_order one other }
{
    if other.0 < one.0 {
        (other, one)
    } else {
        (one, other)
    }
}

/// Adds the number of the lemma that a literal implies its representative, or that this one implies the literal. There
/// is none where it stands for itself.
pub(crate) fn push_lemma(
    ids: &mut Vec<u64>,
    twins: &IndexMap<u64, Twin>,
    literal: SatLit,
    onto: bool,
) -> Result<(), AllocError>
    ensures { OnOk result (ids.new.items ≡ ids.old.items
        ++ lemma_ids (twin_of twins.now.entries (variable_of literal)) literal onto) }
{
    let Some(twin) = twin_of(twins, literal.variable()) else {
        return Ok(());
    };
    ids.push(lemma_of(twin, literal, onto))?;
    Ok(())
}

// The number of the lemma that a literal implies what stands for it, or that this implies the literal.
fn lemma_of(twin: Twin, literal: SatLit, onto: bool) -> u64
    ensures { lemma_ids (Some twin) literal onto ≡ result ∷ [] }
{
    if literal.is_negated() == onto {
        twin.to_variable
    } else {
        twin.from_variable
    }
}
