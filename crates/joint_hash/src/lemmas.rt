//! Lines that are added as lemmas.

ghost use Rattle.std.specs.Prelude.{◌≡◌, ◌≢◌, ◌<◌, ◌∷◌, ◌++◌, [], IfOk, OnOk, length};
ghost use Rattle.cnf_core.specs.Clauses.{opposite, variable_of};
ghost use Rattle.cnf_core.specs.Derivations.{clauses_of};
ghost use Rattle.claim_core.specs.Formulas.{formula_of, query_clauses};
ghost use Rattle.joint_hash.specs.Chains.{AddsLines, AreListed, LeadOn, clauses_with};
ghost use Rattle.joint_hash.specs.Merging.{AreBetween, AreKept, AreLemmas, IsImplication};
ghost use Rattle.joint_hash.specs.Trees.{IsGateOf};

use crate::gates::ConeGate;
use crate::hinting::hints_among;
use cnf_core::{LogLine, SatLit};
use items::Items;
use query_core::ConeClauses;
use std::alloc::{AllocError, Global};

/// Adds the lemma that one of two literals is true, by the clauses of these numbers.
pub(crate) fn add_lemma(
    alloc: Global,
    cones: &ConeClauses<'_>,
    one: SatLit,
    other: SatLit,
    ids: &[u64],
    lines: &mut Vec<LogLine>,
) -> Result<(), AllocError>
    requires one { variable_of one < (formula_of cones.now.graphs cones.now.query).variables }
    requires other { variable_of other < (formula_of cones.now.graphs cones.now.query).variables }
    requires two { variable_of one ≢ variable_of other }
    requires lemmas { AreLemmas (formula_of cones.now.graphs cones.now.query) lines.old.items }
    requires listed { AreListed (length (query_clauses cones.now.graphs cones.now.query)) cones.now.ids ids.now }
    requires implies { IsImplication (formula_of cones.now.graphs cones.now.query)
        (record { clause = one ∷ other ∷ []; hints = ids.now }) }
    requires leads { LeadOn (clauses_with (formula_of cones.now.graphs cones.now.query) lines.old.items)
        (opposite one ∷ opposite other ∷ []) ids.now }
    ensures lemmas { OnOk result (AreLemmas (formula_of cones.now.graphs cones.now.query) lines.new.items) }
    ensures clauses { OnOk result (clauses_of lines.new.items ≡ clauses_of lines.old.items ++ (one ∷ other ∷ []) ∷ []) }
{
    let clause = pair(alloc, one, other)?;
    let Some(hints) = hints_among(alloc, cones, lines, &clause, ids)? else {
        unreachable!()
    };
    lines.push(LogLine { clause, hints })?;
    Ok(())
}

/// Adds the lemma that a gate implies another one, where the clauses of these numbers derive it. Answers whether so.
pub(crate) fn add_implied(
    alloc: Global,
    cones: &ConeClauses<'_>,
    gate: &ConeGate,
    other: &ConeGate,
    ids: &[u64],
    lines: &mut Vec<LogLine>,
) -> Result<bool, AllocError>
    requires gate { IsGateOf cones.now.graphs cones.now.query gate.now }
    requires other { IsGateOf cones.now.graphs cones.now.query other.now }
    requires between { AreBetween (length (query_clauses cones.now.graphs cones.now.query)) gate.now other.now ids.now }
    requires lemmas { AreLemmas (formula_of cones.now.graphs cones.now.query) lines.old.items }
    ensures lemmas { OnOk result (AreLemmas (formula_of cones.now.graphs cones.now.query) lines.new.items) }
    ensures kept { OnOk result (AreKept lines.old.items lines.new.items) }
{
    // they bring in that the query fits the graphs, and which numbers those of the cones' clauses are
    let _graphs = cones.graphs();
    let _ids = cones.ids();
    if gate.output.variable() == other.output.variable() {
        return Ok(false);
    }
    let clause = pair(alloc, gate.output.opposite(), other.output)?;
    let Some(hints) = hints_among(alloc, cones, lines, &clause, ids)? else {
        return Ok(false);
    };
    lines.push(LogLine { clause, hints })?;
    Ok(true)
}

/// Adds the number of the line at a place.
pub(crate) fn push_line(
    cones: &ConeClauses<'_>,
    place: usize,
    ids: &mut Vec<u64>,
) -> Result<(), AllocError>
    ensures { OnOk result
        (AddsLines (length (query_clauses cones.now.graphs cones.now.query)) ids.old.items ids.new.items) }
{
    ids.push(cones.count().saturating_add(place as u64))?;
    Ok(())
}

// The clause of two literals.
fn pair(alloc: Global, one: SatLit, other: SatLit) -> Result<Items<SatLit>, AllocError>
    ensures { IfOk result (λ clause. clause ≡ one ∷ other ∷ []) }
{
    let mut clause = Items::new(alloc);
    clause.push(one)?;
    clause.push(other)?;
    Ok(clause)
}
