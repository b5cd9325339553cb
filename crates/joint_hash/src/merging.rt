//! Gates of one structure, merged by lemmas.

ghost use Rattle.std.specs.Prelude.{◌≡◌, ◌≢◌, ◌<◌, ◌^◌, ◌+◌, ◌==◌, ◌||◌, ◌&&◌, ◌↔◌, ◌∷◌, ◌++◌, [], ℕ, All, AllPairs};
ghost use Rattle.std.specs.Prelude.{Contains, Some, IfOk, OnOk, is_some, length, map, nat_lt, if◌then◌else◌};
ghost use Rattle.cnf_core.specs.Clauses.{opposite, variable_of};
ghost use Rattle.cnf_core.specs.Derivations.{clauses_of};
ghost use Rattle.claim_core.specs.ConeClauses.{IsConeId};
ghost use Rattle.claim_core.specs.Queries.{IsQuery};
ghost use Rattle.claim_core.specs.Formulas.{formula_of, query_clauses};
ghost use Rattle.joint_hash.specs.Trees.{AreJoined, IsGateOf};
ghost use Rattle.joint_hash.specs.Chains.{AreListed, LeadOn, clauses_with};
ghost use Rattle.joint_hash.specs.Classes.{AreEquated, AreTwins, HasAlso, IsUnderWay, chain_ids, first_with, is_last};
ghost use Rattle.joint_hash.specs.Classes.{lemma_ids, operands_of, twin_of};
ghost use Rattle.joint_hash.specs.Merging.{AreLemmas};

use crate::gates::{ConeGate, gate_of, is_last};
use crate::lemmas::add_lemma;
use crate::polarity::add_implications;
use crate::twins::{Twin, operands_of, push_lemma, put_twin, twin_of};
use cnf_core::{LogLine, SatLit};
use indexmap::IndexMap;
use query_core::ConeClauses;
use std::alloc::{AllocError, Global};

/// Lemmas by which gates of the two cones that unfold to the same tree are one: for each gate but the first of its
/// class, that the first one implies it and that it implies the first one. Where polarity excludes what is asked, and
/// propagation doesn't show it, there are also lemmas by which it does: that gates of the one cone imply their copies
/// in the other.
///
/// # Errors
///
/// Only when out of memory.
pub fn merge(alloc: Global, cones: &ConeClauses<'_>) -> Result<Vec<LogLine>, AllocError>
    ensures lemmas { IfOk result (λ lines. AreLemmas (formula_of cones.now.graphs cones.now.query) lines.items) }
    ensures joined { IfOk result (λ lines. AreJoined cones.now.graphs cones.now.query lines.items) }
{
    merge_ids(alloc, cones, cones.ids())
}

// The lemmas of `merge`, by the numbers of the cones' clauses.
fn merge_ids(
    alloc: Global,
    cones: &ConeClauses<'_>,
    ids: &[u64],
) -> Result<Vec<LogLine>, AllocError>
    requires ascending { AllPairs (λ one other. one < other) ids.now }
    requires there { All (λ id. id < length (query_clauses cones.now.graphs cones.now.query)) ids.now }
    requires cones { (id : ℕ) → (Contains ids.now id ↔ IsConeId cones.now.graphs cones.now.query id) }
    ensures lemmas { IfOk result (λ lines. AreLemmas (formula_of cones.now.graphs cones.now.query) lines.items) }
    ensures joined { IfOk result (λ lines. AreJoined cones.now.graphs cones.now.query lines.items) }
{
    let graphs = cones.graphs();
    // the gates of a graph are in order, and its ports fewer than 2^32
    let _first = graphs.first();
    let _second = graphs.second();
    let mut merged = Merged {
        lines: Vec::new(alloc),
        firsts: IndexMap::new(alloc),
        twins: IndexMap::new(alloc),
    };
    add_gates(alloc, cones, ids, &mut merged)?;
    add_implications(alloc, cones, &merged.twins, &mut merged.lines)?;
    let Merged { lines, .. } = merged;
    Ok(lines)
}

/// What is known of the gates that were gone over.
#[derive(Drop)]
struct Merged {
    lines: Vec<LogLine>,
    /// The first gate of each class, by the representatives of its operands, the lesser one first.
    firsts: IndexMap<(SatLit, SatLit), ConeGate>,
    /// What stands for the variable of each later gate.
    twins: IndexMap<u64, Twin>,
}

// Goes over all gates of the cones. Each stands after its operands.
fn add_gates(
    alloc: Global,
    cones: &ConeClauses<'_>,
    ids: &[u64],
    merged: &mut Merged,
) -> Result<(), AllocError>
    requires ascending { AllPairs (λ one other. one < other) ids.now }
    requires there { All (λ id. id < length (query_clauses cones.now.graphs cones.now.query)) ids.now }
    requires cones { (id : ℕ) → (Contains ids.now id ↔ IsConeId cones.now.graphs cones.now.query id) }
    requires under_way { IsUnderWay cones.now.graphs cones.now.query 0
        merged.old.lines.items merged.old.firsts.entries merged.old.twins.entries }
    ensures { OnOk result
        (IsUnderWay cones.now.graphs cones.now.query (length (query_clauses cones.now.graphs cones.now.query))
        merged.new.lines.items merged.new.firsts.entries merged.new.twins.entries) }
{
    for id in ids.iter() {
        add_at(alloc, cones, *id, merged)?;
    }
    Ok(())
}

// Goes over a gate, where this is the number of its last clause.
fn add_at(
    alloc: Global,
    cones: &ConeClauses<'_>,
    id: u64,
    merged: &mut Merged,
) -> Result<(), AllocError>
    requires there { id < length (query_clauses cones.now.graphs cones.now.query) }
    requires cone { IsConeId cones.now.graphs cones.now.query id }
    requires under_way { IsUnderWay cones.now.graphs cones.now.query id
        merged.old.lines.items merged.old.firsts.entries merged.old.twins.entries }
    ensures { OnOk result (IsUnderWay cones.now.graphs cones.now.query (id + 1)
        merged.new.lines.items merged.new.firsts.entries merged.new.twins.entries) }
{
    if !is_last(id) {
        return Ok(());
    }
    let gate = gate_of(cones, id);
    add_gate(alloc, cones, &gate, merged)
}

// Keeps a gate as the first of its class, or joins it to the one that is. A gate that both cones have comes twice, and
// needs nothing the second time.
fn add_gate(
    alloc: Global,
    cones: &ConeClauses<'_>,
    gate: &ConeGate,
    merged: &mut Merged,
) -> Result<(), AllocError>
    requires gate { IsGateOf cones.now.graphs cones.now.query gate.now }
    requires under_way { IsUnderWay cones.now.graphs cones.now.query (gate.now.id + 2)
        merged.old.lines.items merged.old.firsts.entries merged.old.twins.entries }
    ensures { OnOk result (IsUnderWay cones.now.graphs cones.now.query (gate.now.id + 3)
        merged.new.lines.items merged.new.firsts.entries merged.new.twins.entries) }
{
    let graphs = cones.graphs();
    // the gates of a graph are in order, and its ports fewer than 2^32
    let _first = graphs.first();
    let _second = graphs.second();
    let operands = operands_of(&merged.twins, gate);
    match first_with(&merged.firsts, operands) {
        None => keep(&mut merged.firsts, operands, *gate),
        Some(first) if is_joined(&merged.twins, gate, &first) => Ok(()),
        Some(first) => equate(
            alloc,
            cones,
            gate,
            &first,
            &mut merged.lines,
            &mut merged.twins,
        ),
    }
}

// The first gate that has these operands.
fn first_with(
    firsts: &IndexMap<(SatLit, SatLit), ConeGate>,
    operands: (SatLit, SatLit),
) -> Option<ConeGate>
    ensures { result ≡ first_with firsts.now.entries operands }
{
    firsts.get(&operands).copied()
}

// Keeps a gate as the first with these operands.
fn keep(
    firsts: &mut IndexMap<(SatLit, SatLit), ConeGate>,
    operands: (SatLit, SatLit),
    gate: ConeGate,
) -> Result<(), AllocError>
    ensures { OnOk result (HasAlso firsts.old.entries firsts.new.entries operands gate) }
{
    firsts.insert(operands, gate)?;
    Ok(())
}

// Whether a gate has the variable of the first one that has its operands, or is joined to it.
fn is_joined(twins: &IndexMap<u64, Twin>, gate: &ConeGate, first: &ConeGate) -> bool
    ensures { result ≡ ((variable_of gate.now.output == variable_of first.now.output)
        || is_some (twin_of twins.now.entries (variable_of gate.now.output))) }
{
    let variable = gate.output.variable();
    (variable == first.output.variable()) | twin_of(twins, variable).is_some()
}

// Joins a gate to the first one that has its operands: adds the lemmas that either of the two implies the other.
fn equate(
    alloc: Global,
    cones: &ConeClauses<'_>,
    gate: &ConeGate,
    first: &ConeGate,
    lines: &mut Vec<LogLine>,
    twins: &mut IndexMap<u64, Twin>,
) -> Result<(), AllocError>
    requires fits { IsQuery cones.now.graphs cones.now.query }
    requires gate { IsGateOf cones.now.graphs cones.now.query gate.now }
    requires first { IsGateOf cones.now.graphs cones.now.query first.now }
    requires apart { variable_of first.now.output ≢ variable_of gate.now.output }
    requires operands { operands_of (twin_of twins.old.entries) first.now
        ≡ operands_of (twin_of twins.old.entries) gate.now }
    requires twins { AreTwins (length (query_clauses cones.now.graphs cones.now.query))
        (clauses_with (formula_of cones.now.graphs cones.now.query) lines.old.items) (twin_of twins.old.entries) }
    requires lemmas { AreLemmas (formula_of cones.now.graphs cones.now.query) lines.old.items }
    ensures { OnOk result (AreEquated (formula_of cones.now.graphs cones.now.query) first.now gate.now
        lines.old.items lines.new.items (twin_of twins.old.entries) (twin_of twins.new.entries)) }
{
    // they are the numbers of the cones' clauses, ascending
    let _ids = cones.ids();
    let lemma = cones.count() + lines.len() as u64;
    let there = chain(alloc, twins, first, gate)?;
    add_lemma(
        alloc,
        cones,
        first.output.opposite(),
        gate.output,
        &there,
        lines,
    )?;
    let back = chain(alloc, twins, gate, first)?;
    add_lemma(
        alloc,
        cones,
        first.output,
        gate.output.opposite(),
        &back,
        lines,
    )?;
    let twin = Twin {
        first: first.output,
        to_variable: lemma,
        from_variable: lemma + 1,
    };
    put_twin(twins, gate.output.variable(), twin)
}

// The numbers of the clauses by which one gate implies another of its class: it implies its operands, these their
// representatives, those the operands of the other, and these that gate.
fn chain(
    alloc: Global,
    twins: &IndexMap<u64, Twin>,
    start: &ConeGate,
    end: &ConeGate,
) -> Result<Vec<u64>, AllocError>
    requires start { start.now.id < 2 ^ 62 }
    requires end { end.now.id < 2 ^ 62 }
    ensures { IfOk result (λ ids. ids.items ≡ chain_ids (twin_of twins.now.entries) start.now end.now) }
{
    let mut ids = Vec::new(alloc);
    ids.extend_from_slice(&[start.id, start.id + 1])?;
    push_lemma(&mut ids, twins, start.first, true)?;
    push_lemma(&mut ids, twins, start.second, true)?;
    push_lemma(&mut ids, twins, end.first, false)?;
    push_lemma(&mut ids, twins, end.second, false)?;
    ids.push(end.id + 2)?;
    Ok(ids)
}
