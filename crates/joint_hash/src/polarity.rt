//! Questions that polarity excludes: it is derived that gates of the one cone imply their copies in the other one.

ghost use Rattle.std.specs.Prelude.{◌≡◌, IfOk, IfSome, OnOk, length};
ghost use Rattle.claim_core.specs.Formulas.{query_clauses};
ghost use Rattle.joint_hash.specs.Chains.{AddsLines};
ghost use Rattle.joint_hash.specs.Classes.{AreLate, twin_of};
ghost use Rattle.joint_hash.specs.Merging.{AreBetween};
ghost use Rattle.joint_hash.specs.Trees.{AreJoining, IsGateOf};

use crate::gates::{ConeGate, gate_at, unit_at};
use crate::lemmas::{add_implied, push_line};
use crate::twins::{Twin, push_lemma, representative};
use cnf_core::{LogLine, SatLit};
use indexmap::IndexMap;
use query_core::ConeClauses;
use std::alloc::{AllocError, Global};

/// Where polarity excludes what is asked, adds a lemma for each gate that propagation needs to show it.
///
/// Both cones are of one circuit then, and an input that is fed 0 in the one is fed 1 in the other. Where each path
/// from it to the output has an even number of complements, the output never falls, and each gate on the way implies
/// its copy, or is implied by it, since that holds of its operands. One pass from the output down finds which
/// implications are needed, and gives up at the first that can't be shown. One pass up adds a lemma for each. Nothing
/// rests on the first pass: a lemma is added only where its hints derive it.
pub(crate) fn add_implications(
    alloc: Global,
    cones: &ConeClauses<'_>,
    twins: &IndexMap<u64, Twin>,
    lines: &mut Vec<LogLine>,
) -> Result<(), AllocError>
    requires late { AreLate (length (query_clauses cones.now.graphs cones.now.query)) (twin_of twins.now.entries) }
    requires joining { AreJoining cones.now.graphs cones.now.query lines.old.items }
    ensures { OnOk result (AreJoining cones.now.graphs cones.now.query lines.new.items) }
{
    let mut implications = Implications::new(alloc, cones);
    let gates = require_all(cones, twins, &mut implications)?;
    add_required(cones, twins, gates, &mut implications, lines)
}

/// Implications from gates of the one cone to their copies in the other, and where memory is taken from.
#[derive(Drop)]
struct Implications {
    alloc: Global,
    /// By how much the numbers of a gate's literal and of its copy's differ.
    apart: u64,
    /// Which gates are to imply their copies, by their variables, each with the place of the lemma that says so among
    /// the lines, once it is there.
    required: IndexMap<u64, Option<usize>>,
}

impl Implications {
    // None is required. A circuit of n gates that is asked about beside itself has 3 + 6 n clauses, and a copy's
    // variable is n after the gate's, so that their literals' numbers are 2 n apart.
    fn new(alloc: Global, cones: &ConeClauses<'_>) -> Implications {
        Implications {
            alloc,
            apart: cones.count().saturating_sub(3) / 3,
            required: IndexMap::new(alloc),
        }
    }

    // How many are required.
    fn count(&self) -> usize {
        self.required.len()
    }

    // Whether the gate of a variable is to imply its copy.
    fn has(&self, variable: u64) -> bool {
        self.required.get(&variable).is_some()
    }

    // Notes that one literal has to imply another. Answers whether it may: it does already, or the two are a gate and
    // its copy. That the gate and its copy imply each other can't be shown so: their operands would have to do the
    // same, down to an input that is fed 0 and 1, unless all are of one class, and then the gate and its copy are.
    fn require(
        &mut self,
        twins: &IndexMap<u64, Twin>,
        one: SatLit,
        other: SatLit,
    ) -> Result<bool, AllocError> {
        if is_implied(twins, one, other) {
            return Ok(true);
        }
        if (one.0.abs_diff(other.0) != self.apart) | self.has(source(other, one)) {
            return Ok(false);
        }
        self.required.insert(source(one, other), None)?;
        Ok(true)
    }

    // Notes the place of the lemma that a gate implies its copy.
    fn put(&mut self, gate: &ConeGate, place: usize) -> Result<(), AllocError> {
        self.required.insert(gate.output.variable(), Some(place))?;
        Ok(())
    }

    // The place of the lemma that one literal implies another.
    fn place_of(&self, one: SatLit, other: SatLit) -> Option<usize> {
        match self.required.get(&source(one, other)) {
            Some(place) => *place,
            None => None,
        }
    }
}

// The variable of the gate that implies its copy where the one literal implies the other: that of the other one where
// both are negated.
fn source(one: SatLit, other: SatLit) -> u64 {
    if one.is_negated() {
        other.variable()
    } else {
        one.variable()
    }
}

// Whether one literal implies another as it stands: they are of one class, or the one is false or the other true.
fn is_implied(twins: &IndexMap<u64, Twin>, one: SatLit, other: SatLit) -> bool {
    (one == SatLit::of(0, false))
        | (other == SatLit::of(0, true))
        | (representative(twins, one) == representative(twins, other))
}

// How many gates each of two equal cones has: between the clause of variable 0 and those of the outputs each gate has
// three clauses.
fn gates_in(cones: &ConeClauses<'_>) -> usize {
    cones.ids().len().saturating_sub(3) / 6
}

// The gate of the left cone that stands at a place in it.
fn left_at(cones: &ConeClauses<'_>, place: usize) -> Option<ConeGate>
    ensures { IfSome result (IsGateOf cones.now.graphs cones.now.query) }
{
    gate_at(cones, place.saturating_mul(3).saturating_add(3))
}

// The gate of the right cone that stands at a place in it.
fn right_at(cones: &ConeClauses<'_>, place: usize) -> Option<ConeGate>
    ensures { IfSome result (IsGateOf cones.now.graphs cones.now.query) }
{
    left_at(cones, place.saturating_add(gates_in(cones)))
}

// Notes the implications by which the outputs can't have the values that are asked for. Answers among how many of the
// cone's gates, from the first one on, lemmas are needed to show it. None is needed above the topmost gate two operands
// of which are to imply those of its copy: where a gate and its copy differ, propagation goes on to a single operand.
fn require_all(
    cones: &ConeClauses<'_>,
    twins: &IndexMap<u64, Twin>,
    implications: &mut Implications,
) -> Result<usize, AllocError> {
    if !require_outputs(cones, twins, implications)? | (implications.count() == 0) {
        return Ok(0);
    }
    let mut needed = 0;
    for place in (0..gates_in(cones)).rev() {
        let Some(more) = require_below(cones, twins, implications, place)? else {
            return Ok(0);
        };
        if (needed == 0) & (more == 2) {
            needed = place.saturating_add(1);
        }
    }
    Ok(needed)
}

// Notes that the left output's literal, which is to be true, has to imply that the right one's is false. They are the
// last two clauses.
fn require_outputs(
    cones: &ConeClauses<'_>,
    twins: &IndexMap<u64, Twin>,
    implications: &mut Implications,
) -> Result<bool, AllocError> {
    let (Some(left), Some(right)) = (unit_at(cones, 1), unit_at(cones, 0)) else {
        return Ok(false);
    };
    implications.require(twins, left, right.opposite())
}

// Notes the implications between operands that the gates at a place need, if one is to imply the other. Answers how
// many more are required, or None where there can't be such.
fn require_below(
    cones: &ConeClauses<'_>,
    twins: &IndexMap<u64, Twin>,
    implications: &mut Implications,
    place: usize,
) -> Result<Option<usize>, AllocError> {
    let (Some(left), Some(right)) = (left_at(cones, place), right_at(cones, place)) else {
        return Ok(None);
    };
    let before = implications.count();
    let rises = require_operands(twins, implications, &left, &right)?;
    let falls = require_operands(twins, implications, &right, &left)?;
    if !(rises & falls) {
        return Ok(None);
    }
    Ok(Some(implications.count().saturating_sub(before)))
}

// Notes that a gate's operands have to imply those of its copy, if the gate is to imply it.
fn require_operands(
    twins: &IndexMap<u64, Twin>,
    implications: &mut Implications,
    gate: &ConeGate,
    copy: &ConeGate,
) -> Result<bool, AllocError> {
    if !implications.has(gate.output.variable()) {
        return Ok(true);
    }
    let first = implications.require(twins, gate.first, copy.first)?;
    let second = implications.require(twins, gate.second, copy.second)?;
    Ok(first & second)
}

// Adds the lemmas of the implications that are required among some of the cone's gates, from the first one on.
fn add_required(
    cones: &ConeClauses<'_>,
    twins: &IndexMap<u64, Twin>,
    gates: usize,
    implications: &mut Implications,
    lines: &mut Vec<LogLine>,
) -> Result<(), AllocError>
    requires late { AreLate (length (query_clauses cones.now.graphs cones.now.query)) (twin_of twins.now.entries) }
    requires joining { AreJoining cones.now.graphs cones.now.query lines.old.items }
    ensures { OnOk result (AreJoining cones.now.graphs cones.now.query lines.new.items) }
{
    for place in 0..gates {
        add_at(cones, twins, implications, place, lines)?;
    }
    Ok(())
}

// Adds those of the gates at a place.
fn add_at(
    cones: &ConeClauses<'_>,
    twins: &IndexMap<u64, Twin>,
    implications: &mut Implications,
    place: usize,
    lines: &mut Vec<LogLine>,
) -> Result<(), AllocError>
    requires late { AreLate (length (query_clauses cones.now.graphs cones.now.query)) (twin_of twins.now.entries) }
    requires joining { AreJoining cones.now.graphs cones.now.query lines.old.items }
    ensures { OnOk result (AreJoining cones.now.graphs cones.now.query lines.new.items) }
{
    let Some(left) = left_at(cones, place) else {
        return Ok(());
    };
    let Some(right) = right_at(cones, place) else {
        return Ok(());
    };
    add_implication(cones, twins, implications, &left, &right, lines)?;
    add_implication(cones, twins, implications, &right, &left, lines)
}

// Adds the lemma that a gate implies its copy, if that is required.
fn add_implication(
    cones: &ConeClauses<'_>,
    twins: &IndexMap<u64, Twin>,
    implications: &mut Implications,
    gate: &ConeGate,
    copy: &ConeGate,
    lines: &mut Vec<LogLine>,
) -> Result<(), AllocError>
    requires late { AreLate (length (query_clauses cones.now.graphs cones.now.query)) (twin_of twins.now.entries) }
    requires gate { IsGateOf cones.now.graphs cones.now.query gate.now }
    requires copy { IsGateOf cones.now.graphs cones.now.query copy.now }
    requires joining { AreJoining cones.now.graphs cones.now.query lines.old.items }
    ensures { OnOk result (AreJoining cones.now.graphs cones.now.query lines.new.items) }
{
    if !implications.has(gate.output.variable()) {
        return Ok(());
    }
    let place = lines.len();
    let steps = steps(cones, twins, implications, gate, copy)?;
    if !add_implied(implications.alloc, cones, gate, copy, &steps, lines)? {
        return Ok(());
    }
    implications.put(gate, place)?;
    Ok(())
}

// The numbers of the clauses by which a gate implies its copy: it implies its operands, these those of the copy, and
// they the copy.
fn steps(
    cones: &ConeClauses<'_>,
    twins: &IndexMap<u64, Twin>,
    implications: &Implications,
    gate: &ConeGate,
    copy: &ConeGate,
) -> Result<Vec<u64>, AllocError>
    requires late { AreLate (length (query_clauses cones.now.graphs cones.now.query)) (twin_of twins.now.entries) }
    requires gate { IsGateOf cones.now.graphs cones.now.query gate.now }
    requires copy { IsGateOf cones.now.graphs cones.now.query copy.now }
    ensures { IfOk result
        (λ ids. AreBetween (length (query_clauses cones.now.graphs cones.now.query)) gate.now copy.now ids.items) }
{
    // a formula has fewer than 2^62 clauses
    let _count = cones.count();
    let mut ids = Vec::new(implications.alloc);
    ids.push(gate.id)?;
    push_link(cones, twins, implications, gate.first, copy.first, &mut ids)?;
    ids.push(gate.id + 1)?;
    push_link(
        cones,
        twins,
        implications,
        gate.second,
        copy.second,
        &mut ids,
    )?;
    ids.push(copy.id + 2)?;
    Ok(ids)
}

// Adds the numbers of the clauses by which an operand implies that of the copy: the one that says that variable 0 is
// true, the lemma that the operand's gate implies its copy, or those by which both are of one class.
fn push_link(
    cones: &ConeClauses<'_>,
    twins: &IndexMap<u64, Twin>,
    implications: &Implications,
    one: SatLit,
    other: SatLit,
    ids: &mut Vec<u64>,
) -> Result<(), AllocError>
    requires late { AreLate (length (query_clauses cones.now.graphs cones.now.query)) (twin_of twins.now.entries) }
    ensures { OnOk result
        (AddsLines (length (query_clauses cones.now.graphs cones.now.query)) ids.old.items ids.new.items) }
{
    if one == other {
        return Ok(());
    }
    if (one.variable() == 0) | (other.variable() == 0) {
        return push_constant(cones, ids);
    }
    match implications.place_of(one, other) {
        Some(place) => push_line(cones, place, ids),
        None => push_class(cones, twins, one, other, ids),
    }
}

// Adds the number of the clause that says that variable 0 is true.
fn push_constant(cones: &ConeClauses<'_>, ids: &mut Vec<u64>) -> Result<(), AllocError>
    ensures { OnOk result
        (AddsLines (length (query_clauses cones.now.graphs cones.now.query)) ids.old.items ids.new.items) }
{
    ids.push(0)?;
    Ok(())
}

// Adds the numbers of the lemmas that a literal implies what stands for it, and that this implies another one.
fn push_class(
    cones: &ConeClauses<'_>,
    twins: &IndexMap<u64, Twin>,
    one: SatLit,
    other: SatLit,
    ids: &mut Vec<u64>,
) -> Result<(), AllocError>
    requires late { AreLate (length (query_clauses cones.now.graphs cones.now.query)) (twin_of twins.now.entries) }
    ensures { OnOk result
        (AddsLines (length (query_clauses cones.now.graphs cones.now.query)) ids.old.items ids.new.items) }
{
    // a formula has fewer than 2^62 clauses
    let _count = cones.count();
    push_lemma(ids, twins, one, true)?;
    push_lemma(ids, twins, other, false)
}
