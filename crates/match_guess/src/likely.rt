//! Candidates, tried on vectors.

ghost use Rattle.std.specs.Prelude.{◌≡◌, ◌<◌, ◌≤◌, ◌^◌, IfOk, length};
ghost use Rattle.circuits.specs.Netlists.{signals_of};
ghost use Rattle.sim_patterns.specs.Trials.{AreTrials, HasColumns};

use account_core::PairableGraphs;
use circuits::PortKind;
use items::Items;
use net_core::{Graph, Matching};
use port_cells::port_at;
use sim_patterns::Trials;
use std::alloc::{AllocError, Global};
use std::simd::prelude::*;
use word_sim::{Words, mix, run_gate_blocks, signed_lanes, simulate, word_at};

/// One of how many gates of either circuit has to seem equal to one of the other, so that a candidate comes first.
/// Where half of them do, most of what a proof needs is found by hashing and by simulation. Of a chain and a tree of
/// exclusive ors hardly any do.
const ONE_OF: usize = 2;

/// How likely it is that a candidate is soon shown to be a match.
#[derive(Clone, Copy, Debug, PartialEq, Eq)]
pub(crate) enum Likely {
    /// The candidate is no matching of the ports, or outputs differ on a vector.
    Not,
    /// Many gates seem to be equal under it.
    Near,
    /// The outputs agree on drawn vectors, and few other gates do.
    Far,
}

/// Tries a candidate on vectors.
pub(crate) fn rated(
    alloc: Global,
    graphs: &PairableGraphs<'_>,
    trials: &Trials,
    candidate: &Matching,
) -> Result<Likely, AllocError>
    requires { AreTrials graphs.now.first trials.now }
{
    let inputs = graphs.ports(PortKind::Input);
    let outputs = graphs.ports(PortKind::Output);
    if !candidate.check_shape(inputs, outputs) {
        return Ok(Likely::Not);
    }
    let sent = sent_by(alloc, candidate, &trials.inputs, inputs)?;
    let partners = simulate(alloc, graphs.second(), &sent)?;
    if !do_outputs_agree(candidate, &trials.outputs, &partners) {
        return Ok(Likely::Not);
    }
    let first = classes_of(alloc, graphs.first(), &trials.inputs)?;
    let second = classes_of(alloc, graphs.second(), &sent)?;
    Ok(if are_alike(&first, &second) {
        Likely::Near
    } else {
        Likely::Far
    })
}

/// The matching that pairs ports of equal places, none of them inverted.
pub(crate) fn in_place(alloc: Global, graphs: &PairableGraphs<'_>) -> Result<Matching, AllocError> {
    Ok(Matching {
        inputs: places(alloc, graphs.ports(PortKind::Input))?,
        outputs: places(alloc, graphs.ports(PortKind::Output))?,
    })
}

fn places(alloc: Global, count: u32) -> Result<Items<(u32, bool)>, AllocError> {
    let mut places = Items::with_capacity(alloc, count as usize)?;
    for place in 0..count {
        places.push((place, false))?;
    }
    Ok(places)
}

/// An equal matching.
pub(crate) fn copied(matching: &Matching) -> Result<Matching, AllocError> {
    Ok(Matching {
        inputs: matching.inputs.clone()?,
        outputs: matching.outputs.clone()?,
    })
}

// What the inputs of the second circuit get, of which there are as many, where those of the first one have these words.
fn sent_by(
    alloc: Global,
    candidate: &Matching,
    inputs: &Words,
    count: u32,
) -> Result<Words, AllocError>
    ensures columns { IfOk result (λ sent. length sent.columns ≡ count) }
    ensures words { IfOk result (λ sent. sent.words ≡ inputs.now.words) }
{
    let mut sent = Words::new(alloc, count, inputs.words())?;
    send_all(candidate, inputs, &mut sent);
    Ok(sent)
}

fn send_all(candidate: &Matching, inputs: &Words, sent: &mut Words)
    requires words { sent.old.words ≡ inputs.now.words }
    ensures columns { length sent.new.columns ≡ length sent.old.columns }
    ensures words { sent.new.words ≡ sent.old.words }
{
    for (from, entry) in candidate.inputs.iter().enumerate() {
        send(inputs, port_at(from), *entry, sent);
    }
}

// Gives the partner of an input its words.
fn send(inputs: &Words, from: u32, entry: (u32, bool), sent: &mut Words)
    requires words { sent.old.words ≡ inputs.now.words }
    ensures columns { length sent.new.columns ≡ length sent.old.columns }
    ensures words { sent.new.words ≡ sent.old.words }
{
    let (to, flip) = entry;
    if (from as usize >= inputs.columns()) | (to as usize >= sent.columns()) {
        return;
    }
    for word in 0..inputs.words() {
        let bits = inputs.get(from, word);
        sent.set(to, word, if flip { !bits } else { bits });
    }
}

// Whether each output has the words of its partner.
fn do_outputs_agree(candidate: &Matching, outputs: &Words, partners: &Words) -> bool {
    for (from, entry) in candidate.outputs.iter().enumerate() {
        if !does_agree(outputs, port_at(from), *entry, partners) {
            return false;
        }
    }
    true
}

fn does_agree(outputs: &Words, from: u32, entry: (u32, bool), partners: &Words) -> bool {
    let (to, flip) = entry;
    if (from as usize >= outputs.columns()) | (to as usize >= partners.columns()) {
        return false;
    }
    if outputs.words() != partners.words() {
        return false;
    }
    for word in 0..outputs.words() {
        let bits = partners.get(to, word);
        if outputs.get(from, word) != if flip { !bits } else { bits } {
            return false;
        }
    }
    true
}

// A number for what each gate has on the first eight words, up to its complement, ascending. Gates that are constant
// there are left out: they say nothing.
fn classes_of(alloc: Global, graph: &Graph, inputs: &Words) -> Result<Vec<u64>, AllocError>
    requires { HasColumns graph.now.inputs inputs.now }
{
    let mut values = vec![in alloc; u64x8::splat(0); graph.signals()]?;
    run_block(graph, inputs, &mut values);
    classes_in(alloc, &values)
}

// The circuit on the vectors of the first eight words. `values` has room for a block of each signal, and the constant's
// is there.
fn run_block(graph: &Graph, inputs: &Words, values: &mut [u64x8])
    requires columns { HasColumns graph.now.inputs inputs.now }
    requires room { length values.old ≡ signals_of graph.now }
{
    let gates = graph.gates();
    put_blocks(inputs, values);
    run_gate_blocks(gates, inputs.columns() + 1, values);
}

fn put_blocks(inputs: &Words, values: &mut [u64x8])
    requires words { 8 ≤ inputs.now.words }
    requires room { length inputs.now.columns < length values.old }
    requires few { length inputs.now.columns < 2 ^ 32 }
    ensures { length values.new ≡ length values.old }
{
    for column in 0..inputs.columns() {
        values[column + 1] = inputs.block(column as u32, 0);
    }
}

// The classes of signals, those of inputs too, which have the same ones in both circuits.
fn classes_in(alloc: Global, values: &[u64x8]) -> Result<Vec<u64>, AllocError> {
    let mut classes = Vec::new(alloc);
    for value in values.iter() {
        if let Some(class) = class_of(*value) {
            classes.push(class)?;
        }
    }
    classes.sort_unstable();
    Ok(classes)
}

// A hash of a block, and of its complement too, unless it is constant.
fn class_of(block: u64x8) -> Option<u64> {
    let plain = signed_lanes(block, word_at(block, 0) % 2 == 1);
    let mut hash = 0u64;
    let mut ones = 0u64;
    for word in 0..8 {
        let bits = word_at(plain, word);
        hash = mix(hash, bits);
        ones |= bits;
    }
    if ones == 0 { None } else { Some(hash) }
}

// Whether enough of the classes of either circuit are among those of the other one, which are ascending too.
fn are_alike(first: &[u64], second: &[u64]) -> bool {
    have_in_common(first, second) & have_in_common(second, first)
}

fn have_in_common(classes: &[u64], others: &[u64]) -> bool {
    let mut common = 0usize;
    for class in classes.iter() {
        if others.binary_search(class).is_ok() {
            common = common.saturating_add(1);
        }
    }
    common.saturating_mul(ONE_OF) >= classes.len()
}
