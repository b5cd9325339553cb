//! The tests of a conclusion, and the matching of its pairs.

ghost use Rattle.std.specs.Prelude.{◌≡◌, ◌+◌, ◌≤◌, ◌↔◌, IsTrue, IfOk, OnOk, Err, None, Some, length, map};
ghost use Rattle.circuits.specs.Matches.{HavePorts};
ghost use Rattle.net_core.specs.Graph.{IsGraph};
ghost use Rattle.account_check.specs.Conclusions.{entry_of, matching_of, AreInOrder, AreOfKind, EmptyBanTests};
ghost use Rattle.account_check.specs.Conclusions.{DropTest, OtherPortsTest, PairTests, PortsTest};
ghost use Rattle.account_check.specs.Drops.{IsBanKept, IsFactKept};
ghost use Rattle.account_check.specs.declared.reject.RecordStop.TheVariants as stop;
ghost use Rattle.account_check.specs.declared.reject.Reject.{Reject as AnyReject};

use crate::dropped::Dropped;
use crate::reject::{RecordStop, Reject};
use ban_check::{Given, are_known, have_as_many};
use circuits::{Pair, PortKind};
use items::Items;
use net_core::{Graph, Graphs, Matching};
use std::alloc::{AllocError, Global};

/// What is wrong with the conclusion that there is no match since the circuits differ in their numbers of ports: that
/// they don't.
pub(crate) fn test_ports(graphs: &Graphs<'_>) -> Option<Reject>
    ensures { OtherPortsTest graphs.now result }
{
    if have_as_many(graphs) {
        return Some(Reject::Conclusion);
    }
    None
}

/// What is wrong with a drop of a fact: the circuits differ in their numbers of ports; it wasn't given, or was dropped.
pub(crate) fn test_drop_fact(
    graphs: &Graphs<'_>,
    given: &Given,
    dropped: &Dropped,
    fact: u64,
) -> Option<Reject>
    ensures { PortsTest graphs.now (DropTest (IsFactKept given.now dropped.now fact)) result }
{
    if !have_as_many(graphs) {
        return Some(Reject::Conclusion);
    }
    if !is_fact_kept(given, dropped, fact) {
        return Some(Reject::UnknownId);
    }
    None
}

/// What is wrong with a drop of a ban, as of a fact.
pub(crate) fn test_drop_ban(
    graphs: &Graphs<'_>,
    given: &Given,
    dropped: &Dropped,
    ban: u64,
) -> Option<Reject>
    ensures { PortsTest graphs.now (DropTest (IsBanKept given.now dropped.now ban)) result }
{
    if !have_as_many(graphs) {
        return Some(Reject::Conclusion);
    }
    if !is_ban_kept(given, dropped, ban) {
        return Some(Reject::UnknownId);
    }
    None
}

/// What is wrong with the conclusion that there is no match since a ban has no pairs: the circuits differ in their
/// numbers of ports; the ban wasn't given, or was dropped; it has pairs.
pub(crate) fn test_empty_ban(
    graphs: &Graphs<'_>,
    given: &Given,
    dropped: &Dropped,
    ban: u64,
) -> Option<Reject>
    ensures { PortsTest graphs.now (EmptyBanTests given.now dropped.now ban) result }
{
    if !have_as_many(graphs) {
        return Some(Reject::Conclusion);
    }
    if !is_ban_kept(given, dropped, ban) {
        return Some(Reject::UnknownId);
    }
    if !given.ban(ban).is_empty() {
        return Some(Reject::Conclusion);
    }
    None
}

// Whether a fact was given and wasn't dropped.
fn is_fact_kept(given: &Given, dropped: &Dropped, fact: u64) -> bool
    ensures { IsTrue result ↔ IsFactKept given.now dropped.now fact }
{
    given.has_fact(fact) & dropped.keeps_fact(fact)
}

// Whether a ban was given and wasn't dropped.
fn is_ban_kept(given: &Given, dropped: &Dropped, ban: u64) -> bool
    ensures { IsTrue result ↔ IsBanKept given.now dropped.now ban }
{
    given.has_ban(ban) & dropped.keeps_ban(ban)
}

/// The matching of pairs. They are refused as a conclusion where the circuits differ in their numbers of ports; else as
/// unknown where one names a port that doesn't exist; else as a conclusion unless they name each input of the first
/// circuit and then each output, in order, and no two go to one port.
pub(crate) fn matching(
    alloc: Global,
    graphs: &Graphs<'_>,
    pairs: &[Pair],
) -> Result<Matching, RecordStop>
    ensures refused { (reject : AnyReject) → result ≡ Err (stop.Reject reject)
        → PortsTest graphs.now (PairTests graphs.now pairs.now) (Some reject) }
    ensures taken { OnOk result (PortsTest graphs.now (PairTests graphs.now pairs.now) None) }
    ensures order { OnOk result (AreInOrder graphs.now.first pairs.now) }
    ensures matching { IfOk result (λ matching. matching ≡ matching_of graphs.now.first.inputs pairs.now) }
    ensures ports { IfOk result
        (λ matching. HavePorts graphs.now.first graphs.now.second matching.inputs matching.outputs) }
{
    if !have_as_many(graphs) {
        return Err(RecordStop::Reject(Reject::Conclusion));
    }
    if !are_known(graphs, pairs) {
        return Err(RecordStop::Reject(Reject::UnknownId));
    }
    if !are_in_order(graphs.first(), pairs) {
        return Err(RecordStop::Reject(Reject::Conclusion));
    }
    let inputs = graphs.first().inputs();
    let outputs = graphs.first().outputs().len() as u32;
    let matching = split(alloc, inputs as usize, pairs)?;
    if !matching.check_shape(inputs, outputs) {
        return Err(RecordStop::Reject(Reject::Conclusion));
    }
    Ok(matching)
}

// Whether there is a pair for each input of a circuit and then for each output, in order.
fn are_in_order(graph: &Graph, pairs: &[Pair]) -> bool
    ensures { IsTrue result ↔ AreInOrder graph.now pairs.now }
{
    let inputs = graph.inputs() as usize;
    if pairs.len() != inputs + graph.outputs().len() {
        return false;
    }
    are_of_kind(PortKind::Input, &pairs[..inputs]) & are_of_kind(PortKind::Output, &pairs[inputs..])
}

// Whether pair k is of port k of a kind.
fn are_of_kind(kind: PortKind, pairs: &[Pair]) -> bool
    ensures { IsTrue result ↔ AreOfKind kind pairs.now }
{
    for (k, pair) in pairs.iter().enumerate() {
        if pair.kind != kind {
            return false;
        }
        if pair.from as usize != k {
            return false;
        }
    }
    true
}

// The matching of pairs, of which the first n are of inputs.
fn split(alloc: Global, inputs: usize, pairs: &[Pair]) -> Result<Matching, AllocError>
    requires { inputs ≤ length pairs.now }
    ensures { IfOk result (λ matching. matching ≡ matching_of inputs pairs.now) }
{
    Ok(Matching {
        inputs: entries(alloc, &pairs[..inputs])?,
        outputs: entries(alloc, &pairs[inputs..])?,
    })
}

// Where each pair's first port goes.
fn entries(alloc: Global, pairs: &[Pair]) -> Result<Items<(u32, bool)>, AllocError>
    ensures { IfOk result (λ entries. entries ≡ map entry_of pairs.now) }
{
    let mut entries = Items::new(alloc);
    for pair in pairs.iter() {
        entries.push((pair.to, pair.flip))?;
    }
    Ok(entries)
}
