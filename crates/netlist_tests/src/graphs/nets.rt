//! Netlists of parts that were written out by hand.

ghost use Rattle.std.specs.Prelude.{◌≡◌, ◌↔◌, ◌+◌, ◌<◌, ◌^◌, All, IsTrue, length};
ghost use Rattle.circuits.specs.Literals.{signal_of};
ghost use Rattle.circuits.specs.Circuits.{HasWideRows, named_by};

use crate::compared::is_graph;
use items::Items;
use net_core::{Def, Lit, OrderFault, PlainNet, Trit, order};
use std::alloc::{AllocError, Global};
use std::test::Fail;

/// A definition, by the numbers of its literals, or by the signals that it names and its rows in `0`, `1` and `-`.
#[derive(Clone, Copy)]
pub(super) enum Part<'a> {
    And(u32, u32),
    OnSet(&'a [u32], &'a [&'a str]),
    OffSet(&'a [u32], &'a [&'a str]),
}

fn names_signals(signals: u32, def: &Def) -> bool
    ensures { IsTrue result ↔ All (λ s. s < signals) (named_by def.now) }
{
    match def {
        Def::And { a, b } => (a.signal() < signals) & (b.signal() < signals),
        Def::Cover { names, .. } => are_below(signals, names),
    }
}

fn are_below(signals: u32, names: &[u32]) -> bool
    ensures { IsTrue result ↔ All (λ s. s < signals) names.now }
{
    names.iter().all(|name| *name < signals)
}

fn has_wide_rows(def: &Def) -> bool
    ensures { IsTrue result ↔ HasWideRows def.now }
{
    match def {
        Def::And { .. } => true,
        Def::Cover { names, rows, .. } => are_wide(names.len(), rows),
    }
}

fn are_wide(width: usize, rows: &[Items<Trit>]) -> bool
    ensures { IsTrue result ↔ All (λ row. length row ≡ width) rows.now }
{
    rows.iter().all(|row| row.len() == width)
}

fn are_closed(signals: u32, defs: &[Def]) -> bool
    ensures { IsTrue result ↔ All (λ def. All (λ s. s < signals) (named_by def)) defs.now }
{
    defs.iter().all(|def| names_signals(signals, def))
}

fn have_wide_rows(defs: &[Def]) -> bool
    ensures { IsTrue result ↔ All HasWideRows defs.now }
{
    defs.iter().all(|def| has_wide_rows(def))
}

fn are_signals(signals: u32, outputs: &[Lit]) -> bool
    ensures { IsTrue result ↔ All (λ output. signal_of output < signals) outputs.now }
{
    outputs.iter().all(|output| output.signal() < signals)
}

// Whether the definitions and outputs name only signals that are there, and the rows are wide enough.
fn fit(inputs: u32, defs: &[Def], outputs: &[Lit]) -> bool
    ensures signals { IsTrue result → 1 + inputs + length defs.now < 2 ^ 30 }
    ensures few_outputs { IsTrue result → length outputs.now < 2 ^ 32 }
    ensures closed { IsTrue result
        → All (λ def. All (λ s. s < 1 + inputs + length defs.now) (named_by def)) defs.now }
    ensures wide { IsTrue result → All HasWideRows defs.now }
    ensures outputs { IsTrue result
        → All (λ output. signal_of output < 1 + inputs + length defs.now) outputs.now }
{
    if inputs > 1000 {
        return false;
    }
    if defs.len() > 100_000 {
        return false;
    }
    if outputs.len() > 1000 {
        return false;
    }
    let signals = 1 + inputs + defs.len() as u32;
    are_closed(signals, defs) & have_wide_rows(defs) & are_signals(signals, outputs)
}

fn plain_net(inputs: u32, defs: Items<Def>, outputs: Items<Lit>) -> Option<PlainNet> {
    if !fit(inputs, &defs, &outputs) {
        return None;
    }
    Some(PlainNet::new(inputs, defs, outputs))
}

fn def_of(alloc: Global, part: Part<'_>) -> Result<Def, AllocError> {
    match part {
        Part::And(a, b) => Ok(Def::And {
            a: Lit(a),
            b: Lit(b),
        }),
        Part::OnSet(names, rows) => cover(alloc, names, rows, true),
        Part::OffSet(names, rows) => cover(alloc, names, rows, false),
    }
}

fn cover(alloc: Global, names: &[u32], rows: &[&str], on: bool) -> Result<Def, AllocError> {
    let rows = rows_of(alloc, rows)?;
    Ok(Def::Cover {
        names: Items::from_slice(alloc, names)?,
        rows,
        on,
    })
}

fn rows_of(alloc: Global, texts: &[&str]) -> Result<Items<Items<Trit>>, AllocError> {
    let mut rows = Items::new(alloc);
    for text in texts.iter() {
        rows.push(row_of(alloc, text.as_bytes())?)?;
    }
    Ok(rows)
}

fn row_of(alloc: Global, text: &[u8]) -> Result<Items<Trit>, AllocError> {
    let mut row = Items::new(alloc);
    for byte in text.iter() {
        row.push(match *byte {
            b'0' => Trit::Zero,
            b'1' => Trit::One,
            _ => Trit::Dash,
        })?;
    }
    Ok(row)
}

fn defs_of(alloc: Global, parts: &[Part<'_>]) -> Result<Items<Def>, AllocError> {
    let mut defs = Items::new(alloc);
    for part in parts.iter() {
        defs.push(def_of(alloc, *part)?)?;
    }
    Ok(defs)
}

/// The netlist of these definitions and outputs.
pub(super) fn net(
    alloc: Global,
    inputs: u32,
    parts: &[Part<'_>],
    outputs: &[Lit],
) -> Result<PlainNet, Fail> {
    let outputs = Items::from_slice(alloc, outputs)?;
    let defs = defs_of(alloc, parts)?;
    Ok(plain_net(inputs, defs, outputs).ok_or("not closed")?)
}

/// Whether a netlist is put in order as gates with these operands, and these outputs.
pub(super) fn is_ordered_as(
    alloc: Global,
    net: &PlainNet,
    operands: &[(u32, u32)],
    outputs: &[Lit],
) -> Result<bool, OrderFault> {
    let graph = order(alloc, net)?;
    Ok((graph.inputs() == net.inputs()) & is_graph(&graph, operands, outputs))
}
