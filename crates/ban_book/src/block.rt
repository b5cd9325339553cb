//! Ports of both circuits, one of which goes to one of the others (a pigeonhole argument).

ghost use Rattle.std.specs.Prelude.{◌≡◌, ◌+◌, ◌<◌, ◌++◌, All, IfOk, OnOk};
ghost use Rattle.std.specs.List.{range_with_len};
ghost use Rattle.account_core.specs.Covers.{ways, row};
ghost use Rattle.account_core.specs.Tallies.{Ascend};
ghost use Rattle.ban_book.specs.Ways.{block_of, ports_tried, ways_in};

use account_core::{other_side, way};
use circuits::{Pair, PortKind};
use items::Items;
use net_core::Side;
use std::alloc::{AllocError, Global};

/// Ports of one kind, of the first circuit and of the second. Where they are together more than either circuit has,
/// some port of `from` goes to some port of `to`.
#[derive(Debug, Drop, PartialEq, Eq)]
pub struct Block {
    pub kind: PortKind,
    pub from: Items<u32>,
    pub to: Items<u32>,
}

/// The block of one port: it goes to some port of the other circuit, which has `count` of them.
pub fn block_of(
    alloc: Global,
    side: Side,
    kind: PortKind,
    port: u32,
    count: u32,
) -> Result<Block, AllocError>
    ensures { IfOk result (λ block. block ≡ block_of side kind port count) }
{
    let from = ports_tried(alloc, side, port, count)?;
    let to = ports_tried(alloc, other_side(side), port, count)?;
    Ok(Block { kind, from, to })
}

// The first circuit's ports of that block: the port itself, or all where it is a port of the second circuit.
fn ports_tried(alloc: Global, side: Side, port: u32, count: u32) -> Result<Items<u32>, AllocError>
    ensures { IfOk result (λ ports. ports ≡ ports_tried side port count) }
{
    match side {
        Side::First => Items::from_slice(alloc, &[port]),
        Side::Second => ports_up_to(alloc, count),
    }
}

// All ports below a number.
fn ports_up_to(alloc: Global, count: u32) -> Result<Items<u32>, AllocError>
    ensures { IfOk result (λ ports. ports ≡ range_with_len 0 count) }
{
    let mut ports = Items::new(alloc);
    for port in 0..count {
        ports.push(port)?;
    }
    Ok(ports)
}

/// The ports below a number that are marked, in order.
pub fn marked(alloc: Global, marks: &[bool], count: u32) -> Result<Items<u32>, AllocError>
    ensures ascends { IfOk result Ascend }
    ensures below { IfOk result (All (λ port. port < count)) }
{
    let mut ports = Items::new(alloc);
    for port in 0..count {
        add_marked(&mut ports, marks, port)?;
    }
    Ok(ports)
}

// Adds a port that is marked.
#[tactic(auto, using(crate::proofs::Marked::ascends, crate::proofs::Marked::below, crate::proofs::Marked::below_more))]
fn add_marked(ports: &mut Items<u32>, marks: &[bool], port: u32) -> Result<(), AllocError>
    requires ascends { Ascend ports.old }
    requires below { All (λ other. other < port) ports.old }
    ensures ascends { OnOk result (Ascend ports.new) }
    ensures below { OnOk result (All (λ other. other < port + 1) ports.new) }
{
    if !is_marked(marks, port) {
        return Ok(());
    }
    ports.push(port)?;
    Ok(())
}

/// Whether a number is marked.
pub fn is_marked(marks: &[bool], port: u32) -> bool {
    match marks.get(port as usize) {
        Some(mark) => *mark,
        None => false,
    }
}

/// All ways to pair a port of `from` with one of `to`.
pub fn ways_in(alloc: Global, block: &Block) -> Result<Vec<Pair>, AllocError>
    ensures { IfOk result (λ list. list.items ≡ ways_in block.now) }
{
    ways_of(alloc, block.kind, &block.from, &block.to)
}

fn ways_of(alloc: Global, kind: PortKind, from: &[u32], to: &[u32]) -> Result<Vec<Pair>, AllocError>
    ensures { IfOk result (λ list. list.items ≡ ways kind from.now to.now) }
{
    let mut list = Vec::new(alloc);
    for port in from.iter() {
        add_row(&mut list, kind, *port, to)?;
    }
    Ok(list)
}

// Adds the ways to pair a port with each of some others, plain before inverted.
fn add_row(list: &mut Vec<Pair>, kind: PortKind, from: u32, to: &[u32]) -> Result<(), AllocError>
    ensures { OnOk result (list.new.items ≡ list.old.items ++ row kind from to.now) }
{
    for port in to.iter() {
        list.push(way(kind, from, *port, false))?;
        list.push(way(kind, from, *port, true))?;
    }
    Ok(())
}
