//! A refusal by counts alone: outputs that all must go to others with which they don't fit.

ghost use Rattle.std.specs.Prelude.{All, IfOk, IfSome};
ghost use Rattle.circuits.specs.declared.port.PortKind.TheVariants.{Output};
ghost use Rattle.account_core.specs.Shown.{IsEmptyBan};
ghost use Rattle.account_core.specs.Ports.{ports_in};
ghost use Rattle.fact_bans.specs.Carrying.{IsPairOf};
ghost use Rattle.fact_bans.specs.Referred.{AreReferred};
ghost use Rattle.fact_bans.specs.Asking.{AreSame, MakesBy, MayAskBy, MayMakeBy, ServesBy, loans};
ghost use Rattle.ban_book.specs.Ways.{IsBlock, ways_in};

use crate::asker::Asker;
use crate::open_claims::decide_open;
use crate::tallies::tally;
use account_core::PairableGraphs;
use ban_book::BanBook;
use ban_book::block::{Block, marked, ways_in};
use ban_book::cover::keep_cover;
use broken_claims::{BrokenClaims, Classes};
use circuits::{Pair, PortKind};
use cnf_core::Stop;
use items::Items;
use oracle_core::Oracle;
use std::alloc::{AllocError, Global};

/// Counts, of each output of two circuits with as many ports, the inputs that it depends on and those that it is binate
/// in. Where the one circuit has more outputs with the same two counts than the other, makes a ban without pairs, and
/// answers its number. None where none was shown.
///
/// A match takes an output to one with the same two counts, and of these the other circuit has too few: one output
/// would have to go to one with other counts. Each of these ways has a tally, and one cover refers to them.
///
/// It is tried n times at most. A try fails only where a claim is decided otherwise than vectors let expect, which is
/// noted, so that the next one goes by other counts. Where the first one fails, claims that are open are decided.
///
/// # Errors
///
/// `Spent` where a line had to be learned and the ledger's budget was spent. `Memory` when out of memory.
pub fn refuse<O: Oracle>(
    graphs: &PairableGraphs<'_>,
    asker: &mut Asker<'_, O>,
    tries: u32,
    book: &mut BanBook,
) -> Result<Option<u64>, Stop>
    requires may { MayMakeBy graphs.now (loans O.known asker.old) book.old }
    ensures same { AreSame (loans O.known asker.old) (loans O.known asker.new) }
    ensures makes { MakesBy graphs.now (loans O.known asker.old) (loans O.known asker.new) book.old book.new result }
    ensures empty { IfOk result (λ found. IfSome found (IsEmptyBan book.new)) }
{
    for tried in 0..tries {
        let Some(classes) = next_classes(graphs, asker, tried)? else {
            return Ok(None);
        };
        if let Some(number) = refuse_by(graphs, asker, &classes, book)? {
            return Ok(Some(number));
        }
    }
    Ok(None)
}

// The classes of outputs that are tried next, where this often none was refused. None where there are none.
fn next_classes<O: Oracle>(
    graphs: &PairableGraphs<'_>,
    asker: &mut Asker<'_, O>,
    tried: u32,
) -> Result<Option<Classes>, Stop>
    requires may { MayAskBy graphs.now (loans O.known asker.old) }
    ensures same { AreSame (loans O.known asker.old) (loans O.known asker.new) }
    ensures serves { ServesBy (loans O.known asker.old) (loans O.known asker.new) result }
{
    // the facts of an oracle are of its circuits
    let _facts = asker.oracle.facts();
    if tried != 1 {
        return Ok(classes_of(asker.alloc, graphs, asker.broken)?);
    }
    decide_open(graphs, asker)?;
    Ok(classes_of(asker.alloc, graphs, asker.broken)?)
}

fn classes_of(
    alloc: Global,
    graphs: &PairableGraphs<'_>,
    broken: &BrokenClaims,
) -> Result<Option<Classes>, AllocError> {
    let outputs = graphs.ports(PortKind::Output);
    let inputs = graphs.ports(PortKind::Input);
    Classes::new(alloc, outputs, inputs, broken)
}

// Makes the ban that classes of outputs are for.
fn refuse_by<O: Oracle>(
    graphs: &PairableGraphs<'_>,
    asker: &mut Asker<'_, O>,
    classes: &Classes,
    book: &mut BanBook,
) -> Result<Option<u64>, Stop>
    requires may { MayMakeBy graphs.now (loans O.known asker.old) book.old }
    ensures same { AreSame (loans O.known asker.old) (loans O.known asker.new) }
    ensures makes { MakesBy graphs.now (loans O.known asker.old) (loans O.known asker.new) book.old book.new result }
    ensures empty { IfOk result (λ found. IfSome found (IsEmptyBan book.new)) }
{
    let Some(block) = block_of(asker.alloc, graphs, classes)? else {
        return Ok(None);
    };
    refuse_block(graphs, asker, block, book)
}

// The block of outputs of these classes. None where they aren't more than a circuit has.
fn block_of(
    alloc: Global,
    graphs: &PairableGraphs<'_>,
    classes: &Classes,
) -> Result<Option<Block>, AllocError>
    ensures block { IfOk result
        (λ found. IfSome found (λ block. IsBlock (ports_in graphs.now.second block.kind) block)) }
    ensures outputs { IfOk result (λ found. IfSome found (λ block. All (IsPairOf graphs.now Output) (ways_in block))) }
{
    let kind = PortKind::Output;
    let outputs = graphs.ports(kind);
    let from = marked(alloc, &classes.from, outputs)?;
    let to = marked(alloc, &classes.to, outputs)?;
    if from.len() + to.len() <= outputs as usize {
        return Ok(None);
    }
    Ok(Some(Block { kind, from, to }))
}

// Makes the ban that a block of outputs is for.
fn refuse_block<O: Oracle>(
    graphs: &PairableGraphs<'_>,
    asker: &mut Asker<'_, O>,
    block: Block,
    book: &mut BanBook,
) -> Result<Option<u64>, Stop>
    requires may { MayMakeBy graphs.now (loans O.known asker.old) book.old }
    requires block { IsBlock (ports_in graphs.now.second block.kind) block }
    requires outputs { All (IsPairOf graphs.now Output) (ways_in block) }
    ensures same { AreSame (loans O.known asker.old) (loans O.known asker.new) }
    ensures makes { MakesBy graphs.now (loans O.known asker.old) (loans O.known asker.new) book.old book.new result }
    ensures empty { IfOk result (λ found. IfSome found (IsEmptyBan book.new)) }
{
    let Some(refs) = bans_in(graphs, asker, &block, book)? else {
        return Ok(None);
    };
    let number = keep_cover(asker.alloc, graphs, &[], block, refs, book)?;
    Ok(Some(number))
}

// The bans of all ways in a block of outputs. None where one of them has none.
fn bans_in<O: Oracle>(
    graphs: &PairableGraphs<'_>,
    asker: &mut Asker<'_, O>,
    block: &Block,
    book: &mut BanBook,
) -> Result<Option<Items<Option<u64>>>, Stop>
    requires may { MayMakeBy graphs.now (loans O.known asker.old) book.old }
    requires outputs { All (IsPairOf graphs.now Output) (ways_in block.now) }
    ensures same { AreSame (loans O.known asker.old) (loans O.known asker.new) }
    ensures makes { MakesBy graphs.now (loans O.known asker.old) (loans O.known asker.new) book.old book.new result }
    ensures referred { IfOk result (λ found. IfSome found (AreReferred book.new (ways_in block.now))) }
{
    let ways = ways_in(asker.alloc, block)?;
    bans_of(graphs, asker, &ways, book)
}

// The bans of these ways to pair outputs. None where one of them has none.
fn bans_of<O: Oracle>(
    graphs: &PairableGraphs<'_>,
    asker: &mut Asker<'_, O>,
    ways: &[Pair],
    book: &mut BanBook,
) -> Result<Option<Items<Option<u64>>>, Stop>
    requires may { MayMakeBy graphs.now (loans O.known asker.old) book.old }
    requires outputs { All (IsPairOf graphs.now Output) ways.now }
    ensures same { AreSame (loans O.known asker.old) (loans O.known asker.new) }
    ensures makes { MakesBy graphs.now (loans O.known asker.old) (loans O.known asker.new) book.old book.new result }
    ensures referred { IfOk result (λ found. IfSome found (AreReferred book.new ways.now)) }
{
    let mut refs = Items::new(asker.alloc);
    for pair in ways.iter() {
        // made already, as by an earlier try
        if let Some(known) = book.covering(&[*pair]) {
            refs.push(Some(known))?;
            continue;
        }
        let Some(number) = tally(graphs, asker, *pair, book)? else {
            return Ok(None);
        };
        refs.push(Some(number))?;
    }
    Ok(Some(refs))
}
