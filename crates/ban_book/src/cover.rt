//! Bans by covers: no way between the ports of a block is left.

ghost use Rattle.std.specs.Prelude.{◌≡◌, ◌⊎◌, ◌∷◌, All, AllPairs, Contains, IfOk, OnOk, List};
ghost use Rattle.circuits.specs.declared.port.PortKind.TheVariants.{Input as InputKind};
ghost use Rattle.account_core.specs.declared.step.Ban.{Ban as AnyBan};
ghost use Rattle.account_core.specs.Ports.{AreOrdered, IsKnown, ports_in};
ghost use Rattle.account_core.specs.Given.{Decided as AnyFact, given_of};
ghost use Rattle.account_core.specs.Steps.{IsValidBan};
ghost use Rattle.ban_book.specs.Covering.{Covers};
ghost use Rattle.ban_book.specs.Vectors.{IsVector};
ghost use Rattle.account_core.specs.Assigned.{AddsAssigned, AreApart, IsPart};
ghost use Rattle.ban_book.specs.Ways.{ways_in, AreClosed, AddsBans, IsBlock};

use crate::BanBook;
use crate::block::Block;
use crate::needed::add;
use account_core::{Ban, PairableGraphs, Step};
use circuits::{Pair, PortKind};
use items::{Few, Items};
use std::alloc::{AllocError, Global};

/// Makes the ban of pairs, in order, beside which each way of a block is impossible or excluded by an earlier ban, and
/// answers its number.
#[tactic(auto, using(crate::proofs::KeepLemmas::adds_no_bans))]
pub fn keep_cover(
    alloc: Global,
    graphs: &PairableGraphs<'_>,
    pairs: &[Pair],
    block: Block,
    refs: Items<Option<u64>>,
    book: &mut BanBook,
) -> Result<u64, AllocError>
    requires known { All (IsKnown graphs.now) pairs.now }
    requires ordered { AreOrdered pairs.now }
    requires block { IsBlock (ports_in graphs.now.second block.kind) block }
    requires closed { AreClosed book.old pairs.now (ways_in block) refs }
    ensures more { AddsBans graphs.now book.old book.new }
    ensures covers { IfOk result (Covers book.new pairs.now) }
{
    let ban = cover_of(alloc, graphs, pairs, block, refs)?;
    let number = book.hold(ban)?;
    Ok(number)
}

// The ban of these pairs by the block's cover.
fn cover_of(
    alloc: Global,
    graphs: &PairableGraphs<'_>,
    pairs: &[Pair],
    block: Block,
    refs: Items<Option<u64>>,
) -> Result<Ban, AllocError>
    requires known { All (IsKnown graphs.now) pairs.now }
    requires ordered { AreOrdered pairs.now }
    requires block { IsBlock (ports_in graphs.now.second block.kind) block }
    ensures valid { IfOk result (λ ban. (facts : List AnyFact) (bans : List AnyBan)
        → AreClosed bans pairs.now (ways_in block) refs
        → IsValidBan graphs.now (given_of facts bans) ban) }
    ensures step { IfOk result (λ ban. IsVector ban.step → ⊥) }
    ensures pairs { IfOk result (λ ban. ban.pairs ≡ pairs.now) }
{
    // both circuits have as many ports
    let _count = graphs.ports(block.kind);
    let pairs = Few::from_slice(alloc, pairs)?;
    let Block { kind, from, to } = block;
    Ok(Ban {
        pairs,
        step: Step::Cover {
            kind,
            from,
            to,
            refs,
        },
    })
}

/// Adds the pairs of a ban to the needed ones, but for the way itself.
pub fn add_others(
    needed: &mut Vec<Pair>,
    assigned: &[Pair],
    way: Pair,
    pairs: &[Pair],
) -> Result<(), AllocError>
    requires part { IsPart assigned.now needed.old.items }
    requires apart { AllPairs AreApart assigned.now }
    requires among { All (Contains (way ∷ assigned.now)) pairs.now }
    ensures adds { OnOk result (AddsAssigned assigned.now needed.old.items needed.new.items) }
    ensures among { OnOk result (All (Contains (way ∷ needed.new.items)) pairs.now) }
{
    for pair in pairs.iter() {
        add_unless(needed, assigned, way, *pair)?;
    }
    Ok(())
}

// Adds an assigned pair, unless it is the way itself.
fn add_unless(
    needed: &mut Vec<Pair>,
    assigned: &[Pair],
    way: Pair,
    pair: Pair,
) -> Result<(), AllocError>
    requires part { IsPart assigned.now needed.old.items }
    requires apart { AllPairs AreApart assigned.now }
    requires assigned { Contains (way ∷ assigned.now) pair }
    ensures adds { OnOk result (AddsAssigned assigned.now needed.old.items needed.new.items) }
    ensures added { OnOk result (Contains (way ∷ needed.new.items) pair) }
{
    if pair == way {
        return Ok(());
    }
    add_assigned(needed, assigned, pair)?;
    Ok(())
}

/// Adds an assigned pair to the needed ones, in order.
pub fn add_assigned(needed: &mut Vec<Pair>, assigned: &[Pair], pair: Pair) -> Result<(), AllocError>
    requires part { IsPart assigned.now needed.old.items }
    requires apart { AllPairs AreApart assigned.now }
    requires assigned { Contains assigned.now pair }
    ensures adds { OnOk result (AddsAssigned assigned.now needed.old.items needed.new.items) }
    ensures added { OnOk result (Contains needed.new.items pair) }
    ensures only { OnOk result (All (λ other. Contains needed.old.items other ⊎ (other ≡ pair)) needed.new.items) }
{
    // contracts alone read the assigned pairs
    let _ = assigned;
    add(needed, pair)?;
    Ok(())
}

/// Adds an assigned pair to those of inputs, in order, if it is one.
pub fn add_input(inputs: &mut Vec<Pair>, assigned: &[Pair], pair: Pair) -> Result<(), AllocError>
    requires part { IsPart assigned.now inputs.old.items }
    requires inputs { All (λ other. other.kind ≡ InputKind) inputs.old.items }
    requires apart { AllPairs AreApart assigned.now }
    requires assigned { Contains assigned.now pair }
    ensures adds { OnOk result (AddsAssigned assigned.now inputs.old.items inputs.new.items) }
    ensures inputs { OnOk result (All (λ other. other.kind ≡ InputKind) inputs.new.items) }
    ensures added { OnOk result (pair.kind ≡ InputKind → Contains inputs.new.items pair) }
{
    if pair.kind != PortKind::Input {
        return Ok(());
    }
    add_assigned(inputs, assigned, pair)?;
    Ok(())
}
