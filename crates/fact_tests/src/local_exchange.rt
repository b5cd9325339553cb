//! Exchanges of two inputs that the gates near them show.

ghost use Rattle.std.specs.Prelude.{◌≡◌, ◌<◌, [], None, IfOk, IfSome, IsTrue, bit_and, length};
ghost use Rattle.circuits.specs.Literals.{signal_of};
ghost use Rattle.claim_core.specs.Claims.{output_bit};
ghost use Rattle.net_core.specs.Values.{signed_word};
ghost use Rattle.fact_tests.specs.LocalExchanges.{IsLeaf, IsListed, IsListing, IsUnchanged, IsWent, IsWhole, Tells};
ghost use Rattle.fact_tests.specs.LocalExchanges.{first_listed, sides_of_bits};
ghost use Rattle.fact_tests.specs.Outputs.{IsAlike};

use crate::readers::Readers;
use items::Items;
use net_core::{Gate, Graph, Lit, SignalValue};
use std::alloc::{AllocError, Global};
use word_sim::alternating;

/// How many leaves a lane has bits for: 64 lanes are all ways of six.
const MOST_LEAVES: usize = 6;

/// How many signals that may differ are listed at most. Few gates lie between inputs that are side by side in the
/// circuit, and both operands of each gate are looked up in this list: with more signals that takes longer, mostly for
/// exchanges of which nothing is shown in the end, and with fewer more exchanges are asked.
const MOST_CHANGED: usize = 32;

/// How many gates are gone over for one exchange. Where that isn't enough nothing is shown, and the exchange is
/// asked. With fewer that is so of inputs whose readers stand farther apart in the netlist; this many take some
/// 65,000 steps at most, which is little beside a question, and more would be spent on inputs that are far from each
/// other.
const MOST_GATES: u32 = 1024;

/// A signal's bits where the two inputs have a pair of bits, and where they have the opposite one: a bit for each way
/// of the leaves.
#[derive(Clone, Copy, Drop)]
pub(crate) struct SideWords {
    pub one: u64,
    pub other: u64,
}

/// A signal that may differ.
#[derive(Clone, Copy, Drop)]
pub(crate) struct Changed {
    pub signal: u32,
    pub sides: SideWords,
}

/// What an exchange of two inputs changes near them.
#[derive(Drop)]
pub(crate) struct Near {
    /// Signals that don't differ, and from which those that may are computed.
    pub leaves: Items<u32>,
    pub changed: Items<Changed>,
}

/// How it went to go over a gate.
#[derive(Clone, Copy, Drop)]
pub(crate) enum Went {
    /// The gate's signal doesn't differ.
    Same,
    /// The gate's signal may differ, and is listed.
    Differs,
    /// There are too many leaves, or signals that may differ.
    TooFar,
}

impl SideWords {
    /// A bit on one side and a bit on the other, each the same for all ways of the leaves.
    fn of_bits(one: bool, other: bool) -> SideWords
        ensures { result ≡ sides_of_bits one other }
    {
        SideWords {
            one: 0u64.signed(one),
            other: 0u64.signed(other),
        }
    }

    /// The bits of a literal of the signal.
    fn signed(self, negated: bool) -> SideWords
        ensures one { result.one ≡ signed_word self.one negated }
        ensures other { result.other ≡ signed_word self.other negated }
    {
        SideWords {
            one: self.one.signed(negated),
            other: self.other.signed(negated),
        }
    }

    /// The bits of the AND of two signals.
    fn and(self, with: SideWords) -> SideWords
        ensures one { result.one ≡ bit_and self.one with.one }
        ensures other { result.other ≡ bit_and self.other with.other }
    {
        SideWords {
            one: self.one.and(with.one),
            other: self.other.and(with.other),
        }
    }
}

/// Whether the gates near two inputs show that an exchange of these leaves an output as it is: as they are, or each
/// inverted. They show it where the signals that may differ depend on few others, and the output isn't among them;
/// `false` says nothing.
pub(crate) fn shows_exchange(
    alloc: Global,
    readers: &Readers<'_>,
    output: u32,
    i: u32,
    j: u32,
    inverted: bool,
) -> Result<bool, AllocError>
    requires output { output < length readers.now.outputs }
    requires order { i < j }
    requires there { j < readers.now.inputs }
    ensures { IfOk result (λ shown. IsTrue shown
        → IsAlike readers.now.inputs (output_bit readers.now output) i j inverted) }
{
    let outputs = readers.graph().outputs();
    let literal = outputs[output as usize];
    let mut near = between(alloc, i, j, inverted)?;
    let whole = spread(readers, &mut near, i, j, inverted)?;
    if !whole {
        return Ok(false);
    }
    Ok(is_unlisted(&near.changed, literal.signal()))
}

/// The two inputs alone.
fn between(alloc: Global, i: u32, j: u32, inverted: bool) -> Result<Near, AllocError>
    requires order { i < j }
    requires there { j < 4_294_967_295 }
    ensures leaves { IfOk result (λ near. near.leaves ≡ []) }
    ensures changed { IfOk result (λ near. near.changed ≡ first_listed i j inverted) }
{
    let mut changed = Items::new(alloc);
    changed.push(Changed {
        signal: i + 1,
        sides: SideWords::of_bits(false, true),
    })?;
    changed.push(Changed {
        signal: j + 1,
        sides: SideWords::of_bits(!inverted, inverted),
    })?;
    Ok(Near {
        leaves: Items::new(alloc),
        changed,
    })
}

/// Goes over the gates that read signals that may differ. Answers whether all was gone over.
fn spread(
    readers: &Readers<'_>,
    near: &mut Near,
    i: u32,
    j: u32,
    inverted: bool,
) -> Result<bool, AllocError>
    requires order { i < j }
    requires there { j < readers.now.inputs }
    requires leaves { near.old.leaves ≡ [] }
    requires changed { near.old.changed ≡ first_listed i j inverted }
    ensures { IfOk result (λ whole. IsTrue whole → IsWhole readers.now i j inverted near.new) }
{
    let graph = readers.graph();
    let gates = graph.gates();
    let one = readers.span(i + 1);
    let other = readers.span(j + 1);
    let mut end = one.end.max(other.end);
    let start = one.start.min(other.start).min(end);
    for place in start..gates.len() as u32 {
        if place >= end {
            return Ok(true);
        }
        if place - start >= MOST_GATES {
            return Ok(false);
        }
        let signal = graph.inputs() + 1 + place;
        match go_over(gates[place as usize], signal, near)? {
            Went::Same => {}
            Went::Differs => end = end.max(readers.span(signal).end),
            Went::TooFar => return Ok(false),
        }
    }
    Ok(true)
}

/// Goes over a gate.
fn go_over(gate: Gate, signal: u32, near: &mut Near) -> Result<Went, AllocError>
    ensures { IfOk result (IsWent gate signal near.old near.new) }
{
    let first = changed_at(&near.changed, gate.a.signal());
    let second = changed_at(&near.changed, gate.b.signal());
    if are_none(first, second) {
        return Ok(Went::Same);
    }
    let Some(one) = sides_of(gate.a, first, near)? else {
        return Ok(Went::TooFar);
    };
    let Some(other) = sides_of(gate.b, second, near)? else {
        return Ok(Went::TooFar);
    };
    list(signal, one.and(other), near)
}

/// Whether nothing is listed of either operand.
fn are_none(first: Option<SideWords>, second: Option<SideWords>) -> bool
    ensures { IsTrue result → (first ≡ None) × (second ≡ None) }
{
    first.is_none() & second.is_none()
}

/// Lists a signal, unless it is the same on either side.
fn list(signal: u32, sides: SideWords, near: &mut Near) -> Result<Went, AllocError>
    ensures { IfOk result (IsListing signal sides near.old near.new) }
{
    if sides.one == sides.other {
        return Ok(Went::Same);
    }
    if near.changed.len() >= MOST_CHANGED {
        return Ok(Went::TooFar);
    }
    near.changed.push(Changed { signal, sides })?;
    Ok(Went::Differs)
}

/// The bits of a literal, of whose signal this is listed; where nothing is, the signal is a leaf. None where there is
/// no room for one more.
fn sides_of(
    lit: Lit,
    listed: Option<SideWords>,
    near: &mut Near,
) -> Result<Option<SideWords>, AllocError>
    requires { IsListed near.old.changed (signal_of lit) listed }
    ensures { IfOk result (λ found. IfSome found (Tells lit near.old near.new)) }
{
    match listed {
        Some(sides) => Ok(Some(sides.signed(lit.is_negated()))),
        None => leaf_sides(lit, near),
    }
}

/// The bits of a leaf's literal.
fn leaf_sides(lit: Lit, near: &mut Near) -> Result<Option<SideWords>, AllocError>
    requires { IsUnchanged near.old.changed (signal_of lit) }
    ensures { IfOk result (λ found. IfSome found (Tells lit near.old near.new)) }
{
    let Some(leaf) = leaf_of(lit.signal(), &mut near.leaves)? else {
        return Ok(None);
    };
    let word = alternating(leaf);
    let sides = SideWords {
        one: word,
        other: word,
    };
    Ok(Some(sides.signed(lit.is_negated())))
}

/// The number of a leaf, which is added where it isn't there. None where there is no room for it.
fn leaf_of(signal: u32, leaves: &mut Items<u32>) -> Result<Option<u32>, AllocError>
    ensures { IfOk result (λ found. IfSome found (IsLeaf leaves.old leaves.new signal)) }
{
    for number in 0..MOST_LEAVES {
        if number == leaves.len() {
            leaves.push(signal)?;
            return Ok(Some(number as u32));
        }
        if leaves[number] == signal {
            return Ok(Some(number as u32));
        }
    }
    Ok(None)
}

/// Whether nothing is listed of a signal.
fn is_unlisted(changed: &[Changed], signal: u32) -> bool
    ensures { IsTrue result → IsUnchanged changed.now signal }
{
    changed_at(changed, signal).is_none()
}

/// What is listed of a signal.
fn changed_at(changed: &[Changed], signal: u32) -> Option<SideWords>
    ensures { IsListed changed.now signal result }
{
    for entry in changed.iter() {
        if entry.signal == signal {
            return Some(entry.sides);
        }
    }
    None
}
