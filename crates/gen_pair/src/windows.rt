//! The first netlist of a pair: for each output a window of inputs, mixed by multiplexers, and the AND of a few of its
//! literals.

ghost use Rattle.std.specs.Prelude.{◌≡◌, [], ◌+◌, ◌*◌, ◌-◌, ◌<◌, ◌≤◌, ◌^◌, min, All, IfOk, OnOk, length, nat_lt};
ghost use Rattle.std.specs.Prelude.{if◌then◌else◌};
ghost use Rattle.circuits.specs.Literals.{signal_of};
ghost use Rattle.net_core.specs.Graph.{AreInOrder};
ghost use Rattle.gen_pair.specs.Growing.{IsThere, Grows};
ghost use Rattle.gen_pair.specs.Mixing.{with_and, with_multiplexer, mixing, mixed_once, mixed, joining, joined};
ghost use Rattle.gen_pair.specs.Mixing.{window_of, making, with_output, made};

use crate::drawing::{draw, draw_bit};
use net_core::{Gate, Lit};
use port_moves::signed;
use rand_pcg::Lcg64Xsh32;
use std::alloc::{AllocError, Global};

/// How many inputs there are.
pub(crate) const INPUTS: u32 = 64;

/// How many outputs there are.
pub(crate) const OUTPUTS: u32 = 32;

// How often a window is mixed for an output, so that each output reads most of its window.
const ROUNDS: u32 = 20;

/// The gates of all outputs, and the outputs.
#[derive(Drop)]
pub(crate) struct FirstNet {
    pub(crate) gates: Vec<Gate>,
    pub(crate) outputs: Vec<Lit>,
}

/// The gates and the outputs that the generator gives next.
pub(crate) fn make_parts(alloc: Global, random: &mut Lcg64Xsh32) -> Result<FirstNet, AllocError>
    ensures gates { IfOk result (λ parts. Grows 2000 [] parts.gates.items) }
    ensures outputs { IfOk result (λ parts. length parts.outputs.items ≡ 32) }
    ensures there { IfOk result (λ parts. All (IsThere parts.gates.items) parts.outputs.items) }
    ensures made { IfOk result (λ parts. making parts.gates.items parts.outputs.items random.new ≡ made 32 random.old) }
{
    let mut parts = FirstNet {
        gates: Vec::new(alloc),
        outputs: Vec::new(alloc),
    };
    for k in 0..OUTPUTS {
        add_output(random, k, &mut parts)?;
    }
    Ok(parts)
}

// Adds the gates of output k, and the output.
fn add_output(random: &mut Lcg64Xsh32, k: u32, parts: &mut FirstNet) -> Result<(), AllocError>
    requires few { k < 32 }
    requires room { length parts.old.gates.items + 63 ≤ 2 ^ 20 }
    requires order { AreInOrder 65 parts.old.gates.items }
    requires there { All (IsThere parts.old.gates.items) parts.old.outputs.items }
    ensures gates { OnOk result
        (Grows (62 + (if nat_lt k 16 then 1 else 0)) parts.old.gates.items parts.new.gates.items) }
    ensures outputs { OnOk result (length parts.new.outputs.items ≡ length parts.old.outputs.items + 1) }
    ensures there { OnOk result (All (IsThere parts.new.gates.items) parts.new.outputs.items) }
    ensures made { OnOk result (making parts.new.gates.items parts.new.outputs.items random.new
        ≡ with_output k (making parts.old.gates.items parts.old.outputs.items random.old)) }
{
    // A window has 6 to 12 inputs.
    let width = 6 + draw(random, 7) as usize;
    let mut literals = [Lit(0); 12];
    let window = &mut literals[..width];
    fill(k, window);
    mix(random, window, &mut parts.gates)?;
    // The first outputs read one literal more than the others, so that not all look alike.
    let last = if k < 16 { 3 } else { 2 };
    let output = join(random, window, last, &mut parts.gates)?;
    parts.outputs.push(signed(output, draw_bit(random)))?;
    Ok(())
}

// The window of output k: inputs side by side, round the end.
fn fill(k: u32, window: &mut [Lit])
    requires few { k < 32 }
    requires width { length window.old ≤ 12 }
    ensures inputs { All (λ literal. signal_of literal < 65) window.new }
    ensures made { window.new ≡ window_of k (length window.old) }
    ensures width { length window.new ≡ length window.old }
{
    for t in 0..window.len() {
        let input = (2 * k + t as u32) % INPUTS;
        window[t] = Lit(2 * (input + 1));
    }
}

// Mixes a window: places in it become multiplexers of others.
fn mix(random: &mut Lcg64Xsh32, window: &mut [Lit], gates: &mut Vec<Gate>) -> Result<(), AllocError>
    requires least { 6 ≤ length window.old }
    requires most { length window.old ≤ 12 }
    requires room { length gates.old.items + 60 ≤ 2 ^ 20 }
    requires order { AreInOrder 65 gates.old.items }
    requires there { All (IsThere gates.old.items) window.old }
    ensures gates { OnOk result (Grows 60 gates.old.items gates.new.items) }
    ensures there { OnOk result (All (IsThere gates.new.items) window.new) }
    ensures made { OnOk result (mixing window.new gates.new.items random.new
        ≡ mixed 20 (mixing window.old gates.old.items random.old)) }
    ensures width { length window.new ≡ length window.old }
{
    for _ in 0..ROUNDS {
        mix_once(random, window, gates)?;
    }
    Ok(())
}

// One place of a window becomes a multiplexer of itself and two others.
fn mix_once(
    random: &mut Lcg64Xsh32,
    window: &mut [Lit],
    gates: &mut Vec<Gate>,
) -> Result<(), AllocError>
    requires least { 6 ≤ length window.old }
    requires most { length window.old ≤ 12 }
    requires room { length gates.old.items + 3 ≤ 2 ^ 20 }
    requires order { AreInOrder 65 gates.old.items }
    requires there { All (IsThere gates.old.items) window.old }
    ensures gates { OnOk result (Grows 3 gates.old.items gates.new.items) }
    ensures there { OnOk result (All (IsThere gates.new.items) window.new) }
    ensures made { OnOk result (mixing window.new gates.new.items random.new
        ≡ mixed_once (mixing window.old gates.old.items random.old)) }
    ensures width { length window.new ≡ length window.old }
{
    let width = window.len() as u32;
    let place = draw(random, width);
    let select = (place + 1 + draw(random, width - 1)) % width;
    let other = (select + 1 + draw(random, width - 1)) % width;
    let high = signed(window[other as usize], draw_bit(random));
    let mixed = multiplexer(window[select as usize], window[place as usize], high, gates)?;
    window[place as usize] = mixed;
    Ok(())
}

// A literal that is `low` where `select` is true, and `high` where it is false.
fn multiplexer(select: Lit, low: Lit, high: Lit, gates: &mut Vec<Gate>) -> Result<Lit, AllocError>
    requires room { length gates.old.items + 3 ≤ 2 ^ 20 }
    requires order { AreInOrder 65 gates.old.items }
    requires select { IsThere gates.old.items select }
    requires low { IsThere gates.old.items low }
    requires high { IsThere gates.old.items high }
    ensures gates { OnOk result (Grows 3 gates.old.items gates.new.items) }
    ensures there { IfOk result (IsThere gates.new.items) }
    ensures made { IfOk result (λ literal. (gates.new.items, literal)
        ≡ with_multiplexer select low high gates.old.items) }
{
    let chosen = and(select, low, gates)?;
    let rest = and(select.inverse(), high, gates)?;
    let neither = and(chosen.inverse(), rest.inverse(), gates)?;
    Ok(neither.inverse())
}

// The AND of the first literal of a window with the next ones up to `last`, each inverted or not.
fn join(
    random: &mut Lcg64Xsh32,
    window: &[Lit],
    last: usize,
    gates: &mut Vec<Gate>,
) -> Result<Lit, AllocError>
    requires within { last < length window.now }
    requires few { last ≤ 3 }
    requires room { length gates.old.items + 3 ≤ 2 ^ 20 }
    requires order { AreInOrder 65 gates.old.items }
    requires there { All (IsThere gates.old.items) window.now }
    ensures gates { OnOk result (Grows last gates.old.items gates.new.items) }
    ensures there { IfOk result (IsThere gates.new.items) }
    ensures made { IfOk result (λ literal. joining literal gates.new.items random.new
        ≡ joined window.now last gates.old.items random.old) }
{
    let mut joined = window[0];
    for t in 1..last + 1 {
        let literal = signed(window[t], draw_bit(random));
        joined = and(joined, literal, gates)?;
    }
    Ok(joined)
}

// Adds the AND of two literals, and gives its literal.
fn and(a: Lit, b: Lit, gates: &mut Vec<Gate>) -> Result<Lit, AllocError>
    requires room { length gates.old.items < 2 ^ 20 }
    requires order { AreInOrder 65 gates.old.items }
    requires first { IsThere gates.old.items a }
    requires second { IsThere gates.old.items b }
    ensures gates { OnOk result (Grows 1 gates.old.items gates.new.items) }
    ensures there { IfOk result (IsThere gates.new.items) }
    ensures made { IfOk result (λ literal. (gates.new.items, literal) ≡ with_and a b gates.old.items) }
{
    let signal = 1 + INPUTS + gates.len() as u32;
    gates.push(Gate { a, b })?;
    Ok(Lit(2 * signal))
}
