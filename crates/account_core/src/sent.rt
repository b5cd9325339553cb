//! Values of the first circuit's inputs, 0, 1 or X, sent to those of the second by pairs of inputs.

ghost use Rattle.std.specs.Prelude.{◌≡◌, ◌≢◌, ◌<◌, ℕ, IfOk, length, replicate};
ghost use Rattle.circuits.specs.declared.port.PortKind.TheVariants.{Input};
ghost use Rattle.word_sim.specs.declared.tri.Tri.TheVariants.{X};
ghost use Rattle.account_core.specs.Vectors.{signed, value_at, values_sent};

use circuits::{Pair, PortKind};
use net_core::SignalValue;
use std::alloc::{AllocError, Global};
use word_sim::Tri;

/// What the inputs of the second circuit get: an input's value where it is paired, by the pair's sign, and X elsewhere.
/// Of two pairs that go to one input the earlier one counts.
pub fn values_sent(
    alloc: Global,
    pairs: &[Pair],
    inputs: u32,
    values: &[Tri],
) -> Result<Vec<Tri>, AllocError>
    ensures { IfOk result (λ sent. sent.items ≡ values_sent pairs.now inputs values.now) }
{
    let mut sent = vec![in alloc; Tri::X; inputs as usize]?;
    send_all(pairs, values, &mut sent);
    Ok(sent)
}

// The earlier pairs come last, and count.
fn send_all(pairs: &[Pair], values: &[Tri], sent: &mut [Tri])
    requires unknown { sent.old ≡ replicate (length sent.old) X }
    ensures { sent.new ≡ values_sent pairs.now (length sent.old) values.now }
{
    let mut left = pairs.len();
    while left > 0 {
        left -= 1;
        send(pairs[left], values, sent);
    }
}

// Where a pair is of inputs, the second one gets the value of the first, by the sign.
fn send(pair: Pair, values: &[Tri], sent: &mut [Tri])
    ensures length { length sent.new ≡ length sent.old }
    ensures sent { pair.kind ≡ Input
        → pair.to < length sent.old
        → value_at sent.new pair.to ≡ signed pair.flip (value_at values.now pair.from) }
    ensures others { (place : ℕ)
        → (pair.kind ≡ Input → place ≢ pair.to)
        → value_at sent.new place ≡ value_at sent.old place }
{
    if (pair.kind == PortKind::Input) & ((pair.to as usize) < sent.len()) {
        sent[pair.to as usize] = value_of(values, pair.from).signed(pair.flip);
    }
}

// The value of an input, X where there is no such input.
fn value_of(values: &[Tri], input: u32) -> Tri
    ensures { result ≡ value_at values.now input }
{
    if input as usize >= values.len() {
        return Tri::X;
    }
    values[input as usize]
}
