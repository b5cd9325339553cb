ghost use Rattle.std.specs.Prelude.{◌≡◌, ◌+◌, ◌^◌, ◌<◌, length};
ghost use Rattle.circuits.specs.Circuits.{IsClosed, def_at};
ghost use Rattle.net_core.specs.PlainNets.{IsPlainNet};

use circuits::{Def, Lit};
use items::Items;
use std::marker::Model;

/// A netlist whose definitions may stand in any order. Signal 0 is false, input i is signal i + 1, and
/// definition d is signal inputs + 1 + d. Each signal that a definition or an output names is there, and
/// each row of a cover is as wide as its names. There are fewer than 2^32 outputs, and fewer than 2^30
/// signals: the ordered graph has the same inputs and at most 4,000,000 gates, so its literals have 32 bits.
#[derive(Debug, Drop)]
pub struct PlainNet {
    pub inputs: u32,
    pub defs: Items<Def>,
    pub outputs: Items<Lit>,
}

impl Model for PlainNet {
    ghost use Rattle.circuits.specs.Circuits.{Circuit};
    ghost use Rattle.net_core.specs.PlainNets.{IsPlainNet};

    ghost Value = { Circuit };

    ghost view = { λ net. record { inputs = net.inputs; defs = net.defs; outputs = net.outputs } };

    ghost invariant = { λ net. IsPlainNet (record { inputs = net.inputs; defs = net.defs; outputs = net.outputs }) };
}

impl PlainNet {
    /// The netlist with these parts, which name only signals that are there, and whose rows are as wide as
    /// their names.
    pub fn new(inputs: u32, defs: Items<Def>, outputs: Items<Lit>) -> PlainNet
        requires closed { IsClosed (record { inputs = inputs; defs = defs; outputs = outputs }) }
        requires signals { 1 + inputs + length defs < 2 ^ 30 }
        requires outputs { length outputs < 2 ^ 32 }
        ensures { result ≡ record { inputs = inputs; defs = defs; outputs = outputs } }
    {
        PlainNet {
            inputs,
            defs,
            outputs,
        }
    }

    /// How many inputs there are.
    pub fn inputs(&self) -> u32
        ensures value { result ≡ self.now.inputs }
        ensures net { IsPlainNet self.now }
    {
        self.inputs
    }

    /// The definitions, in the order in which they stand.
    pub fn defs(&self) -> &[Def]
        ensures value { result.now ≡ self.now.defs }
        ensures net { IsPlainNet self.now }
    {
        self.defs.as_slice()
    }

    /// The output literals, in order.
    pub fn outputs(&self) -> &[Lit]
        ensures value { result.now ≡ self.now.outputs }
        ensures net { IsPlainNet self.now }
    {
        self.outputs.as_slice()
    }

    /// The definition at a position.
    pub fn def_at(&self, position: usize) -> &Def
        requires { position < length self.now.defs }
        ensures value { result.now ≡ def_at self.now position }
        ensures net { IsPlainNet self.now }
    {
        &self.defs[position]
    }
}
