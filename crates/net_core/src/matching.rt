ghost use Rattle.std.specs.Prelude.{◌↔◌, IsTrue};
ghost use Rattle.circuits.specs.Bijections.{IsSignedBijection};

use circuits::plain::is_signed_bijection;
use items::Items;

/// Where each port of a first circuit goes: entry i of a list says to which port of the second circuit, by
/// its position from 0, the first circuit's port i goes, and whether it is inverted there.
#[derive(Debug, Drop, PartialEq, Eq)]
pub struct Matching {
    pub inputs: Items<(u32, bool)>,
    pub outputs: Items<(u32, bool)>,
}

impl Matching {
    /// Whether the lists are signed bijections of n inputs and m outputs: they have these lengths, and
    /// their places are in range and distinct.
    pub fn check_shape(&self, n: u32, m: u32) -> bool
        ensures { IsTrue result
            ↔ (IsSignedBijection n self.now.inputs × IsSignedBijection m self.now.outputs) }
    {
        is_signed_bijection(&self.inputs, n) && is_signed_bijection(&self.outputs, m)
    }
}
