//! Numbers drawn from the generator.

ghost use Rattle.std.specs.Prelude.{◌≡◌, ◌<◌};
ghost use Rattle.gen_pair.specs.Drawing.{drawn, drawn_bit};

use rand_core::utils::NextWord;
use rand_pcg::Lcg64Xsh32;

/// The next 32-bit word, modulo `bound`.
pub(crate) fn draw(random: &mut Lcg64Xsh32, bound: u32) -> u32
    requires { 0 < bound }
    ensures below { result < bound }
    ensures drawn { (result, random.new) ≡ drawn bound random.old }
{
    let word: u32 = random.next_word();
    word % bound
}

/// A bit.
pub(crate) fn draw_bit(random: &mut Lcg64Xsh32) -> bool
    ensures { (result, random.new) ≡ drawn_bit random.old }
{
    draw(random, 2) == 1
}
