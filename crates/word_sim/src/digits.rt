//! Words of all vectors of a few inputs.

ghost use Rattle.std.specs.Prelude.{◌≡◌, ◌<◌, ◌/◌, ◌%◌, ◌^◌, ◌==◌, ℕ};
ghost use Rattle.word_sim.specs.Columns.{word_bit};

/// Bit v of word i is digit i of v in base two.
const ALTERNATING: [u64; 6] = [
    0xaaaa_aaaa_aaaa_aaaa,
    0xcccc_cccc_cccc_cccc,
    0xf0f0_f0f0_f0f0_f0f0,
    0xff00_ff00_ff00_ff00,
    0xffff_0000_ffff_0000,
    0xffff_ffff_0000_0000,
];

/// What one of six inputs has in a word of all their vectors: bit v is digit `input` of v in base two.
pub fn alternating(input: u32) -> u64
    requires { input < 6 }
    ensures { (v : ℕ) → v < 64 → word_bit v result ≡ (v / 2 ^ input % 2 == 1) }
{
    ALTERNATING[input as usize]
}
