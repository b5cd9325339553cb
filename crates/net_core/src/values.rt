ghost use Rattle.std.specs.Prelude.{◌≡◌, ◌-◌, ◌^◌, if◌then◌else◌};
ghost use Rattle.net_core.specs.Values.{Operations};

use std::simd::prelude::*;

/// A value that a signal may have: a bit, bits for many vectors, or one that stands for a bit.
pub trait SignalValue: Copy {
    /// What the two methods give.
    ghost operations: { Operations Self };

    /// The value, inverted where the flag says so.
    fn signed(self, flip: bool) -> Self
        ensures { result ≡ operations.signed self flip };

    /// The AND of two values.
    fn and(self, other: Self) -> Self
        ensures { result ≡ operations.and self other };
}

impl SignalValue for bool {
    ghost use Rattle.net_core.specs.Values.{bits};

    ghost operations = { bits };

    #[inline(always)]
    fn signed(self, flip: bool) -> bool {
        self != flip
    }

    #[inline(always)]
    fn and(self, other: bool) -> bool {
        self & other
    }
}

impl SignalValue for u64 {
    ghost use Rattle.net_core.specs.Values.{words};

    ghost operations = { words };

    #[inline(always)]
    fn signed(self, flip: bool) -> u64 {
        self ^ mask(flip)
    }

    #[inline(always)]
    fn and(self, other: u64) -> u64 {
        self & other
    }
}

impl SignalValue for u64x4 {
    ghost use Rattle.net_core.specs.Values.{blocks};

    ghost operations = { blocks 4 };

    #[inline(always)]
    fn signed(self, flip: bool) -> u64x4 {
        self ^ u64x4::splat(mask(flip))
    }

    #[inline(always)]
    fn and(self, other: u64x4) -> u64x4 {
        self & other
    }
}

impl SignalValue for u64x8 {
    ghost use Rattle.net_core.specs.Values.{blocks};

    ghost operations = { blocks 8 };

    #[inline(always)]
    fn signed(self, flip: bool) -> u64x8 {
        self ^ u64x8::splat(mask(flip))
    }

    #[inline(always)]
    fn and(self, other: u64x8) -> u64x8 {
        self & other
    }
}

/// All ones where the flag is set: an exclusive or with it inverts the bits, with no branch that depends on the flag.
#[inline(always)]
fn mask(flip: bool) -> u64
    ensures { result ≡ (if flip then 2 ^ 64 - 1 else 0) }
{
    if flip { u64::MAX } else { 0 }
}
