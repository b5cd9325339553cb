//! The ways of a port, numbered.

ghost use Rattle.std.specs.Prelude.{◌≡◌, ◌^◌, ◌<◌};
ghost use Rattle.ban_book.specs.Ways.{nth_way};

use circuits::{Pair, PortKind};
use net_core::Side;

/// Way number `number` of a port: with port 0 of the other circuit, plain and then inverted, with port 1, and so on.
pub fn nth_way(side: Side, kind: PortKind, port: u32, number: u64) -> Pair
    requires { number < 2 ^ 33 }
    ensures { result ≡ nth_way side kind port number }
{
    let other = (number / 2) as u32;
    let (from, to) = match side {
        Side::First => (port, other),
        Side::Second => (other, port),
    };
    Pair {
        kind,
        from,
        to,
        flip: number % 2 == 1,
    }
}
