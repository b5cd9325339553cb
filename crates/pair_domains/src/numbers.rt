//! The numbers of signed pairs and of ports in tables.

ghost use Rattle.std.specs.Prelude.{◌≡◌, ◌+◌, ◌*◌, ◌^◌, ◌<◌, IfNone, IfSome, true};
ghost use Rattle.pair_domains.specs.Numbers.{number_in, pair_number, pairs_of_ports, port_number, sign_number};
ghost use Rattle.pair_domains.specs.Trails.{IsPairOf, ports_of};

use circuits::{Pair, PortKind};
use net_core::Side;

/// How many signed pairs there are of this many ports, or None where those of a kind are 2^62 or more, so that all of
/// them are fewer than 2^63.
pub(crate) fn pairs_of_ports(inputs: u32, outputs: u32) -> Option<usize>
    ensures some { IfSome result (λ count. count ≡ pairs_of_ports inputs outputs) }
    ensures few { IfSome result (λ count. count < 2 ^ 63) }
{
    let square = inputs as u64 * inputs as u64;
    let other = outputs as u64 * outputs as u64;
    if square >= 1 << 61 {
        return None;
    }
    if other >= 1 << 61 {
        return None;
    }
    Some((2 * square + 2 * other) as usize)
}

/// The number of a pair.
pub(crate) fn pair_number(inputs: u32, outputs: u32, pair: Pair) -> usize
    requires few { pairs_of_ports inputs outputs < 2 ^ 63 }
    requires known { IsPairOf inputs outputs pair }
    ensures value { result ≡ pair_number inputs outputs pair }
    ensures within { result < pairs_of_ports inputs outputs }
{
    match pair.kind {
        PortKind::Input => number_in(inputs, pair),
        PortKind::Output => 2 * (inputs as usize * inputs as usize) + number_in(outputs, pair),
    }
}

// The number of a pair among those of its kind, of which either circuit has this many ports.
fn number_in(ports: u32, pair: Pair) -> usize
    requires few { 2 * (ports * ports) < 2 ^ 63 }
    requires from { pair.from < ports }
    requires to { pair.to < ports }
    ensures value { result ≡ number_in ports pair }
    ensures within { result < 2 * (ports * ports) }
{
    let row = pair.from as usize * ports as usize + pair.to as usize;
    2 * row + sign_number(pair.flip)
}

fn sign_number(flip: bool) -> usize
    ensures value { result ≡ sign_number flip }
    ensures within { result < 2 }
{
    if flip { 1 } else { 0 }
}

/// The number of a port.
pub(crate) fn port_number(inputs: u32, outputs: u32, side: Side, kind: PortKind, port: u32) -> usize
    requires { port < ports_of inputs outputs kind }
    ensures value { result ≡ port_number inputs outputs side kind port }
    ensures within { result < 2 * inputs + 2 * outputs }
{
    let (inputs, outputs, port) = (inputs as usize, outputs as usize, port as usize);
    match (side, kind) {
        (Side::First, PortKind::Input) => port,
        (Side::Second, PortKind::Input) => inputs + port,
        (Side::First, PortKind::Output) => 2 * inputs + port,
        (Side::Second, PortKind::Output) => 2 * inputs + outputs + port,
    }
}
