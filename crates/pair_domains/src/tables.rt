//! Tables of what is known of each port.

ghost use Rattle.std.specs.Prelude.{◌≡◌, ◌+◌, ◌-◌, ◌*◌, ◌^◌, ◌<◌, length, slice_set, slice_index_or};
ghost use Rattle.net_core.specs.declared.graphs.Side.TheVariants.{First, Second};
ghost use Rattle.pair_domains.specs.Numbers.{at_ports, port_number, put_at_ports};
ghost use Rattle.pair_domains.specs.Trails.{IsPairOf};

use crate::numbers::port_number;
use circuits::Pair;
use net_core::Side;

/// Writes a value for both ports of a pair.
pub(crate) fn put_at_ports(
    assigned: &mut [Option<Pair>],
    inputs: u32,
    outputs: u32,
    pair: Pair,
    value: Option<Pair>,
)
    requires known { IsPairOf inputs outputs pair }
    requires size { length assigned.old ≡ 2 * inputs + 2 * outputs }
    ensures { assigned.new ≡ put_at_ports value inputs outputs pair assigned.old }
{
    let (first, second) = port_numbers(inputs, outputs, pair);
    assigned[first] = value;
    assigned[second] = value;
}

/// Counts one more for both ports of a pair.
pub(crate) fn count_at_ports(gone: &mut [usize], inputs: u32, outputs: u32, pair: Pair)
    requires known { IsPairOf inputs outputs pair }
    requires size { length gone.old ≡ 2 * inputs + 2 * outputs }
    requires first { slice_index_or gone.old (port_number inputs outputs First pair.kind pair.from) 0 < 2 ^ 63 }
    requires second { slice_index_or gone.old (port_number inputs outputs Second pair.kind pair.to) 0 < 2 ^ 63 }
    ensures { gone.new ≡ at_ports 0 (λ count. count + 1) inputs outputs pair gone.old }
{
    let (first, second) = port_numbers(inputs, outputs, pair);
    count_one(gone, first);
    count_one(gone, second);
}

fn count_one(gone: &mut [usize], port: usize)
    requires there { port < length gone.old }
    requires few { slice_index_or gone.old port 0 < 2 ^ 63 }
    ensures { gone.new ≡ slice_set gone.old port (slice_index_or gone.old port 0 + 1) }
{
    gone[port] += 1;
}

/// Counts one less for both ports of a pair.
pub(crate) fn uncount_at_ports(gone: &mut [usize], inputs: u32, outputs: u32, pair: Pair)
    requires known { IsPairOf inputs outputs pair }
    requires size { length gone.old ≡ 2 * inputs + 2 * outputs }
    ensures { gone.new ≡ at_ports 0 (λ count. count - 1) inputs outputs pair gone.old }
{
    let (first, second) = port_numbers(inputs, outputs, pair);
    uncount_one(gone, first);
    uncount_one(gone, second);
}

fn uncount_one(gone: &mut [usize], port: usize)
    requires { port < length gone.old }
    ensures { gone.new ≡ slice_set gone.old port (slice_index_or gone.old port 0 - 1) }
{
    gone[port] = gone[port].saturating_sub(1);
}

// The numbers of a pair's ports.
fn port_numbers(inputs: u32, outputs: u32, pair: Pair) -> (usize, usize)
    requires known { IsPairOf inputs outputs pair }
    ensures first { result.0 ≡ port_number inputs outputs First pair.kind pair.from }
    ensures first_within { result.0 < 2 * inputs + 2 * outputs }
    ensures second { result.1 ≡ port_number inputs outputs Second pair.kind pair.to }
    ensures second_within { result.1 < 2 * inputs + 2 * outputs }
{
    (
        port_number(inputs, outputs, Side::First, pair.kind, pair.from),
        port_number(inputs, outputs, Side::Second, pair.kind, pair.to),
    )
}
