//! A power of ten that is enough, for people.

ghost use Rattle.std.specs.Prelude.{◌*◌, ◌^◌, ◌<◌, ◌≤◌};
ghost use Rattle.oracle_core.specs.Enough.{enough, lines_enough};

use net_core::Graphs;

/// A power of ten that is at least [`enough`](crate::enough) for two circuits, as its exponent: the number itself has
/// mostly hundreds of digits. The exponent may be greater than it has to be, by up to one for each input and a few
/// more.
pub fn tens_enough(graphs: &Graphs<'_>) -> u64
    ensures { enough graphs.now ≤ 10 ^ result }
{
    let first = graphs.first();
    let gates = first.gates().len() + graphs.second().gates().len();
    tens_of_lines(
        u64::from(first.inputs()),
        first.outputs().len() as u64,
        gates as u64,
    )
}

// The exponent for circuits of so many inputs and outputs, with so many gates in all. The claims are no more than the
// queries of matchings, so that there are at most 8 m^2 (2 n)^n queries.
fn tens_of_lines(inputs: u64, outputs: u64, gates: u64) -> u64
    requires inputs { inputs < 2 ^ 32 }
    requires gates { gates < 2 ^ 32 }
    ensures { lines_enough inputs outputs gates ≤ 10 ^ result }
{
    let clauses = tens_of_threes(inputs + 2 * gates + 1);
    let feeds = inputs * tens_of(2 * inputs);
    clauses + feeds + 2 * tens_of(outputs) + 1
}

// A power of ten that is at least one of three: 3^153 is a little less than 10^73, and 3^2 is less than 10.
fn tens_of_threes(exponent: u64) -> u64
    requires { exponent < 2 ^ 40 }
    ensures least { 3 ^ exponent ≤ 10 ^ result }
    ensures few { result < 2 ^ 47 }
{
    exponent / 153 * 73 + (exponent % 153 + 1) / 2
}

// The least power of ten that is at least a number.
fn tens_of(number: u64) -> u64
    ensures least { number ≤ 10 ^ result }
    ensures few { result ≤ 20 }
{
    match number.saturating_sub(1).checked_ilog10() {
        Some(tens) => u64::from(tens) + 1,
        None => 0,
    }
}
