//! How many learned lines are enough, as a number.

ghost use Rattle.std.specs.Prelude.{ℕ, ◌+◌, ◌*◌, ◌^◌, ◌<◌, SomeIff};
ghost use Rattle.oracle_core.specs.Enough.{claims_of, enough, lines_enough, matches_of};

use account_core::have_as_many;
use net_core::Graphs;

/// How many learned lines are enough for all that can be asked of two circuits: a budget of so many is never spent. It
/// is None where that doesn't fit 64 bits: then no budget is known to be enough.
///
/// Of circuits of `n` inputs and `m` outputs, which have `g` gates in all, it is
/// `3^(n + 2 g + 1) * (4 m n^2 + 4 m^2 (2 n)^n)`; of circuits that haven't as many ports it is 0, since nothing is
/// asked of them.
pub fn enough(graphs: &Graphs<'_>) -> Option<u64>
    ensures { SomeIff result (enough graphs.now < 2 ^ 64) (enough graphs.now) }
{
    if !have_as_many(graphs) {
        return Some(0);
    }
    let first = graphs.first();
    let gates = first.gates().len() + graphs.second().gates().len();
    lines_enough(first.inputs(), first.outputs().len() as u64, gates as u64)
}

// How many lines are enough for circuits of so many inputs and outputs, with so many gates in all.
fn lines_enough(inputs: u32, outputs: u64, gates: u64) -> Option<u64>
    requires outputs { outputs < 2 ^ 32 }
    requires gates { gates < 2 ^ 32 }
    ensures { SomeIff result (lines_enough inputs outputs gates < 2 ^ 64) (lines_enough inputs outputs gates) }
{
    if outputs == 0 {
        return Some(0);
    }
    let clauses = clauses(inputs, gates)?;
    let queries = queries(inputs, outputs)?;
    clauses.checked_mul(queries)
}

// How many clauses there are over the variables of a query.
fn clauses(inputs: u32, gates: u64) -> Option<u64>
    requires { gates < 2 ^ 32 }
    ensures { SomeIff result (3 ^ (inputs + 2 * gates + 1) < 2 ^ 64) (3 ^ (inputs + 2 * gates + 1)) }
{
    let variables = u64::from(inputs) + 2 * gates + 1;
    if variables > 40 {
        return None;
    }
    3u64.checked_pow(variables as u32)
}

// How many queries there are, of claims and of matchings.
fn queries(inputs: u32, outputs: u64) -> Option<u64>
    requires some { 0 < outputs }
    requires few { outputs < 2 ^ 32 }
    ensures { SomeIff result (claims_of inputs outputs + matches_of inputs outputs < 2 ^ 64)
        (claims_of inputs outputs + matches_of inputs outputs) }
{
    let claims = claims(u64::from(inputs), outputs)?;
    let matches = matches(inputs, outputs)?;
    claims.checked_add(matches)
}

// How many claims there are.
fn claims(inputs: u64, outputs: u64) -> Option<u64>
    requires inputs { inputs < 2 ^ 32 }
    requires outputs { outputs < 2 ^ 32 }
    ensures { SomeIff result (claims_of inputs outputs < 2 ^ 64) (claims_of inputs outputs) }
{
    (4 * outputs).checked_mul(inputs * inputs)
}

// How many queries of matchings there are.
fn matches(inputs: u32, outputs: u64) -> Option<u64>
    requires some { 0 < outputs }
    requires few { outputs < 2 ^ 32 }
    ensures { SomeIff result (matches_of inputs outputs < 2 ^ 64) (matches_of inputs outputs) }
{
    let pairs = (4 * outputs).checked_mul(outputs)?;
    let feeds = (2 * u64::from(inputs)).checked_pow(inputs)?;
    pairs.checked_mul(feeds)
}
