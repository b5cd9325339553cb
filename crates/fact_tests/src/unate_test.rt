//! How an output depends on an input.

ghost use Rattle.std.specs.Prelude.{◌≡◌, ◌<◌, IfOk, length};
ghost use Rattle.oracle_core.specs.Oracles.{Serves};
ghost use Rattle.fact_tests.specs.Outputs.{IsDependence, IsOutput, MayAsk, arity, dependence, function};

use crate::first_output::FirstOutput;
use claim_core::{Shape, Unate};
use cnf_core::Stop;
use oracle_core::Oracle;
use query_core::Ledger;

/// How the output depends on an input: None where the input is outside the support, which is asked only where the
/// output reaches the input.
pub(crate) fn unateness<O: Oracle>(
    output: &FirstOutput<'_>,
    input: u32,
    oracle: &mut O,
    ledger: &mut Ledger,
) -> Result<Option<Unate>, Stop>
    requires may { MayAsk output.now.graphs.now (O.known oracle.old) ledger.old }
    requires output { IsOutput output.now }
    requires input { input < output.now.graphs.now.first.inputs }
    ensures serves { Serves (O.known oracle.old) (O.known oracle.new) ledger.old ledger.new result }
    ensures unate { IfOk result (IsDependence (arity output.now) (function output.now) input) }
{
    if !output.reaches(input) {
        return Ok(None);
    }
    let never_falls = output.holds(Shape::Up(input), oracle, ledger)?;
    let never_rises = output.holds(Shape::Down(input), oracle, ledger)?;
    Ok(by_claims(never_falls, never_rises))
}

/// The dependence on an input, by whether the output never falls, and whether it never rises, where the input rises.
fn by_claims(never_falls: bool, never_rises: bool) -> Option<Unate>
    ensures { result ≡ dependence never_falls never_rises }
{
    match (never_falls, never_rises) {
        (true, true) => None,
        (true, false) => Some(Unate::Positive),
        (false, true) => Some(Unate::Negative),
        (false, false) => Some(Unate::Binate),
    }
}
