//! Whether two inputs may be exchanged.

ghost use Rattle.std.specs.Prelude.{◌≡◌, ◌<◌, ℕ, IfOk, length};
ghost use Rattle.std.specs.Bool.{Decides};
ghost use Rattle.oracle_core.specs.Oracles.{Serves};
ghost use Rattle.claim_core.specs.Claims.{IsPlaced};
ghost use Rattle.fact_tests.specs.Outputs.{IsAlike, IsOutput, MayAsk, arity, function, half_swap, may_be_alike};
ghost use Rattle.claim_core.specs.Rows.{IsEntry};

use crate::first_output::FirstOutput;
use crate::local_exchange::shows_exchange;
use claim_core::{Shape, Unate};
use cnf_core::Stop;
use oracle_core::Oracle;
use query_core::Ledger;

/// An exchange of two inputs of an output, the lesser one first, with how the output depends on them: as they are, or
/// each inverted.
#[derive(Clone, Copy, Drop)]
pub(crate) struct InputExchange {
    pub first: (u32, Unate),
    pub second: (u32, Unate),
    pub inverted: bool,
}

/// Whether the two inputs may be exchanged. That is so where two swaps hold, claims of both inputs. Neither is asked
/// where unateness tells the inputs apart, or where the gates near the inputs show the exchange. `start` says which
/// swap is asked first, by the value of the lesser input; where that swap holds, the other one is asked first from
/// then on: of a carry one holds for the inputs of lesser digits, and is expensive, and the other one for those of
/// greater digits.
pub(crate) fn are_alike<O: Oracle>(
    output: &FirstOutput<'_>,
    exchange: InputExchange,
    start: &mut bool,
    oracle: &mut O,
    ledger: &mut Ledger,
) -> Result<bool, Stop>
    requires may { MayAsk output.now.graphs.now (O.known oracle.old) ledger.old }
    requires output { IsOutput output.now }
    requires order { exchange.first.0 < exchange.second.0 }
    requires first { IsEntry (arity output.now) (function output.now) exchange.first }
    requires second { IsEntry (arity output.now) (function output.now) exchange.second }
    ensures serves { Serves (O.known oracle.old) (O.known oracle.new) ledger.old ledger.new result }
    ensures told { IfOk result
        (λ alike. Decides alike
        (IsAlike (arity output.now) (function output.now) exchange.first.0 exchange.second.0 exchange.inverted)) }
{
    if !may_be_alike(exchange.first.1, exchange.second.1, exchange.inverted) {
        return Ok(false);
    }
    if shows_exchange(
        output.alloc,
        output.readers,
        output.number,
        exchange.first.0,
        exchange.second.0,
        exchange.inverted,
    )? {
        return Ok(true);
    }
    let from = *start;
    let one = half_swap(exchange.first.0, exchange.second.0, exchange.inverted, from);
    let holds = output.holds(one, oracle, ledger)?;
    if !holds {
        return Ok(false);
    }
    *start = !from;
    let other = half_swap(
        exchange.first.0,
        exchange.second.0,
        exchange.inverted,
        !from,
    );
    output.holds(other, oracle, ledger)
}

/// Whether inputs in which a function is unate in these ways may be exchanged: as they are, or each inverted.
fn may_be_alike(first: Unate, second: Unate, inverted: bool) -> bool
    ensures { result ≡ may_be_alike first second inverted }
{
    match (first, second) {
        (Unate::Binate, Unate::Binate) => true,
        (Unate::Binate, _) | (_, Unate::Binate) => false,
        (Unate::Positive, Unate::Positive) | (Unate::Negative, Unate::Negative) => !inverted,
        (Unate::Positive, Unate::Negative) | (Unate::Negative, Unate::Positive) => inverted,
    }
}

/// One of the two swaps that show that inputs may be exchanged: that in which the lesser input has this value at first.
fn half_swap(i: u32, j: u32, inverted: bool, a: bool) -> Shape
    ensures shape { result ≡ half_swap i j inverted a }
    ensures placed { (n : ℕ) → i < j → j < n → IsPlaced n result }
{
    let b = if a { inverted } else { !inverted };
    Shape::Swap { i, j, a, b }
}
