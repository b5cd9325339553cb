//! Facts of an output's inputs, one after the other.

ghost use Rattle.std.specs.Prelude.{◌≡◌, ◌+◌, ◌<◌, IfOk, IfSome, IsTrue, length, true};
ghost use Rattle.net_core.specs.Sides.{graph_of};
ghost use Rattle.claim_core.specs.Images.{one_input};
ghost use Rattle.account_core.specs.Facts.{AreFacts};
ghost use Rattle.oracle_core.specs.Oracles.{Suits};
ghost use Rattle.fact_bans.specs.Asking.{AreSame, ServesBy, loans};
ghost use Rattle.fact_bans.specs.Requests.{ListsRequested, MayList};

use crate::asker::Asker;
use crate::deciding::add_fact;
use ban_book::one_input;
use claim_core::Claim;
use cnf_core::Stop;
use items::Items;
use net_core::Side;
use oracle_core::Oracle;

/// An output of a circuit, and which facts of it are asked for: that claims hold, or that they fail; and of each input
/// that is asked about both claims, or one.
#[derive(Clone, Copy, Debug, Drop)]
pub(crate) struct FactRequest {
    pub(crate) side: Side,
    pub(crate) output: u32,
    pub(crate) holds: bool,
    pub(crate) both: bool,
}

/// The numbers of the facts of claims of one input each, in the order of the inputs: for each input with a value both
/// claims, that it goes up, and that it goes down, or the one of its value. None where one of them doesn't say what it
/// should.
pub(crate) fn facts_of<O: Oracle>(
    asker: &mut Asker<'_, O>,
    request: FactRequest,
    inputs: u32,
    values: &[Option<bool>],
) -> Result<Option<Items<u64>>, Stop>
    requires lawful { AreFacts (O.known asker.old.oracle.now).graphs (O.known asker.old.oracle.now).facts }
    requires output { request.output < length (graph_of (O.known asker.old.oracle.now).graphs request.side).outputs }
    requires inputs { inputs ≡ (graph_of (O.known asker.old.oracle.now).graphs request.side).inputs }
    requires suits { Suits (O.known asker.old.oracle.now) asker.old.ledger.now }
    ensures same { AreSame (loans O.known asker.old) (loans O.known asker.new) }
    ensures serves { ServesBy (loans O.known asker.old) (loans O.known asker.new) result }
    ensures lists { IfOk result (λ found. IfSome found (ListsRequested (O.known asker.new.oracle.now) request inputs)) }
{
    let mut numbers = Items::new(asker.alloc);
    for input in 0..inputs {
        let value = value_at(values, input);
        if !add_facts(asker, request, input, value, &mut numbers)? {
            return Ok(None);
        }
    }
    Ok(Some(numbers))
}

// The value of an input, if its claims are asked about.
fn value_at(values: &[Option<bool>], input: u32) -> Option<bool> {
    match values.get(input as usize) {
        Some(value) => *value,
        None => None,
    }
}

// Adds the facts of an input, if it has a value. Answers whether they say what they should.
fn add_facts<O: Oracle>(
    asker: &mut Asker<'_, O>,
    request: FactRequest,
    input: u32,
    value: Option<bool>,
    numbers: &mut Items<u64>,
) -> Result<bool, Stop>
    requires may { MayList (O.known asker.old.oracle.now) asker.old.ledger.now request input numbers.old }
    ensures same { AreSame (loans O.known asker.old) (loans O.known asker.new) }
    ensures serves { ServesBy (loans O.known asker.old) (loans O.known asker.new) result }
    ensures lists { IfOk result (λ added. IsTrue added
        → ListsRequested (O.known asker.new.oracle.now) request (input + 1) numbers.new) }
{
    let Some(value) = value else {
        return Ok(true);
    };
    if request.both {
        return add_both(asker, request, input, numbers);
    }
    let claim = claim_of(request, input, value);
    add_fact(asker, claim, request.holds, numbers)
}

// Adds the facts of both claims of an input.
fn add_both<O: Oracle>(
    asker: &mut Asker<'_, O>,
    request: FactRequest,
    input: u32,
    numbers: &mut Items<u64>,
) -> Result<bool, Stop>
    requires both { request.both ≡ true }
    requires may { MayList (O.known asker.old.oracle.now) asker.old.ledger.now request input numbers.old }
    ensures same { AreSame (loans O.known asker.old) (loans O.known asker.new) }
    ensures serves { ServesBy (loans O.known asker.old) (loans O.known asker.new) result }
    ensures lists { IfOk result (λ added. IsTrue added
        → ListsRequested (O.known asker.new.oracle.now) request (input + 1) numbers.new) }
{
    let up = claim_of(request, input, false);
    if !add_fact(asker, up, request.holds, numbers)? {
        return Ok(false);
    }
    let down = claim_of(request, input, true);
    add_fact(asker, down, request.holds, numbers)
}

// The claim of an input with a value at an output.
fn claim_of(request: FactRequest, input: u32, value: bool) -> Claim
    ensures { result ≡ record { side = request.side; output = request.output; shape = one_input input value } }
{
    Claim {
        side: request.side,
        output: request.output,
        shape: one_input(input, value),
    }
}
