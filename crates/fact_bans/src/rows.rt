//! What decided claims say of an output at each input.

ghost use Rattle.std.specs.Prelude.{◌≡◌, ◌<◌, IfOk, length, map};
ghost use Rattle.net_core.specs.Sides.{graph_of};
ghost use Rattle.account_core.specs.Given.{decided_by};
ghost use Rattle.oracle_core.specs.Oracles.{Suits};
ghost use Rattle.ban_book.specs.Rows.{IsRow, AreClaimsOf};
ghost use Rattle.fact_bans.specs.Asking.{AreSame, MayAskBy, ServesBy, loans};

use crate::asker::Asker;
use crate::deciding::decide;
use account_core::PairableGraphs;
use ban_book::InputClaims;
use claim_core::{Claim, Shape};
use cnf_core::Stop;
use items::Items;
use net_core::Side;
use oracle_core::Oracle;

/// Has both claims of each input of an output decided: that it never falls where the input goes up, and that it never
/// falls where the input goes down. Answers the decided claims, in the order of the inputs. A claim whose number is
/// noted is not asked again.
///
/// # Errors
///
/// `Spent` where a line had to be learned and the ledger's budget was spent. `Memory` when out of memory.
pub fn claims_of<O: Oracle>(
    graphs: &PairableGraphs<'_>,
    asker: &mut Asker<'_, O>,
    side: Side,
    output: u32,
) -> Result<Items<InputClaims>, Stop>
    requires may { MayAskBy graphs.now (loans O.known asker.old) }
    requires output { output < length (graph_of graphs.now side).outputs }
    ensures same { AreSame (loans O.known asker.old) (loans O.known asker.new) }
    ensures serves { ServesBy (loans O.known asker.old) (loans O.known asker.new) result }
    ensures row { IfOk result (IsRow (map decided_by (O.known asker.new.oracle.now).facts) side output) }
    ensures whole { IfOk result (λ row. length row ≡ (graph_of graphs.now side).inputs) }
{
    // the facts of an oracle are of its circuits
    let _facts = asker.oracle.facts();
    let inputs = graphs.side(side).inputs();
    let mut row = Items::new(asker.alloc);
    for input in 0..inputs {
        let claims = decide_both(asker, side, output, input)?;
        row.push(claims)?;
    }
    Ok(row)
}

// Has both claims of an input decided.
fn decide_both<O: Oracle>(
    asker: &mut Asker<'_, O>,
    side: Side,
    output: u32,
    input: u32,
) -> Result<InputClaims, Stop>
    requires output { output < length (graph_of (O.known asker.old.oracle.now).graphs side).outputs }
    requires input { input < (graph_of (O.known asker.old.oracle.now).graphs side).inputs }
    requires suits { Suits (O.known asker.old.oracle.now) asker.old.ledger.now }
    ensures same { AreSame (loans O.known asker.old) (loans O.known asker.new) }
    ensures serves { ServesBy (loans O.known asker.old) (loans O.known asker.new) result }
    ensures decided { IfOk result
        (AreClaimsOf (map decided_by (O.known asker.new.oracle.now).facts) side output input) }
{
    let goes_up = Claim {
        side,
        output,
        shape: Shape::Up(input),
    };
    let goes_down = Claim {
        side,
        output,
        shape: Shape::Down(input),
    };
    let up = decide(asker, goes_up)?;
    let down = decide(asker, goes_down)?;
    Ok(InputClaims { up, down })
}
