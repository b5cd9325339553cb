//! Bans of an output's pair and an input's, by a claim of one input that fails where its image holds.

ghost use Rattle.std.specs.Prelude.{◌∷◌, [], IfOk, IfSome, map};
ghost use Rattle.circuits.specs.declared.port.PortKind.TheVariants.{Input, Output};
ghost use Rattle.account_core.specs.Given.{decided_by};
ghost use Rattle.ban_book.specs.Covering.{Covers};
ghost use Rattle.oracle_core.specs.Oracles.{Suits};
ghost use Rattle.ban_book.specs.Mismatched.{IsBanBy, mismatch_of};
ghost use Rattle.fact_bans.specs.Carrying.{IsPairOf};
ghost use Rattle.fact_bans.specs.Asking.{AreSame, MakesBy, MayMakeBy, ServesBy, loans};

use crate::asker::Asker;
use crate::mismatched::{keep_carried, unlike_by};
use account_core::PairableGraphs;
use ban_book::{BanBook, Unlike, carry};
use broken_claims::BrokenClaims;
use circuits::Pair;
use claim_core::moved_value;
use cnf_core::Stop;
use net_core::Side;
use oracle_core::Oracle;

/// Makes a ban of the pairs of an input and an output where a claim of the one circuit fails that holds for the other
/// one, and answers its number; None where none was shown. Only claims are asked of which vectors break one and not the
/// other.
///
/// # Errors
///
/// `Spent` where a line had to be learned and the ledger's budget was spent. `Memory` when out of memory.
pub fn mismatch<O: Oracle>(
    graphs: &PairableGraphs<'_>,
    asker: &mut Asker<'_, O>,
    input: Pair,
    output: Pair,
    book: &mut BanBook,
) -> Result<Option<u64>, Stop>
    requires may { MayMakeBy graphs.now (loans O.known asker.old) book.old }
    requires input { IsPairOf graphs.now Input input }
    requires output { IsPairOf graphs.now Output output }
    ensures same { AreSame (loans O.known asker.old) (loans O.known asker.new) }
    ensures makes { MakesBy graphs.now (loans O.known asker.old) (loans O.known asker.new) book.old book.new result }
    ensures covers { IfOk result (λ found. IfSome found (Covers book.new (input ∷ output ∷ []))) }
{
    let Some(value) = value_to_ask(input, output, asker.broken) else {
        return Ok(None);
    };
    let carried = carry(input, output, value);
    keep_carried(graphs, asker, &[input, output], carried, book)
}

/// The facts by which the pairs of an input and an output have a ban, where a claim of the one circuit fails that holds
/// for the other one; None where none was shown. Only claims are asked of which vectors break one and not the other. No
/// ban is made.
///
/// # Errors
///
/// As for `mismatch`.
pub fn ask_difference<O: Oracle>(
    asker: &mut Asker<'_, O>,
    input: Pair,
    output: Pair,
) -> Result<Option<Unlike>, Stop>
    requires suits { Suits (O.known asker.old.oracle.now) asker.old.ledger.now }
    requires input { IsPairOf (O.known asker.old.oracle.now).graphs Input input }
    requires output { IsPairOf (O.known asker.old.oracle.now).graphs Output output }
    ensures same { AreSame (loans O.known asker.old) (loans O.known asker.new) }
    ensures serves { ServesBy (loans O.known asker.old) (loans O.known asker.new) result }
    ensures shown { IfOk result (λ found. IfSome found (λ unlike. IsBanBy (O.known asker.old.oracle.now).graphs
        (map decided_by (O.known asker.new.oracle.now).facts) (input ∷ output ∷ [])
        (mismatch_of (input ∷ output ∷ []) unlike))) }
{
    // the facts of an oracle are of its circuits
    let _facts = asker.oracle.facts();
    let Some(value) = value_to_ask(input, output, asker.broken) else {
        return Ok(None);
    };
    let carried = carry(input, output, value);
    unlike_by(asker, carried)
}

// The value for which vectors break the claim of one circuit, and not that of the other one.
fn value_to_ask(input: Pair, output: Pair, broken: &BrokenClaims) -> Option<bool> {
    if are_unlike(input, output, false, broken) {
        Some(false)
    } else if are_unlike(input, output, true, broken) {
        Some(true)
    } else {
        None
    }
}

fn are_unlike(input: Pair, output: Pair, value: bool, broken: &BrokenClaims) -> bool {
    let image = moved_value(output.flip, input, value);
    broken.is_broken(Side::First, output.from, input.from, value)
        != broken.is_broken(Side::Second, output.to, input.to, image)
}
