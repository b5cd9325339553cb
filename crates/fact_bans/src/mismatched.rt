//! Bans by a claim of the first circuit that is decided otherwise than the one that pairs carry it to.

ghost use Rattle.std.specs.Prelude.{List, IfOk, IfSome, map};
ghost use Rattle.circuits.specs.declared.port.Pair.{Pair as AnyPair};
ghost use Rattle.claim_core.specs.Claims.{IsClaim};
ghost use Rattle.account_core.specs.Facts.{AreFacts};
ghost use Rattle.account_core.specs.Given.{decided_by};
ghost use Rattle.ban_book.specs.Covering.{Covers};
ghost use Rattle.oracle_core.specs.Oracles.{Suits};
ghost use Rattle.ban_book.specs.Mismatched.{IsBanBy, mismatch_of};
ghost use Rattle.fact_bans.specs.Carrying.{Carry};
ghost use Rattle.fact_bans.specs.Asking.{AreSame, MakesBy, MayMakeBy, ServesBy, loans};

use crate::asker::Asker;
use crate::deciding::decide;
use account_core::PairableGraphs;
use ban_book::{BanBook, Carried, Unlike, mismatch_ban, unlike_of};
use circuits::Pair;
use cnf_core::Stop;
use oracle_core::Oracle;

/// Has both claims decided, and makes the ban of the pairs where one fails and the other one holds. Answers its number;
/// None where both fail, or both hold.
pub(crate) fn keep_carried<O: Oracle>(
    graphs: &PairableGraphs<'_>,
    asker: &mut Asker<'_, O>,
    pairs: &[Pair],
    carried: Carried,
    book: &mut BanBook,
) -> Result<Option<u64>, Stop>
    requires may { MayMakeBy graphs.now (loans O.known asker.old) book.old }
    requires carry { Carry graphs.now pairs.now carried }
    ensures same { AreSame (loans O.known asker.old) (loans O.known asker.new) }
    ensures makes { MakesBy graphs.now (loans O.known asker.old) (loans O.known asker.new) book.old book.new result }
    ensures covers { IfOk result (λ found. IfSome found (Covers book.new pairs.now)) }
{
    let Some(unlike) = unlike_by(asker, carried)? else {
        return Ok(None);
    };
    let ban = mismatch_ban(asker.alloc, pairs, unlike)?;
    let number = book.hold(ban)?;
    Ok(Some(number))
}

/// Has both claims decided. Answers the facts where one fails and the other one holds, and None where both fail, or
/// both hold.
pub(crate) fn unlike_by<O: Oracle>(
    asker: &mut Asker<'_, O>,
    carried: Carried,
) -> Result<Option<Unlike>, Stop>
    requires lawful { AreFacts (O.known asker.old.oracle.now).graphs (O.known asker.old.oracle.now).facts }
    requires claim { IsClaim (O.known asker.old.oracle.now).graphs carried.claim }
    requires image { IsClaim (O.known asker.old.oracle.now).graphs carried.image }
    requires suits { Suits (O.known asker.old.oracle.now) asker.old.ledger.now }
    ensures same { AreSame (loans O.known asker.old) (loans O.known asker.new) }
    ensures serves { ServesBy (loans O.known asker.old) (loans O.known asker.new) result }
    ensures shown { (pairs : List AnyPair)
        → Carry (O.known asker.old.oracle.now).graphs pairs carried
        → IfOk result (λ found. IfSome found (λ unlike. IsBanBy (O.known asker.old.oracle.now).graphs
        (map decided_by (O.known asker.new.oracle.now).facts) pairs (mismatch_of pairs unlike))) }
{
    let one = decide(asker, carried.claim)?;
    let other = decide(asker, carried.image)?;
    if one.holds == other.holds {
        return Ok(None);
    }
    Ok(Some(unlike_of(one, other)))
}
