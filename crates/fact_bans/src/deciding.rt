//! What an oracle says of a claim.

ghost use Rattle.std.specs.Prelude.{◌≡◌, ◌++◌, ◌∷◌, [], IfOk, IfSome, IsTrue, map};
ghost use Rattle.claim_core.specs.Claims.{IsClaim};
ghost use Rattle.account_core.specs.Given.{decided_by};
ghost use Rattle.oracle_core.specs.Oracles.{IsNumberOf, Suits};
ghost use Rattle.ban_book.specs.DecidedClaims.{AddsFact, IsDecidedAs};
ghost use Rattle.fact_bans.specs.Asking.{AreSame, ServesBy, loans};

use crate::asker::Asker;
use account_core::Fact;
use ban_book::DecidedClaim;
use broken_claims::BrokenClaims;
use claim_core::Claim;
use cnf_core::Stop;
use items::Items;
use oracle_core::Oracle;

/// Has a claim decided. Where it fails, that is noted as seen.
pub(crate) fn decide<O: Oracle>(
    asker: &mut Asker<'_, O>,
    claim: Claim,
) -> Result<DecidedClaim, Stop>
    requires placed { IsClaim (O.known asker.old.oracle.now).graphs claim }
    requires suits { Suits (O.known asker.old.oracle.now) asker.old.ledger.now }
    ensures same { AreSame (loans O.known asker.old) (loans O.known asker.new) }
    ensures serves { ServesBy (loans O.known asker.old) (loans O.known asker.new) result }
    ensures decided { IfOk result (λ decided.
        IsDecidedAs (map decided_by (O.known asker.new.oracle.now).facts) claim decided.holds decided.number) }
{
    let number = number_of(asker, claim)?;
    let fact = &asker.oracle.facts()[number as usize];
    let holds = fact.holds();
    asker.broken.note(claim, number, holds);
    Ok(DecidedClaim { number, holds })
}

// The number of a claim's fact. One that was noted is found without asking.
fn number_of<O: Oracle>(asker: &mut Asker<'_, O>, claim: Claim) -> Result<u64, Stop>
    requires placed { IsClaim (O.known asker.old.oracle.now).graphs claim }
    requires suits { Suits (O.known asker.old.oracle.now) asker.old.ledger.now }
    ensures same { AreSame (loans O.known asker.old) (loans O.known asker.new) }
    ensures serves { ServesBy (loans O.known asker.old) (loans O.known asker.new) result }
    ensures number { IfOk result (IsNumberOf (O.known asker.new.oracle.now).facts claim) }
{
    if let Some(number) = noted(asker.oracle.facts(), claim, asker.broken) {
        return Ok(number);
    }
    asker.oracle.claim(asker.alloc, claim, asker.ledger)
}

// The number that was noted of a claim's fact, if the fact is of the claim.
fn noted(facts: &[Fact], claim: Claim, broken: &BrokenClaims) -> Option<u64>
    ensures { IfSome result (IsNumberOf facts.now claim) }
{
    let number = broken.number(claim)?;
    if is_of(facts, number, claim) {
        return Some(number);
    }
    None
}

// Whether a fact is of a claim.
fn is_of(facts: &[Fact], number: u64, claim: Claim) -> bool
    ensures { IsTrue result → IsNumberOf facts.now claim number }
{
    match facts.get(number as usize) {
        Some(fact) => fact.claim == claim,
        None => false,
    }
}

/// Has a claim decided, and adds the number of its fact where the claim holds or fails as `holds` says. Answers whether
/// it does.
pub(crate) fn add_fact<O: Oracle>(
    asker: &mut Asker<'_, O>,
    claim: Claim,
    holds: bool,
    numbers: &mut Items<u64>,
) -> Result<bool, Stop>
    requires placed { IsClaim (O.known asker.old.oracle.now).graphs claim }
    requires suits { Suits (O.known asker.old.oracle.now) asker.old.ledger.now }
    ensures same { AreSame (loans O.known asker.old) (loans O.known asker.new) }
    ensures serves { ServesBy (loans O.known asker.old) (loans O.known asker.new) result }
    ensures adds { IfOk result (λ added. IsTrue added
        → AddsFact (map decided_by (O.known asker.new.oracle.now).facts) claim holds numbers.old numbers.new) }
{
    let decided = decide(asker, claim)?;
    if decided.holds != holds {
        return Ok(false);
    }
    numbers.push(decided.number)?;
    Ok(true)
}
