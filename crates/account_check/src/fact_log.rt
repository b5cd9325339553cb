ghost use Rattle.std.specs.Prelude.{◌≡◌, ◌++◌, ◌∷◌, [], true, IfOk, OnOk, OnErr, Err, None, Some, length};
ghost use Rattle.std.specs.List.{list_all};
ghost use Rattle.cnf_core.specs.Derivations.{line_fault};
ghost use Rattle.cnf_core.specs.Stores.{HasRoom};
ghost use Rattle.claim_core.specs.Claims.{IsClaim};
ghost use Rattle.query_core.specs.ClaimClauses.{is_present, present_formula};
ghost use Rattle.account_check.specs.Logs.{fact_reject, refutation_of, unshown};
ghost use Rattle.account_check.specs.declared.reject.RecordStop.TheVariants as stop;
ghost use Rattle.account_check.specs.declared.reject.Reject.{Reject as AnyReject};

use crate::reject::RecordStop;
use claim_core::Claim;
use cnf_core::LogLine;
use net_core::Graphs;
use query_core::ClaimBase;
use refute_check::Refuter;
use std::alloc::{AllocError, Global};
use std::marker::Model;

/// A claim, and its log, whose lines are taken one by one. The log refutes the claim's query, and ends with the empty
/// clause.
pub(crate) struct FactLog<'a> {
    claim: Claim,
    refuter: Refuter<ClaimBase<'a>>,
}

impl<'a> Model for FactLog<'a> {
    ghost use Rattle.account_check.specs.Proofs.{FactProof, IsFactLog};

    ghost Value = { FactProof };

    ghost view = { λ a. record {
      graphs = a.refuter.base.graphs;
      fact = record { claim = a.claim; taken = a.refuter.taken };
    } };

    ghost invariant = { λ a. IsFactLog a.claim a.refuter.base };
}

// By hand, so that each exit of a function has one call for it (docs/IDIOMS.md).
impl Drop for FactLog<'_> {
    fn drop(self) {
        let FactLog {
            claim: _claim,
            refuter: _refuter,
        } = self;
    }
}

impl<'a> FactLog<'a> {
    /// No line was taken.
    pub(crate) fn new(
        alloc: Global,
        graphs: &'a Graphs<'a>,
        claim: &Claim,
    ) -> Result<FactLog<'a>, AllocError>
        requires { IsClaim graphs.now claim.now }
        ensures { IfOk result (λ log. log ≡ record { graphs = graphs.now; fact = unshown claim.now }) }
    {
        let base = ClaimBase::new(alloc, graphs, claim)?;
        Ok(FactLog {
            claim: *claim,
            refuter: Refuter::new(alloc, base)?,
        })
    }

    /// The log of another claim of the same circuit, of which no line was taken. What the last log used serves it, so
    /// that it costs no more than a step for each gate that its output reaches, where the last claim was of the same
    /// output.
    pub(crate) fn for_claim(self, alloc: Global, claim: &Claim) -> Result<FactLog<'a>, AllocError>
        requires claim { IsClaim self.graphs claim.now }
        requires side { claim.now.side ≡ self.fact.claim.side }
        ensures { IfOk result (λ log. log ≡ record { graphs = self.entry.graphs; fact = unshown claim.now }) }
    {
        let FactLog {
            claim: _claim,
            refuter,
        } = self;
        let (base, values) = refuter.into_parts();
        let base = base.for_claim(alloc, claim)?;
        Ok(FactLog {
            claim: *claim,
            refuter: Refuter::with_values(alloc, base, values),
        })
    }

    /// The claim.
    pub(crate) fn claim(&self) -> Claim
        ensures { result ≡ self.now.fact.claim }
    {
        self.claim
    }

    /// Takes a line exactly where it is derived. What is refused changes nothing, nor does running out of memory. A
    /// line whose hints name clauses of gates that the claim's output doesn't reach takes a step for each signal of the
    /// circuit, once.
    pub(crate) fn line(&mut self, alloc: Global, line: &LogLine) -> Result<(), RecordStop>
        ensures refused { (reject : AnyReject) → result ≡ Err (stop.Reject reject)
            → Some reject ≡ fact_reject self.old.graphs self.old.fact line.now }
        ensures taken { OnOk result (None ≡ fact_reject self.old.graphs self.old.fact line.now) }
        ensures graphs { self.new.graphs ≡ self.old.graphs }
        ensures fact { OnOk result (self.new.fact ≡ record {
          claim = self.old.fact.claim;
          taken = self.old.fact.taken ++ line.now.clause ∷ [];
        }) }
        ensures unchanged { OnErr result (self.new ≡ self.old) }
    {
        self.refuter.reserve(line.clause.len())?;
        make_present(alloc, &mut self.refuter, &line.hints)?;
        take(&mut self.refuter, line)
    }
}

// Takes a line exactly where it is derived from the clauses that are present.
fn take(refuter: &mut Refuter<ClaimBase<'_>>, line: &LogLine) -> Result<(), RecordStop>
    requires { HasRoom refuter.old.room (length line.now.clause) }
    ensures refused { (reject : AnyReject) → result ≡ Err (stop.Reject reject)
        → Some reject ≡ refutation_of (line_fault (present_formula refuter.old.base) refuter.old.taken line.now) }
    ensures derived { OnOk result (line_fault (present_formula refuter.old.base) refuter.old.taken line.now ≡ None) }
    ensures base { refuter.new.base ≡ refuter.old.base }
    ensures taken { OnOk result (refuter.new.taken ≡ refuter.old.taken ++ line.now.clause ∷ []) }
    ensures unchanged { OnErr result (refuter.new ≡ refuter.old) }
{
    refuter.line(line)?;
    Ok(())
}

// Switches to the clauses of all gates, unless those that hints name are all present.
fn make_present<'a>(
    alloc: Global,
    refuter: &mut Refuter<ClaimBase<'a>>,
    hints: &[u64],
) -> Result<(), AllocError>
    ensures graphs { refuter.new.base.graphs ≡ refuter.old.base.graphs }
    ensures query { refuter.new.base.query ≡ refuter.old.base.query }
    ensures taken { refuter.new.taken ≡ refuter.old.taken }
    ensures room { refuter.new.room ≡ refuter.old.room }
    ensures present { OnOk result (list_all (is_present refuter.new.base) hints.now ≡ true) }
{
    if refuter.base().are_present(hints) {
        return Ok(());
    }
    let whole = refuter.base().whole(alloc)?;
    refuter.set_base(whole);
    Ok(())
}
