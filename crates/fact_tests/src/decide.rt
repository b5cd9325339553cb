//! What decides claims and answers queries.

ghost use Rattle.std.specs.Prelude.{◌≡◌, false};
ghost use Rattle.net_core.specs.Sides.{Graphs as AnyGraphs};
ghost use Rattle.claim_core.specs.Claims.{IsClaim};
ghost use Rattle.claim_core.specs.Queries.{IsQuery};
ghost use Rattle.oracle_core.specs.Work.{IsOfMatch};
ghost use Rattle.ask_core.specs.Answers.{IsAnswer};
ghost use Rattle.fact_tests.specs.Asking.{Decides, DecidesClaim};

use account_core::Evidence;
use ask_core::Answer;
use claim_core::{Claim, Query};
use cnf_core::Stop;
use net_core::Graphs;
use query_core::Ledger;
use std::alloc::Global;
use watch_core::Stage;

/// Decides claims about two circuits, and answers queries of matchings of theirs. It keeps no fact and no answer;
/// what has to be refuted is asked in a ledger.
pub trait Decide {
    /// The two circuits.
    ghost circuits: { Self → AnyGraphs };

    /// The two circuits.
    fn graphs(&self) -> &Graphs<'_>
        ensures { result.now ≡ circuits self.now };

    /// Evidence for a claim, or against it.
    ///
    /// # Errors
    ///
    /// `Spent` where a line had to be learned and the budget was spent: the ledger has it as the refused line. `Memory`
    /// when out of memory: then nothing is promised of the ledger.
    fn evidence(
        &mut self,
        alloc: Global,
        claim: &Claim,
        ledger: &mut Ledger,
    ) -> Result<Evidence, Stop>
        requires placed { IsClaim (circuits self.old) claim.now }
        requires unspent { ledger.old.spent ≡ false }
        ensures same { circuits self.new ≡ circuits self.old }
        ensures decides { DecidesClaim (circuits self.old) claim.now ledger.old ledger.new result };

    /// A vector that meets a query of a matching, or a log that refutes it.
    ///
    /// # Errors
    ///
    /// As for `evidence`.
    fn answer_to(
        &mut self,
        alloc: Global,
        query: &Query,
        ledger: &mut Ledger,
    ) -> Result<Answer, Stop>
        requires fits { IsQuery (circuits self.old) query.now }
        requires of_match { IsOfMatch (circuits self.old) query.now }
        requires unspent { ledger.old.spent ≡ false }
        ensures same { circuits self.new ≡ circuits self.old }
        ensures decides { Decides (IsAnswer (circuits self.old) query.now)
            (circuits self.old) query.now ledger.old ledger.new result };

    /// Whoever watches gets what the run is at. No answer depends on it.
    fn at(&self, stage: Stage);
}
