//! The oracle of a search.

ghost use Rattle.std.specs.Prelude.{◌≡◌, ◌<◌, length};
ghost use Rattle.circuits.specs.Matches.{HavePorts};
ghost use Rattle.claim_core.specs.Claims.{IsClaim};
ghost use Rattle.account_core.specs.Facts.{AreFacts};
ghost use Rattle.oracle_core.specs.Oracles.{Claims, Compares, Known, Suits};

use account_core::Fact;
use bit_list::Bits;
use claim_core::Claim;
use cnf_core::{Log, Stop};
use net_core::Matching;
use query_core::Ledger;
use std::alloc::Global;
use watch_core::Stage;

/// How an output of the first circuit compares with the output that a matching sends it to.
#[derive(Debug, Drop)]
pub enum Compared {
    /// The outputs agree on every vector. The first log refutes that they differ where the first one is true, the
    /// second where it is false.
    Same(Log, Log),
    /// The outputs differ on this vector of the first circuit's inputs.
    Differs(Bits),
}

/// Decides claims about two circuits, and compares their outputs. Each decided claim stays as a fact, with evidence
/// that others can check. What needs a refutation is asked in a ledger, and each line that is learned for it costs a
/// unit of the ledger's budget.
///
/// Facts stay, each under its number, and no two are of the same claim. No query is asked twice.
pub trait Oracle {
    /// The two circuits, the facts, and the queries that were answered.
    ghost known: { Self → Known };

    /// Decides a claim, and answers the number of its fact. Where the claim was decided earlier nothing changes.
    ///
    /// # Errors
    ///
    /// `Spent` where a line had to be learned and the budget was spent: the ledger has it as the refused line. Of two
    /// circuits with as many ports it comes only where the budget is less than enough for all that can be asked of
    /// them. `Memory` when out of memory: then nothing is promised of the ledger.
    fn claim(&mut self, alloc: Global, claim: Claim, ledger: &mut Ledger) -> Result<u64, Stop>
        requires placed { IsClaim (known self.old).graphs claim }
        requires suits { Suits (known self.old) ledger.old }
        ensures { Claims claim (known self.old) (known self.new) ledger.old ledger.new result };

    /// Compares an output of the first circuit with the output that the matching sends it to.
    ///
    /// # Errors
    ///
    /// As for `claim`.
    fn compare(
        &mut self,
        alloc: Global,
        matching: &Matching,
        output: u32,
        ledger: &mut Ledger,
    ) -> Result<Compared, Stop>
        requires ports { HavePorts (known self.old).graphs.first (known self.old).graphs.second
            matching.now.inputs matching.now.outputs }
        requires output { output < length (known self.old).graphs.first.outputs }
        requires suits { Suits (known self.old) ledger.old }
        ensures { Compares matching.now output (known self.old) (known self.new) ledger.old ledger.new result };

    /// The facts, in the order of their numbers.
    fn facts(&self) -> &[Fact]
        ensures value { result.now ≡ (known self.now).facts }
        ensures lawful { AreFacts (known self.now).graphs (known self.now).facts };

    /// Tells whoever watches what the run is at. No answer depends on it.
    fn at(&self, stage: Stage);
}
