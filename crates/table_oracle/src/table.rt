//! The oracle that tries all vectors.

ghost use Rattle.std.specs.Prelude.{◌≡◌, ◌≤◌, [], false, IfOk};
ghost use Rattle.query_core.specs.Ledgers.{Ledgered};
ghost use Rattle.oracle_core.specs.Oracles.{Suits};

use crate::answering::AllVectors;
use account_core::{Fact, PairableGraphs};
use claim_core::Claim;
use cnf_core::Stop;
use fact_tests::Book;
use net_core::Matching;
use oracle_core::{Compared, Oracle};
use query_core::Ledger;
use std::alloc::{AllocError, Global};
use std::marker::Model;
use watch_core::Stage;

/// An oracle for tests, about two circuits of at most 12 inputs. It tries all vectors on each query. Where none meets
/// it, it splits on one input after the other, and charges each line of the log that comes of it. Contracts see it as
/// what it knows.
#[derive(Drop)]
pub struct TableOracle<'a> {
    book: Book<AllVectors<'a>>,
}

impl<'a> Model for TableOracle<'a> {
    ghost use Rattle.oracle_core.specs.Oracles.{Known};

    ghost Value = { Known };

    ghost view = { λ a. a.book };
}

impl<'a> TableOracle<'a> {
    /// An oracle without facts, which every ledger suits in which nothing was asked.
    ///
    /// # Errors
    ///
    /// Only when out of memory.
    pub fn new(alloc: Global, graphs: &PairableGraphs<'a>) -> Result<TableOracle<'a>, AllocError>
        requires small { graphs.now.first.inputs ≤ 12 }
        ensures empty { IfOk result (λ table. table ≡ record { graphs = graphs.now; facts = []; answered = [] }) }
        ensures suits { IfOk result (λ table. (ledger : Ledgered)
            → ledger.asked ≡ []
            → ledger.spent ≡ false
            → Suits table ledger) }
    {
        Ok(TableOracle {
            book: Book::new(alloc, AllVectors::new(graphs)),
        })
    }
}

impl<'a> Oracle for TableOracle<'a> {
    ghost known = { λ table. table };

    fn claim(&mut self, alloc: Global, claim: Claim, ledger: &mut Ledger) -> Result<u64, Stop> {
        self.book.claim(alloc, claim, ledger)
    }

    fn compare(
        &mut self,
        alloc: Global,
        matching: &Matching,
        output: u32,
        ledger: &mut Ledger,
    ) -> Result<Compared, Stop> {
        self.book.compare(alloc, matching, output, ledger)
    }

    fn facts(&self) -> &[Fact] {
        self.book.facts()
    }

    fn at(&self, stage: Stage) {
        self.book.at(stage)
    }
}
