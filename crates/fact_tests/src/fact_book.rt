//! The book of facts.

ghost use Rattle.std.specs.Prelude.{◌≡◌, [], false, IfOk};
ghost use Rattle.query_core.specs.Ledgers.{Ledgered};
ghost use Rattle.account_core.specs.Facts.{AreFacts};
ghost use Rattle.oracle_core.specs.Oracles.{Suits};

use crate::book::Book;
use crate::deciding::Sources;
use account_core::Fact;
use claim_core::Claim;
use cnf_core::Stop;
use items::Items;
use net_core::{Graphs, Matching};
use oracle_core::{Compared, Oracle};
use query_core::Ledger;
use std::alloc::{AllocError, Global};
use std::marker::Model;
use watch_core::{Silent, Stage, Watch};

/// Facts about two circuits. A claim is decided by structure where its output doesn't reach its inputs; then by a
/// vector that simulation saw; and else it is asked. Each fact is kept, and so is each answer about a matching.
/// What the run is at goes to a watcher. Contracts see the book as what it knows.
pub struct FactBook<'a, W: Watch = Silent> {
    book: Book<Sources<'a, W>>,
}

impl<'a, W: Watch> Model for FactBook<'a, W> {
    ghost use Rattle.oracle_core.specs.Oracles.{Known};

    ghost Value = { Known };

    ghost view = { λ a. a.book };
}

// By hand, so that each exit of a function has one call for it (docs/IDIOMS.md).
impl<'a, W: Watch> Drop for FactBook<'a, W> {
    fn drop(self) {
        let FactBook { book: _book } = self;
    }
}

impl<'a> FactBook<'a> {
    /// An empty book, which every ledger suits in which nothing was asked. The seed chooses the vectors that are
    /// simulated. Nobody watches.
    ///
    /// # Errors
    ///
    /// Only when out of memory.
    pub fn new(alloc: Global, graphs: &'a Graphs<'a>, seed: u64) -> Result<FactBook<'a>, AllocError>
        ensures empty { IfOk result (λ book. book ≡ record { graphs = graphs.now; facts = []; answered = [] }) }
        ensures suits { IfOk result (λ book. (ledger : Ledgered)
            → ledger.asked ≡ []
            → ledger.spent ≡ false
            → Suits book ledger) }
    {
        FactBook::watched(alloc, graphs, seed, &Silent)
    }
}

impl<'a, W: Watch> FactBook<'a, W> {
    /// As [`FactBook::new`], with a watcher that gets what the run is at.
    ///
    /// # Errors
    ///
    /// Only when out of memory.
    pub fn watched(
        alloc: Global,
        graphs: &'a Graphs<'a>,
        seed: u64,
        watch: &'a W,
    ) -> Result<FactBook<'a, W>, AllocError>
        ensures empty { IfOk result (λ book. book ≡ record { graphs = graphs.now; facts = []; answered = [] }) }
        ensures suits { IfOk result (λ book. (ledger : Ledgered)
            → ledger.asked ≡ []
            → ledger.spent ≡ false
            → Suits book ledger) }
    {
        let sources = Sources::new(alloc, graphs, seed, watch)?;
        Ok(FactBook {
            book: Book::new(alloc, sources),
        })
    }

    /// The facts, in the order of their numbers; what else is known is let go. It takes no memory.
    pub fn into_facts(self) -> Items<Fact>
        ensures value { result ≡ self.entry.facts }
        ensures lawful { AreFacts self.entry.graphs result }
    {
        let FactBook { book } = self;
        book.into_facts()
    }
}

impl<'a, W: Watch> Oracle for FactBook<'a, W> {
    ghost known = { λ book. book };

    fn claim(&mut self, alloc: Global, claim: Claim, ledger: &mut Ledger) -> Result<u64, Stop> {
        self.book.claim(alloc, claim, ledger)
    }

    fn compare(
        &mut self,
        alloc: Global,
        matching: &Matching,
        output: u32,
        ledger: &mut Ledger,
    ) -> Result<Compared, Stop> {
        self.book.compare(alloc, matching, output, ledger)
    }

    fn facts(&self) -> &[Fact] {
        self.book.facts()
    }

    fn at(&self, stage: Stage) {
        self.book.at(stage)
    }
}
