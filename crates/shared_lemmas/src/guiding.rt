//! What the solver looks at first.

use ask_core::{REPORTED_EVERY, agenda_of};
use learn_solver::{Agenda, Candidate, QuestionGuide};
use query_core::{Ledger, QueryBase};
use std::alloc::{AllocError, Global};
use watch_core::{Stage, Watch};

/// The pairs of a question's gates that seem to be equal, each of which is two candidates. Those that questions before
/// looked at are looked at again: of what was learned there only lines are kept that rest on neither output, and a pair
/// that is known by these is done with by propagation alone.
#[derive(Drop)]
pub(crate) struct QuestionPairs<'a, W: Watch> {
    pub(crate) base: &'a QueryBase<'a>,
    /// The numbers of the clauses that say what the gates are: after the first clause three for each.
    pub(crate) ids: &'a [u64],
    pub(crate) reporter: Reporter<'a, W>,
}

/// What is reported of a question to a watcher.
#[derive(Drop)]
pub(crate) struct Reporter<'a, W: Watch> {
    watch: &'a W,
    budget: u64,
    /// How many lines were learned before the question.
    learned: u64,
    /// How many of the question's lines were learned before it.
    lemmas: u64,
    /// From how many of them on they are reported again.
    next: u64,
}

impl<'a, W: Watch> Reporter<'a, W> {
    /// Reports a question that has this many lemmas.
    pub(crate) fn new(ledger: &Ledger, lemmas: u64, watch: &'a W) -> Reporter<'a, W> {
        Reporter {
            watch,
            budget: ledger.budget(),
            learned: ledger.learned(),
            lemmas,
            next: 0,
        }
    }

    // Reports how many lines were learned, where the question has this many, unless few were learned since.
    fn report_some(&mut self, lines: u64) {
        if lines >= self.next {
            self.report(lines);
            self.next = lines.saturating_add(REPORTED_EVERY);
        }
    }

    // Reports how many lines were learned, where the question has this many.
    fn report(&self, lines: u64) {
        let own = lines.saturating_sub(self.lemmas);
        self.watch.at(Stage::Learning {
            learned: self.learned.saturating_add(own),
            budget: self.budget,
        });
    }
}

impl<'a, W: Watch> QuestionGuide for QuestionPairs<'a, W> {
    fn agenda(&mut self, alloc: Global) -> Result<Agenda, AllocError> {
        agenda_of(alloc, self.base, self.ids)
    }

    fn done_with(&mut self, _candidate: Candidate, lines: u64) -> Result<(), AllocError> {
        self.reporter.report(lines);
        Ok(())
    }

    fn learned(&mut self, lines: u64) {
        self.reporter.report_some(lines);
    }
}
