use crate::heuristics::Heuristics;
use ban_book::BanBook;
use fact_bans::Asker;
use oracle_core::Oracle;
use watch_core::Stage;

/// What the steps of a search are lent: what claims are decided by, the heuristic state, and the book of its bans.
#[derive(Drop)]
pub(crate) struct Session<'a, O: Oracle> {
    pub(crate) asker: Asker<'a, O>,
    pub(crate) heuristics: &'a mut Heuristics,
    pub(crate) book: &'a mut BanBook,
}

impl<O: Oracle> Session<'_, O> {
    /// How many lines were learned in the run.
    pub(crate) fn learned(&self) -> u64 {
        let asker = &self.asker;
        asker.ledger.learned()
    }

    /// Tells the watcher what the run is at.
    pub(crate) fn at(&self, stage: Stage) {
        let asker = &self.asker;
        asker.oracle.at(stage);
    }
}
