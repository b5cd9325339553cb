//! When a search begins again.

use watch_core::ReluctantDoubling;

/// How many lines are learned at least from one restart to the next. With 50 the parity of 64 bits took a third fewer
/// lines than without restarts, the majority of 15 a quarter fewer, and adders of 64 bits up to a twelfth more
/// (bench/solve.sh).
const SHORTEST_RUN: u64 = 50;

/// When a search goes back to level 0, with what it learned: after `SHORTEST_RUN` lines times the numbers of reluctant
/// doubling. It says when, and no answer depends on it.
#[derive(Drop)]
pub(crate) struct Restarts {
    factors: ReluctantDoubling,
    /// How many lines are learned until the next restart.
    left: u64,
}

impl Restarts {
    pub(crate) fn new() -> Restarts {
        let mut factors = ReluctantDoubling::new();
        let left = factors.next().saturating_mul(SHORTEST_RUN);
        Restarts { factors, left }
    }

    /// Counts a learned line. True: it is time to begin again.
    pub(crate) fn count(&mut self) -> bool {
        self.left = self.left.saturating_sub(1);
        if self.left > 0 {
            return false;
        }
        self.left = self.factors.next().saturating_mul(SHORTEST_RUN);
        true
    }
}
