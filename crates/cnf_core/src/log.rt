//! Logs of hinted derivations.

ghost use Rattle.std.specs.Prelude.{◌≡◌, IfOk};

use crate::literal::SatLit;
use items::Items;
use std::alloc::{AllocError, Global};

/// A derived clause, with the numbers of the clauses that derive it in the order in which they are used. A formula's
/// clauses are numbered from 0, and the lines of its log go on from there.
#[derive(Clone, Debug, Drop, PartialEq, Eq)]
pub struct LogLine {
    pub clause: Items<SatLit>,
    pub hints: Items<u64>,
}

/// Derived clauses, in order.
#[derive(Clone, Debug, Drop, PartialEq, Eq)]
pub struct Log {
    pub lines: Items<LogLine>,
}

impl Log {
    /// An equal log.
    pub fn copy(&self, alloc: Global) -> Result<Log, AllocError>
        ensures { IfOk result (λ log. log ≡ self.now) }
    {
        self.clone()
    }
}
