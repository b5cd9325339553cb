ghost use Rattle.std.specs.Prelude.{◌≡◌};

use claim_core::Query;
use std::fmt;
use std::marker::Model;
use std::snapshot::Snapshot;

/// The query of an entry. Contracts see it as the query; when the program runs it has no bytes, since a snapshot has
/// none. Nothing reads it again: whoever asked has it.
pub struct AskedQuery {
    inside: Snapshot<Query>,
}

impl Model for AskedQuery {
    ghost use Rattle.claim_core.specs.declared.query.Query.{Query as AnyQuery};

    ghost Value = { AnyQuery };

    ghost view = { λ a. a.inside.value };
}

// By hand, so that each exit of a function has one call for it (docs/IDIOMS.md).
impl Drop for AskedQuery {
    fn drop(self) {
        let AskedQuery { inside: _inside } = self;
    }
}

impl AskedQuery {
    /// This query.
    pub(crate) fn of(query: &Query) -> AskedQuery
        ensures { result ≡ query.now }
    {
        AskedQuery {
            inside: Snapshot::of(query),
        }
    }
}

impl fmt::Debug for AskedQuery {
    fn fmt<W: fmt::Write>(&self, f: &mut fmt::Formatter<W>) -> fmt::Result {
        write!(f, "a query")
    }
}
