//! What the budget of a ledger says. Each function does nothing; its contract is the law.

ghost use Rattle.std.specs.Prelude.{◌≤◌};
ghost use Rattle.net_core.specs.Sides.{Graphs};
ghost use Rattle.query_core.specs.Ledgers.{Ledgered, lines_in};
ghost use Rattle.account_core.specs.Ports.{HaveAsMany};
ghost use Rattle.oracle_core.specs.Work.{IsWorkOfClaimsAndMatches};
ghost use Rattle.oracle_core.specs.Enough.{enough};

/// A ledger that is work on two circuits with as many ports has at most `enough` lines after its lemmas, a refused line
/// counted: the lines of one query are different clauses, and no query has lines in two entries.
pub fn few_lines_of_work()
    ensures { (graphs : Graphs) (ledger : Ledgered)
        → HaveAsMany graphs.first graphs.second
        → IsWorkOfClaimsAndMatches graphs ledger
        → lines_in ledger ≤ enough graphs }
{}
