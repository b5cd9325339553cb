//! The search, from its beginning.

ghost use Rattle.std.specs.Prelude.{ℕ, ◌≡◌, ◌<◌, [], Err, IfOk, IfSome, map};
ghost use Rattle.cnf_core.specs.declared.stop.Stop.TheVariants.{Spent};
ghost use Rattle.account_core.specs.Given.{decided_by};
ghost use Rattle.account_core.specs.Shown.{IsEmptyBan};
ghost use Rattle.oracle_core.specs.Enough.{enough};
ghost use Rattle.match_search.specs.Founds.{IsDecidedFound};
ghost use Rattle.match_search.specs.States.{Explores, MayBegin, MaySearch, Searches, SearchesBy, lent};

use crate::branching::{explore_rounds, explore_whole};
use crate::found::Found;
use crate::heuristics::Heuristics;
use crate::session::Session;
use crate::table_refusal::refuse_by_tables;
use account_core::PairableGraphs;
use ban_book::BanBook;
use broken_claims::BrokenClaims;
use cnf_core::Stop;
use fact_bans::{Asker, refuse};
use oracle_core::Oracle;
use query_core::Ledger;
use std::alloc::Global;

/// How often a refusal by counts is tried. Vectors that err more often say little of the circuits.
const MOST_TRIES: u32 = 32;

/// How many bans a refusal by tables may take: 400 MB.
const MOST_BANS: u64 = 1_500_000;

/// How many rounds there are with the same bans, after each of which the search starts over. They come to some six
/// million conflicts, hours of work.
const MOST_ROUNDS: u64 = 10_000;

/// How often the search begins again with no bans, once they take all their room, which takes some seconds at least.
/// After the last time it goes on without letting bans go: then less is left after each turn, so that it ends.
const MOST_TIMES: u64 = 10_000;

/// Looks for a match of two circuits with as many ports, as conflict-driven solvers look for models, unless counts of
/// inputs refuse one at once, or tables of outputs that reach few inputs do with few bans. Ports are decided one by
/// one, and bans and ports with one way left are propagated. From a conflict a ban is learned that leads as far back as
/// it can. Pairs are tried on vectors, and the outputs of whole matchings are compared. Another seed draws other
/// vectors. `docs/SEARCH.md` says how, and why it ends.
///
/// The book's bans are valid in view of the oracle's facts, whatever is answered. A ban by a vector is a last resort:
/// the claims of one input of its two outputs are decided, and neither a mismatch of these nor a tally is valid for its
/// pairs. Where a match is found, the claims of one input of all outputs are decided after it.
///
/// # Errors
///
/// `Spent` where a line had to be learned and the ledger's budget was spent, also where a match was found, and its
/// claims weren't decided; never where the budget is enough for all that can be asked of the two circuits. `Memory`
/// when out of memory.
pub fn search<O: Oracle>(
    alloc: Global,
    graphs: &PairableGraphs<'_>,
    oracle: &mut O,
    book: &mut BanBook,
    seed: u64,
    ledger: &mut Ledger,
) -> Result<Found, Stop>
    requires may { MayBegin graphs.now (O.known oracle.old) ledger.old book.old }
    ensures searches { Searches graphs.now (O.known oracle.old)
        (O.known oracle.new) ledger.old ledger.new book.new result }
    ensures decided { IfOk result (IsDecidedFound graphs.now (map decided_by (O.known oracle.new).facts)) }
    ensures below { (learned : ℕ) → result ≡ Err (Spent learned) → ledger.old.budget < enough graphs.now }
{
    // pairable graphs have as many ports
    let _ports = graphs.graphs();
    search_all(alloc, graphs, oracle, book, seed, ledger)
}

// The search, without what is said of a spent budget.
fn search_all<O: Oracle>(
    alloc: Global,
    graphs: &PairableGraphs<'_>,
    oracle: &mut O,
    book: &mut BanBook,
    seed: u64,
    ledger: &mut Ledger,
) -> Result<Found, Stop>
    requires may { MayBegin graphs.now (O.known oracle.old) ledger.old book.old }
    ensures searches { Searches graphs.now (O.known oracle.old)
        (O.known oracle.new) ledger.old ledger.new book.new result }
    ensures decided { IfOk result (IsDecidedFound graphs.now (map decided_by (O.known oracle.new).facts)) }
{
    // the facts of an oracle are of its circuits
    let _facts = oracle.facts();
    let mut broken = BrokenClaims::new(alloc, graphs, seed)?;
    let mut heuristics = Heuristics::new(alloc, graphs, seed)?;
    let mut session = Session {
        asker: Asker {
            alloc,
            oracle,
            broken: &mut broken,
            ledger,
        },
        heuristics: &mut heuristics,
        book,
    };
    refuse_or_explore(graphs, &mut session)
}

/// Searches unless counts of inputs or tables refuse a match. Ports are decided one by one, as conflict-driven solvers
/// decide variables, until a match is found, or a ban without pairs. The heuristic state comes from the caller, and
/// there may be bans already. Where a match is found, the claims of one input of all outputs are decided.
///
/// Bans that take all their room are let go, and the search begins again. A ban without pairs rests on those of its
/// book alone, so nothing that it needs is gone.
///
/// # Errors
///
/// As for `search`.
pub(crate) fn refuse_or_explore<O: Oracle>(
    graphs: &PairableGraphs<'_>,
    session: &mut Session<'_, O>,
) -> Result<Found, Stop>
    requires may { MaySearch graphs.now (lent O.known session.old) }
    ensures searches { SearchesBy graphs.now (lent O.known session.old) (lent O.known session.new) result }
    ensures decided { IfOk result
        (IsDecidedFound graphs.now (map decided_by (O.known session.new.asker.oracle.now).facts)) }
{
    if let Some(ban) = refuse_early(graphs, session, MOST_TRIES, MOST_BANS)? {
        return Ok(Found::None(ban));
    }
    for _time in 0..MOST_TIMES {
        if let Some(found) = explore_rounds(graphs, session, MOST_ROUNDS, u64::MAX)? {
            return Ok(found);
        }
        let_go(session.asker.alloc, session.book);
        session.heuristics.guide.restart();
    }
    explore_whole(graphs, session)
}

/// Makes a ban without pairs, and answers its number: by counts of inputs, tried this often, or by tables of outputs
/// that reach few inputs, where these foresee no more than some bans.
///
/// # Errors
///
/// As for `search`.
pub(crate) fn refuse_early<O: Oracle>(
    graphs: &PairableGraphs<'_>,
    session: &mut Session<'_, O>,
    tries: u32,
    bans: u64,
) -> Result<Option<u64>, Stop>
    requires may { MaySearch graphs.now (lent O.known session.old) }
    ensures explores { Explores graphs.now (lent O.known session.old) (lent O.known session.new) result }
    ensures empty { IfOk result (λ found. IfSome found (IsEmptyBan session.new.book.now)) }
{
    if let Some(ban) = refuse_by_counts(graphs, session, tries)? {
        return Ok(Some(ban));
    }
    refuse_by_tables(graphs, session, bans)
}

// Makes a ban without pairs that counts of inputs show, tried this often, and answers its number.
fn refuse_by_counts<O: Oracle>(
    graphs: &PairableGraphs<'_>,
    session: &mut Session<'_, O>,
    tries: u32,
) -> Result<Option<u64>, Stop>
    requires may { MaySearch graphs.now (lent O.known session.old) }
    ensures explores { Explores graphs.now (lent O.known session.old) (lent O.known session.new) result }
    ensures empty { IfOk result (λ found. IfSome found (IsEmptyBan session.new.book.now)) }
{
    refuse(graphs, &mut session.asker, tries, session.book)
}

// Lets all bans go.
fn let_go(alloc: Global, book: &mut BanBook)
    ensures { book.new ≡ [] }
{
    *book = BanBook::new(alloc);
}
