//! The first phase, which leaves no ban: matchings that are guessed are compared.

ghost use Rattle.std.specs.Prelude.{IfOk, IfSome};
ghost use Rattle.oracle_core.specs.Oracles.{Serves};
ghost use Rattle.account_core.specs.Shown.{IsShownMatch};
ghost use Rattle.match_search.specs.Founds.{IsGuessed};
ghost use Rattle.match_search.specs.States.{MayCompare};

use crate::candidate::compare_all;
use account_core::PairableGraphs;
use cnf_core::{Log, Stop};
use items::Items;
use match_guess::{Effort, Guesses};
use net_core::Matching;
use oracle_core::Oracle;
use query_core::Ledger;
use std::alloc::Global;
use watch_core::Stage;

/// How many guessed matchings are compared. Each is right on the vectors on which the ones before it are wrong, so that
/// none repeats a mistake. That there are 16 was chosen, and not measured.
const MOST_GUESSES: u32 = 16;

/// What a guess comes to.
#[derive(Drop)]
pub(crate) enum Guessed {
    /// The matching is a match.
    Match(Matching, Items<Log>),
    /// The candidate is no match.
    Fails,
    /// No matching was guessed.
    Nothing,
}

/// Compares matchings that are guessed with so much effort, a bounded number of them, and answers one that is a match,
/// with its logs. None says nothing of whether there is a match.
pub(crate) fn compare_guesses<'a, O: Oracle>(
    alloc: Global,
    graphs: &PairableGraphs<'a>,
    oracle: &mut O,
    guesses: &mut Guesses<'a>,
    effort: Effort,
    ledger: &mut Ledger,
) -> Result<Option<(Matching, Items<Log>)>, Stop>
    requires may { MayCompare graphs.now (O.known oracle.old) ledger.old }
    ensures serves { Serves (O.known oracle.old) (O.known oracle.new) ledger.old ledger.new result }
    ensures shown { IfOk result (λ found. IfSome found (λ shown. IsShownMatch graphs.now shown.0 shown.1)) }
{
    for count in 0..MOST_GUESSES {
        oracle.at(Stage::Guessing { guesses: count });
        match compare_guess(alloc, graphs, oracle, guesses, effort, ledger)? {
            Guessed::Match(matching, logs) => return Ok(Some((matching, logs))),
            Guessed::Fails => {}
            Guessed::Nothing => return Ok(None),
        }
    }
    Ok(None)
}

// Compares a matching that is guessed. Where it is no match, the vector that shows it is kept, so that the next guess
// agrees on it.
fn compare_guess<'a, O: Oracle>(
    alloc: Global,
    graphs: &PairableGraphs<'a>,
    oracle: &mut O,
    guesses: &mut Guesses<'a>,
    effort: Effort,
    ledger: &mut Ledger,
) -> Result<Guessed, Stop>
    requires may { MayCompare graphs.now (O.known oracle.old) ledger.old }
    ensures serves { Serves (O.known oracle.old) (O.known oracle.new) ledger.old ledger.new result }
    ensures guessed { IfOk result (IsGuessed graphs.now) }
{
    // the gates of a graph are in order, and its ports fewer than 2^32
    let _first = graphs.first();
    let _second = graphs.second();
    let Some(matching) = guesses.next(alloc, graphs, effort)? else {
        return Ok(Guessed::Nothing);
    };
    let mut logs = Items::new(alloc);
    match compare_all(alloc, graphs, oracle, &matching, ledger, &mut logs)? {
        None => Ok(Guessed::Match(matching, logs)),
        Some(found) => {
            guesses.keep(&found.vector)?;
            Ok(Guessed::Fails)
        }
    }
}
