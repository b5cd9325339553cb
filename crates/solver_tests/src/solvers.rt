//! Small formulas whose answers are known, or found by trying all assignments.

ghost use Rattle.std.specs.Prelude.{◌≡◌, ◌%◌, ◌<◌, ◌∷◌, [], ℕ, true, false, All, IfOk, length, map};
ghost use Rattle.query_core.specs.Ledgers.{charging_of};

use crate::refutation::{count_taken, is_refutation};
use claim_core::{Cone, Feeds, Query};
use cnf_core::{Base, Clause3, SatLit, Stop};
use learn_solver::{Solver, Verdict, solve};
use net_core::Side;
use query_core::Ledger;
use rand_core::utils::NextWord;
use rand_pcg::Pcg32;
use refute_check::Refuter;
use std::alloc::{AllocError, Global};
use std::test::Fail;

/// Clauses of three literals over 64 variables. Where fewer are meant, one is written twice.
#[derive(Clone, Copy, Drop)]
struct Triples<'a> {
    clauses: &'a [(u64, u64, u64)],
}

impl<'a> Base for Triples<'a> {
    ghost formula = { λ a. record {
      variables = 64;
      clauses = map
          (λ (t : ℕ × ℕ × ℕ). record { 0 = t.0 % 128 } ∷ record { 0 = t.1 % 128 } ∷ record { 0 = t.2 % 128 } ∷ [])
          a.clauses.now;
    } };

    fn variables(&self) -> u64 {
        64
    }

    fn count(&self) -> u64 {
        self.clauses.len() as u64
    }

    fn clause(&self, id: u64) -> Clause3 {
        let (a, b, c) = self.clauses[id as usize];
        Clause3::three(SatLit(a % 128), SatLit(b % 128), SatLit(c % 128))
    }
}

/// What a search comes to, once a model was tried and a log was taken line by line.
#[derive(Clone, Copy, Debug, PartialEq, Eq)]
enum Outcome {
    Model,
    Refuted,
    Spent,
    Wrong,
}

impl Outcome {
    fn if_right(self, right: bool) -> Outcome {
        if right { self } else { Outcome::Wrong }
    }
}

fn is_true(values: &[bool], literal: u64) -> bool {
    values.get((literal / 2) as usize).copied().unwrap_or(false) != (literal % 2 == 1)
}

fn meets(values: &[bool], clauses: &[(u64, u64, u64)]) -> bool {
    for (a, b, c) in clauses.iter() {
        if !(is_true(values, *a) | is_true(values, *b) | is_true(values, *c)) {
            return false;
        }
    }
    true
}

/// A query of a circuit without inputs.
fn no_inputs() -> Query {
    let output = Cone {
        side: Side::First,
        output: 0,
        feed: Feeds::straight(0),
    };
    let same = Cone {
        side: Side::First,
        output: 0,
        feed: Feeds::straight(0),
    };
    Query {
        left: output,
        left_value: true,
        right: same,
        right_value: false,
    }
}

/// A ledger whose entry has no lines yet.
fn opened(alloc: Global, budget: u64) -> Result<Ledger, AllocError>
    ensures opened { IfOk result (λ ledger. (charging_of ledger).opened ≡ true) }
    ensures lines { IfOk result (λ ledger. (charging_of ledger).lines ≡ []) }
    ensures not_spent { IfOk result (λ ledger. ledger.spent ≡ false) }
{
    let query = no_inputs();
    let mut ledger = Ledger::new(alloc, budget);
    ledger.open(alloc, &query, &[])?;
    Ok(ledger)
}

fn numbers(alloc: Global, count: usize) -> Result<Vec<u64>, AllocError>
    ensures { IfOk result (λ numbers. All (λ number. number < count) numbers.items) }
{
    let mut numbers = Vec::new(alloc);
    for number in 0..count {
        numbers.push(number as u64)?;
    }
    Ok(numbers)
}

/// What a search's verdict comes to.
fn judged(
    alloc: Global,
    clauses: &[(u64, u64, u64)],
    verdict: &Verdict,
) -> Result<Outcome, AllocError> {
    match verdict {
        Verdict::Model(values) => Ok(Outcome::Model.if_right(meets(values, clauses))),
        Verdict::Refuted(log) => {
            let right = is_refutation(alloc, Triples { clauses }, log)?;
            Ok(Outcome::Refuted.if_right(right))
        }
    }
}

/// What a search in all of the clauses comes to.
fn searched(
    alloc: Global,
    clauses: &[(u64, u64, u64)],
    ids: &[u64],
    ledger: &mut Ledger,
) -> Result<Outcome, AllocError>
    requires ids { All (λ id. id < length clauses.now) ids.now }
    requires opened { (charging_of ledger.old).opened ≡ true }
    requires lines { (charging_of ledger.old).lines ≡ [] }
    requires not_spent { ledger.old.spent ≡ false }
{
    let base = Triples { clauses };
    let mut solver = Solver::new(alloc, &base, ids, &[])?;
    match solve(alloc, &mut solver, ledger) {
        Ok(verdict) => judged(alloc, clauses, &verdict),
        Err(Stop::Spent(_)) => Ok(Outcome::Spent),
        Err(Stop::Memory) => Err(AllocError),
    }
}

fn outcome_of(
    alloc: Global,
    clauses: &[(u64, u64, u64)],
    budget: u64,
) -> Result<Outcome, AllocError> {
    let ids = numbers(alloc, clauses.len())?;
    let mut ledger = opened(alloc, budget)?;
    searched(alloc, clauses, &ids, &mut ledger)
}

/// How many lines a search is charged, where a refuter takes each of them as the ledger gives it.
fn charged_in(
    alloc: Global,
    clauses: &[(u64, u64, u64)],
    budget: u64,
) -> Result<Option<u64>, AllocError> {
    let ids = numbers(alloc, clauses.len())?;
    let mut ledger = opened(alloc, budget)?;
    let _ = searched(alloc, clauses, &ids, &mut ledger)?;
    let mut refuter = Refuter::new(alloc, Triples { clauses })?;
    let mut lines = ledger.charged_lines();
    count_taken(alloc, &mut refuter, &mut lines)
}

/// Three pigeons sit in two holes, no two in one (Cook's formulas). Pigeon i sits in hole h where variable 3i + h is
/// true.
static THREE_PIGEONS: [(u64, u64, u64); 9] = [
    (0, 2, 2),
    (6, 8, 8),
    (12, 14, 14),
    (1, 7, 7),
    (1, 13, 13),
    (7, 13, 13),
    (3, 9, 9),
    (3, 15, 15),
    (9, 15, 15),
];

/// Four pigeons sit in three holes.
static FOUR_PIGEONS: [(u64, u64, u64); 22] = [
    (0, 2, 4),
    (6, 8, 10),
    (12, 14, 16),
    (18, 20, 22),
    (1, 7, 7),
    (1, 13, 13),
    (1, 19, 19),
    (7, 13, 13),
    (7, 19, 19),
    (13, 19, 19),
    (3, 9, 9),
    (3, 15, 15),
    (3, 21, 21),
    (9, 15, 15),
    (9, 21, 21),
    (15, 21, 21),
    (5, 11, 11),
    (5, 17, 17),
    (5, 23, 23),
    (11, 17, 17),
    (11, 23, 23),
    (17, 23, 23),
];

/// The clauses that say that the exclusive or of variables 1, 2 and 3 is true.
static ODD: [(u64, u64, u64); 4] = [(2, 4, 6), (2, 5, 7), (3, 4, 7), (3, 5, 6)];

/// The same with its opposite.
static ODD_AND_EVEN: [(u64, u64, u64); 8] = [
    (2, 4, 6),
    (2, 5, 7),
    (3, 4, 7),
    (3, 5, 6),
    (3, 5, 7),
    (3, 4, 6),
    (2, 5, 6),
    (2, 4, 7),
];

#[test]
fn answers_small_formulas(rt: HostRuntime) -> Result<(), Fail> {
    // in the last rows one pigeon fewer is left: then there is a place for each
    let rows: [(&[(u64, u64, u64)], u64, Outcome); 8] = [
        (&[], 0, Outcome::Model),
        (&ODD, 0, Outcome::Model),
        (&ODD_AND_EVEN, 99, Outcome::Refuted),
        (&ODD_AND_EVEN, 0, Outcome::Spent),
        (&THREE_PIGEONS, 99, Outcome::Refuted),
        (&FOUR_PIGEONS, 999, Outcome::Refuted),
        (&THREE_PIGEONS[1..], 99, Outcome::Model),
        (&FOUR_PIGEONS[1..], 999, Outcome::Model),
    ];
    for (clauses, budget, expected) in rows {
        assert_eq!(rt; outcome_of(rt.alloc(), clauses, budget)?, expected);
    }
    Ok(())
}

#[test]
fn gives_charged_lines_back(rt: HostRuntime) -> Result<(), Fail> {
    // the refused line is one of them
    for budget in 0..4 {
        assert_eq!(rt;
            charged_in(rt.alloc(), &FOUR_PIGEONS, budget)?,
            Some(budget + 1)
        );
    }
    assert!(rt; charged_in(rt.alloc(), &THREE_PIGEONS, 99)?.is_some());
    Ok(())
}

/// Whether some assignment of variables 0, 1 and 2 meets the clauses.
fn has_model(clauses: &[(u64, u64, u64)]) -> bool {
    for code in 0..8u32 {
        let values = [code % 2 == 1, code / 2 % 2 == 1, code / 4 == 1];
        if meets(values.as_slice(), clauses) {
            return true;
        }
    }
    false
}

/// Clauses over variables 0, 1 and 2.
fn drawn(alloc: Global, words: &mut Pcg32, count: u32) -> Result<Vec<(u64, u64, u64)>, AllocError> {
    let mut clauses = Vec::new(alloc);
    for _ in 0..count {
        let a = u64::from(words.next_word() % 6);
        let b = u64::from(words.next_word() % 6);
        let c = u64::from(words.next_word() % 6);
        clauses.push((a, b, c))?;
    }
    Ok(clauses)
}

fn agrees(alloc: Global, clauses: &[(u64, u64, u64)]) -> Result<bool, AllocError> {
    match outcome_of(alloc, clauses, 99)? {
        Outcome::Model => Ok(has_model(clauses)),
        Outcome::Refuted => Ok(!has_model(clauses)),
        _ => Ok(false),
    }
}

#[test]
fn agrees_with_all_assignments(rt: HostRuntime) -> Result<(), Fail> {
    let mut words = Pcg32::new(42, 54);
    for round in 0..60u32 {
        let clauses = drawn(rt.alloc(), &mut words, 4 + round % 9)?;
        assert!(rt; agrees(rt.alloc(), &clauses)?, "in round {round}");
    }
    Ok(())
}
