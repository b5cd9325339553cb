//! An oracle over what decides claims.

ghost use Rattle.std.specs.Prelude.{◌≡◌, ◌≢◌, ◌<◌, [], false, true, All, IfOk, length};
ghost use Rattle.circuits.specs.Matches.{HavePorts};
ghost use Rattle.cnf_core.specs.Derivations.{IsRefutation};
ghost use Rattle.claim_core.specs.Claims.{IsClaim};
ghost use Rattle.account_core.specs.Facts.{AreFacts};
ghost use Rattle.claim_core.specs.Formulas.{formula_of};
ghost use Rattle.query_core.specs.Ledgers.{Ledgered};
ghost use Rattle.claim_core.specs.MatchQueries.{match_query};
ghost use Rattle.claim_core.specs.Queries.{IsQuery};
ghost use Rattle.oracle_core.specs.Oracles.{Claims, Compares, IsAnswered, Serves, Suits};
ghost use Rattle.oracle_core.specs.Work.{IsOfMatch};
ghost use Rattle.ask_core.specs.Answers.{IsAnswer};

use crate::answers::{AnswerMap, copied};
use crate::decide::Decide;
use crate::facts::FactList;
use account_core::Fact;
use ask_core::Answer;
use bit_list::Bits;
use claim_core::{Claim, Query, of_match};
use cnf_core::{Log, Stop};
use items::Items;
use net_core::Matching;
use oracle_core::{Compared, Oracle};
use query_core::Ledger;
use std::alloc::Global;
use std::marker::Model;
use watch_core::Stage;

/// An oracle that keeps what something decides of its two circuits: each claim that was decided as a fact, and each
/// answer about a matching. Contracts see it as what it knows.
#[derive(Drop)]
pub struct Book<D: Decide> {
    decider: D,
    facts: FactList,
    /// The answered queries of matchings.
    kept: AnswerMap,
}

impl<D: Decide> Model for Book<D> {
    ghost use Rattle.oracle_core.specs.Oracles.{Known};
    ghost use Rattle.fact_tests.specs.Books.{IsBook, known_by};

    ghost Value = { Known };

    ghost view = { λ a. known_by (D.circuits a.decider) a.facts a.kept };

    ghost invariant = { λ a. IsBook (D.circuits a.decider) a.facts a.kept };
}

impl<D: Decide> Book<D> {
    /// An empty book, which every ledger suits in which nothing was asked.
    pub fn new(alloc: Global, decider: D) -> Book<D>
        ensures empty { result ≡ record { graphs = D.circuits decider; facts = []; answered = [] } }
        ensures suits { (ledger : Ledgered) → ledger.asked ≡ [] → ledger.spent ≡ false → Suits result ledger }
    {
        Book {
            decider,
            facts: FactList::new(alloc),
            kept: AnswerMap::new(alloc),
        }
    }

    /// The facts, in the order of their numbers; what else is known is let go. It takes no memory.
    pub fn into_facts(self) -> Items<Fact>
    where
        D: Drop,
        ensures value { result ≡ self.facts }
        ensures lawful { AreFacts self.graphs result }
    {
        self.facts.into_items()
    }

    /// Decides a claim that has no fact.
    fn add_fact(&mut self, alloc: Global, claim: Claim, ledger: &mut Ledger) -> Result<u64, Stop>
        requires placed { IsClaim self.old.graphs claim }
        requires suits { Suits self.old ledger.old }
        requires missing { All (λ fact. fact.claim ≢ claim) self.old.facts }
        ensures { Claims claim self.old self.new ledger.old ledger.new result }
    {
        self.decider.at(Stage::Deciding {
            claims: self.facts.as_slice().len() as u64,
        });
        let evidence = self.decider.evidence(alloc, &claim, ledger)?;
        let number = self.facts.add(Fact { claim, evidence })?;
        Ok(number)
    }

    /// The answer of the query of a matching's output for a value.
    fn answer(
        &mut self,
        alloc: Global,
        matching: &Matching,
        output: u32,
        value: bool,
        ledger: &mut Ledger,
    ) -> Result<Answer, Stop>
        requires ports { HavePorts self.old.graphs.first self.old.graphs.second
            matching.now.inputs matching.now.outputs }
        requires output { output < length self.old.graphs.first.outputs }
        requires suits { Suits self.old ledger.old }
        ensures serves { Serves self.old self.new ledger.old ledger.new result }
        ensures answer { IfOk result
            (IsAnswer self.old.graphs (match_query self.old.graphs.first.inputs matching.now output value)) }
    {
        let query = of_match(alloc, self.decider.graphs(), matching, output, value)?;
        match self.kept.get(&query) {
            Some(answer) => Ok(copied(alloc, answer)?),
            None => self.ask_new(alloc, query, ledger),
        }
    }

    /// Compares an output of which a log refutes that it can be true and differ.
    fn compare_false(
        &mut self,
        alloc: Global,
        matching: &Matching,
        output: u32,
        of_true: Log,
        ledger: &mut Ledger,
    ) -> Result<Compared, Stop>
        requires ports { HavePorts self.old.graphs.first self.old.graphs.second
            matching.now.inputs matching.now.outputs }
        requires output { output < length self.old.graphs.first.outputs }
        requires suits { Suits self.old ledger.old }
        requires log { IsRefutation (formula_of self.old.graphs
            (match_query self.old.graphs.first.inputs matching.now output true)) of_true.lines }
        ensures { Compares matching.now output self.old self.new ledger.old ledger.new result }
    {
        match self.answer(alloc, matching, output, false, ledger)? {
            Answer::Vector(vector) => Ok(Compared::Differs(Bits::from_slice(alloc, &vector)?)),
            Answer::Refuted(of_false) => Ok(Compared::Same(of_true, of_false)),
        }
    }

    /// Asks a query that wasn't answered.
    fn ask_new(&mut self, alloc: Global, query: Query, ledger: &mut Ledger) -> Result<Answer, Stop>
        requires fits { IsQuery self.old.graphs query }
        requires of_match { IsOfMatch self.old.graphs query }
        requires missing { IsAnswered self.old query → ⊥ }
        requires suits { Suits self.old ledger.old }
        ensures serves { Serves self.old self.new ledger.old ledger.new result }
        ensures answer { IfOk result (IsAnswer self.old.graphs query) }
    {
        let answer = self.decider.answer_to(alloc, &query, ledger)?;
        let copy = copied(alloc, &answer)?;
        self.kept.add(query, answer)?;
        Ok(copy)
    }
}

impl<D: Decide> Oracle for Book<D> {
    ghost known = { λ book. book };

    fn claim(&mut self, alloc: Global, claim: Claim, ledger: &mut Ledger) -> Result<u64, Stop> {
        match self.facts.number_of(&claim) {
            Some(number) => Ok(number),
            None => self.add_fact(alloc, claim, ledger),
        }
    }

    fn compare(
        &mut self,
        alloc: Global,
        matching: &Matching,
        output: u32,
        ledger: &mut Ledger,
    ) -> Result<Compared, Stop> {
        match self.answer(alloc, matching, output, true, ledger)? {
            Answer::Vector(vector) => Ok(Compared::Differs(Bits::from_slice(alloc, &vector)?)),
            Answer::Refuted(log) => self.compare_false(alloc, matching, output, log, ledger),
        }
    }

    fn facts(&self) -> &[Fact] {
        self.facts.as_slice()
    }

    fn at(&self, stage: Stage) {
        self.decider.at(stage)
    }
}
