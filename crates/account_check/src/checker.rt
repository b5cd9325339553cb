//! The checker of an account.

ghost use Rattle.std.specs.Prelude.{◌≡◌, ◌≢◌, ◌↔◌, IsOk, IsSome, IfOk, OnOk, OnErr, Ok, Err, None, Some};
ghost use Rattle.circuits.specs.Matches.{IsMatchOfFunctions};
ghost use Rattle.account_core.specs.declared.conclusion.Conclusion.TheVariants as conclusion;
ghost use Rattle.account_core.specs.declared.fact.FactHead.TheVariants as head;
ghost use Rattle.account_file.specs.Order.{next_place};
ghost use Rattle.account_check.specs.Accounts.{after, empty_account, verdict_of, HasFault, Takes};
ghost use Rattle.account_check.specs.Stages.{IsStage};
ghost use Rattle.account_file.specs.declared.place.Place.TheVariants as place;
ghost use Rattle.account_file.specs.declared.record.Record.TheVariants as entry;
ghost use Rattle.account_check.specs.declared.reject.RecordStop.TheVariants as stop;
ghost use Rattle.account_check.specs.declared.reject.Reject.{Reject as AnyReject};
ghost use Rattle.account_check.specs.declared.verdict.Verdict.TheVariants as verdict;
ghost use Rattle.net_core.specs.declared.matching.Matching.{Matching as AnyMatching};

use crate::bans::test_ban;
use crate::dropped::Dropped;
use crate::fact_log::FactLog;
use crate::fact_logs::FactLogs;
use crate::facts::{test_fails, test_holds};
use crate::logs::Logs;
use crate::pairs::{matching, test_drop_ban, test_drop_fact, test_empty_ban, test_ports};
use crate::reject::RecordStop;
use crate::verdict::Verdict;
use account_core::{Ban, Conclusion, FactHead};
use account_file::Record;
use ban_check::{Evaluator, Given};
use bit_list::Bits;
use circuits::Pair;
use claim_core::Claim;
use cnf_core::LogLine;
use items::Items;
use net_core::{Graphs, Matching};
use std::alloc::{AllocError, Global};
use std::marker::Model;
use std::mem;

/// How far an account has come.
#[derive(Drop)]
pub(crate) enum CheckStage<'a> {
    /// No record was taken.
    Empty,
    /// Facts, bans or a conclusion may come.
    Begun,
    /// A claim was said to hold, and lines of its log come.
    Showing(FactLog<'a>),
    /// The account concluded in a match, and lines of its logs come, or the end.
    Proving(Logs<'a>),
    /// The account concluded that there is no match, and its end comes.
    Refusing,
    /// The account has ended with a match.
    Proved(Logs<'a>),
    /// The account has ended with no match.
    Refused,
}

/// Takes an account of two circuits record by record: the header; facts, each that holds with its log, and bans; a
/// conclusion, which for a match has two logs for each of its outputs; the end.
pub struct Checker<'a> {
    evaluator: Evaluator<'a>,
    given: Given,
    dropped: Dropped,
    facts: FactLogs<'a>,
    stage: CheckStage<'a>,
}

impl<'a> Model for Checker<'a> {
    ghost use Rattle.account_check.specs.Accounts.{Account};
    ghost use Rattle.account_check.specs.Stages.{concluded_of, fact_of, place_of, proof_of, IsChecker};

    ghost Value = { Account };

    ghost view = { λ a. record {
      graphs = a.evaluator;
      place = place_of a.stage;
      given = a.given;
      dropped = a.dropped;
      fact = fact_of a.stage;
      proof = proof_of a.stage;
      concluded = concluded_of a.stage;
    } };

    ghost invariant = { λ a. IsChecker a.evaluator a.stage a.facts };
}

// By hand, so that each exit of a function has one call for it (docs/IDIOMS.md).
impl Drop for Checker<'_> {
    fn drop(self) {
        let Checker {
            evaluator: _evaluator,
            given: _given,
            dropped: _dropped,
            facts: _facts,
            stage: _stage,
        } = self;
    }
}

impl<'a> Checker<'a> {
    /// No record was taken.
    pub fn new(alloc: Global, graphs: &'a Graphs<'a>) -> Result<Checker<'a>, AllocError>
        ensures { IfOk result (λ checker. checker ≡ empty_account graphs.now) }
    {
        Ok(Checker {
            evaluator: Evaluator::new(alloc, graphs),
            given: Given::new(alloc),
            dropped: Dropped::new(alloc),
            facts: FactLogs::new(graphs),
            stage: CheckStage::Empty,
        })
    }

    /// Takes a record that may stand after the others, exactly where nothing is wrong with it, unless out of memory.
    /// What is refused changes nothing, nor does running out of memory.
    pub fn record(&mut self, alloc: Global, entry: &Record) -> Result<(), RecordStop>
        requires { IsSome (next_place self.old.place entry.now) }
        ensures refused { (reject : AnyReject) → result ≢ Err stop.Memory
            → ((result ≡ Err (stop.Reject reject)) ↔ HasFault self.old entry.now (Some reject)) }
        ensures taken { result ≢ Err stop.Memory → (IsOk result ↔ HasFault self.old entry.now None) }
        ensures after { OnOk result (self.new ≡ after self.old entry.now) }
        ensures unchanged { OnErr result (self.new ≡ self.old) }
    {
        self.take(alloc, entry)
    }

    /// What the account proves: nothing before its end, and then that pairs are a match, or that there is no match.
    pub fn verdict(&self, alloc: Global) -> Result<Option<Verdict>, AllocError>
        ensures value { IfOk result (λ verdict. verdict ≡ verdict_of self.now) }
        ensures ended { IfOk result (λ verdict. IsSome verdict ↔ (self.now.place ≡ place.Ended)) }
        ensures proved { (matching : AnyMatching) → verdict_of self.now ≡ Some (verdict.Match matching)
            → IsMatchOfFunctions self.now.graphs.first self.now.graphs.second matching.inputs matching.outputs }
    {
        match &self.stage {
            CheckStage::Proved(logs) => Ok(Some(Verdict::Match(copy(alloc, logs.matching())?))),
            CheckStage::Refused => Ok(Some(Verdict::None)),
            _ => Ok(None),
        }
    }

    /// Takes a record that may stand after the others, or refuses it.
    pub(crate) fn take(&mut self, alloc: Global, entry: &Record) -> Result<(), RecordStop>
        requires { IsSome (next_place self.old.place entry.now) }
        ensures { Takes self.old entry.now self.new result }
    {
        match entry {
            Record::Header => {
                go_to(&mut self.stage, CheckStage::Begun);
                Ok(())
            }
            Record::Fact(head) => self.fact(alloc, head),
            Record::Line(line) => self.line(alloc, line),
            Record::Ban(ban) => self.ban(alloc, ban),
            Record::Conclusion(conclusion) => self.conclude(alloc, conclusion),
            Record::DropFact(fact) => self.drop_fact(*fact),
            Record::DropBan(ban) => self.drop_ban(*ban),
            Record::End => {
                self.end();
                Ok(())
            }
        }
    }

    // Takes a fact.
    fn fact(&mut self, alloc: Global, head: &FactHead) -> Result<(), RecordStop>
        requires { IsSome (next_place self.old.place (entry.Fact head.now)) }
        ensures { Takes self.old (entry.Fact head.now) self.new result }
    {
        match head {
            FactHead::Fails { claim, bits } => self.fails(alloc, claim, bits),
            FactHead::Holds { claim } => self.holds(alloc, claim),
        }
    }

    // Takes a claim that fails.
    fn fails(&mut self, alloc: Global, claim: &Claim, bits: &Bits) -> Result<(), RecordStop>
        requires { IsSome (next_place self.old.place (entry.Fact (head.Fails claim.now bits.now))) }
        ensures { Takes self.old (entry.Fact (head.Fails claim.now bits.now)) self.new result }
    {
        if let Some(reject) = test_fails(alloc, &mut self.evaluator, claim, bits)? {
            return Err(RecordStop::Reject(reject));
        }
        self.given.add_fact(*claim, false)?;
        Ok(())
    }

    // Takes a claim that holds, whose log follows.
    fn holds(&mut self, alloc: Global, claim: &Claim) -> Result<(), RecordStop>
        requires { IsSome (next_place self.old.place (entry.Fact (head.Holds claim.now))) }
        ensures { Takes self.old (entry.Fact (head.Holds claim.now)) self.new result }
    {
        let graphs = self.evaluator.graphs();
        if let Some(reject) = test_holds(graphs, claim) {
            return Err(RecordStop::Reject(reject));
        }
        let log = self.facts.open(alloc, claim)?;
        go_to(&mut self.stage, CheckStage::Showing(log));
        Ok(())
    }

    // Takes a line of the open log.
    fn line(&mut self, alloc: Global, line: &LogLine) -> Result<(), RecordStop>
        requires { IsSome (next_place self.old.place (entry.Line line.now)) }
        ensures { Takes self.old (entry.Line line.now) self.new result }
    {
        if let CheckStage::Showing(_) = &self.stage {
            return self.fact_line(alloc, line);
        }
        self.match_line(alloc, line)
    }

    // Takes a line of a fact's log. After the empty line the fact is given.
    fn fact_line(&mut self, alloc: Global, line: &LogLine) -> Result<(), RecordStop>
        requires { self.old.place ≡ place.FactLog }
        ensures { Takes self.old (entry.Line line.now) self.new result }
    {
        let CheckStage::Showing(log) = &mut self.stage else {
            unreachable!()
        };
        if !line.clause.is_empty() {
            return log.line(alloc, line);
        }
        self.given.add_fact(log.claim(), true)?;
        if let Err(stop) = log.line(alloc, line) {
            self.given.forget_fact();
            return Err(stop);
        }
        close_fact(&mut self.stage, &mut self.facts);
        Ok(())
    }

    // Takes a line of a match's logs.
    fn match_line(&mut self, alloc: Global, line: &LogLine) -> Result<(), RecordStop>
        requires place { IsSome (next_place self.old.place (entry.Line line.now)) }
        requires other { self.old.place ≢ place.FactLog }
        ensures { Takes self.old (entry.Line line.now) self.new result }
    {
        let CheckStage::Proving(logs) = &mut self.stage else {
            unreachable!()
        };
        logs.line(alloc, line)
    }

    // Takes a ban.
    fn ban(&mut self, alloc: Global, ban: &Ban) -> Result<(), RecordStop>
        requires { IsSome (next_place self.old.place (entry.Ban ban.now)) }
        ensures { Takes self.old (entry.Ban ban.now) self.new result }
    {
        if let Some(reject) = test_ban(
            alloc,
            &mut self.evaluator,
            &self.given,
            &self.dropped,
            ban,
        )? {
            return Err(RecordStop::Reject(reject));
        }
        self.given.add_ban(alloc, &ban.pairs)?;
        Ok(())
    }

    // Takes a conclusion. Of a match the logs follow.
    fn conclude(&mut self, alloc: Global, conclusion: &Conclusion) -> Result<(), RecordStop>
        requires { IsSome (next_place self.old.place (entry.Conclusion conclusion.now)) }
        ensures { Takes self.old (entry.Conclusion conclusion.now) self.new result }
    {
        match conclusion {
            Conclusion::NonePorts => self.conclude_by_ports(),
            Conclusion::NoneBan(ban) => self.conclude_by_ban(*ban),
            Conclusion::Match(pairs) => self.conclude_match(alloc, pairs),
        }
    }

    // Takes the conclusion that there is no match since the circuits differ in their numbers of ports.
    fn conclude_by_ports(&mut self) -> Result<(), RecordStop>
        requires { IsSome (next_place self.old.place (entry.Conclusion conclusion.NonePorts)) }
        ensures { Takes self.old (entry.Conclusion conclusion.NonePorts) self.new result }
    {
        if let Some(reject) = test_ports(self.evaluator.graphs()) {
            return Err(RecordStop::Reject(reject));
        }
        go_to(&mut self.stage, CheckStage::Refusing);
        Ok(())
    }

    // Takes the conclusion that there is no match since a ban has no pairs.
    fn conclude_by_ban(&mut self, ban: u64) -> Result<(), RecordStop>
        requires { IsSome (next_place self.old.place (entry.Conclusion (conclusion.NoneBan ban))) }
        ensures { Takes self.old (entry.Conclusion (conclusion.NoneBan ban)) self.new result }
    {
        if let Some(reject) = test_empty_ban(
            self.evaluator.graphs(),
            &self.given,
            &self.dropped,
            ban,
        ) {
            return Err(RecordStop::Reject(reject));
        }
        go_to(&mut self.stage, CheckStage::Refusing);
        Ok(())
    }

    // Takes a match, whose logs follow.
    fn conclude_match(&mut self, alloc: Global, pairs: &[Pair]) -> Result<(), RecordStop>
        requires { IsSome (next_place self.old.place (entry.Conclusion (conclusion.Match pairs.now))) }
        ensures { Takes self.old (entry.Conclusion (conclusion.Match pairs.now)) self.new result }
    {
        let graphs = self.evaluator.graphs();
        let matching = matching(alloc, graphs, pairs)?;
        let logs = Logs::new(alloc, graphs, matching)?;
        go_to(&mut self.stage, CheckStage::Proving(logs));
        Ok(())
    }

    // Takes a drop of a fact.
    fn drop_fact(&mut self, fact: u64) -> Result<(), RecordStop>
        requires { IsSome (next_place self.old.place (entry.DropFact fact)) }
        ensures { Takes self.old (entry.DropFact fact) self.new result }
    {
        let graphs = self.evaluator.graphs();
        if let Some(reject) = test_drop_fact(graphs, &self.given, &self.dropped, fact) {
            return Err(RecordStop::Reject(reject));
        }
        self.dropped.drop_fact(fact)?;
        Ok(())
    }

    // Takes a drop of a ban, whose pairs are forgotten.
    fn drop_ban(&mut self, ban: u64) -> Result<(), RecordStop>
        requires { IsSome (next_place self.old.place (entry.DropBan ban)) }
        ensures { Takes self.old (entry.DropBan ban) self.new result }
    {
        let graphs = self.evaluator.graphs();
        if let Some(reject) = test_drop_ban(graphs, &self.given, &self.dropped, ban) {
            return Err(RecordStop::Reject(reject));
        }
        self.dropped.drop_ban(ban)?;
        self.given.forget_ban(ban);
        Ok(())
    }

    // Ends an account whose logs are all closed.
    fn end(&mut self)
        requires { IsSome (next_place self.old.place entry.End) }
        ensures { self.new ≡ after self.old entry.End }
    {
        match mem::replace(&mut self.stage, CheckStage::Empty) {
            CheckStage::Proving(logs) => go_to(&mut self.stage, CheckStage::Proved(logs)),
            CheckStage::Refusing => go_to(&mut self.stage, CheckStage::Refused),
            _ => unreachable!(),
        }
    }
}

// Closes the log of a fact.
fn close_fact<'a>(stage: &mut CheckStage<'a>, facts: &mut FactLogs<'a>)
    requires { IsStage facts.old stage.old }
    ensures begun { stage.new ≡ CheckStage.Begun }
    ensures facts { facts.new ≡ facts.old }
{
    match mem::replace(stage, CheckStage::Begun) {
        CheckStage::Showing(log) => facts.close(log),
        _ => {}
    }
}

// Puts an account at another stage.
fn go_to<'a>(stage: &mut CheckStage<'a>, next: CheckStage<'a>)
    ensures { stage.new ≡ next.entry }
{
    *stage = next;
}

// An equal matching.
fn copy(alloc: Global, matching: &Matching) -> Result<Matching, AllocError>
    ensures { IfOk result (λ copy. copy ≡ matching.now) }
{
    Ok(Matching {
        inputs: Items::from_slice(alloc, &matching.inputs)?,
        outputs: Items::from_slice(alloc, &matching.outputs)?,
    })
}
