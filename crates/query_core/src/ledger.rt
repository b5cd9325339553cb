//! What was asked in a run, and the budget of learned lines.

ghost use Rattle.std.specs.Prelude.{◌≡◌, ◌+◌, ◌-◌, ◌<◌, ◌≤◌, [], ◌∷◌, ◌++◌, false, IfOk, IfErr, OnOk, OnErr, All};
ghost use Rattle.std.specs.Prelude.{length, vec_len, vec_capacity};
ghost use Rattle.query_core.specs.Ledgers.{IsRefused, charged_front, charged_lines, entry_of, last_asked, learned_in};
ghost use Rattle.query_core.specs.Ledgers.{opened};
ghost use Rattle.query_core.specs.Ledgers.{with_line};
ghost use Rattle.text_core.specs.Extends.{Extends};
ghost use Rattle.line_codec.specs.LineBytes.{IsOfWords, line_bytes};

use crate::asked_query::AskedQuery;
use crate::charged::ChargedLines;
use crate::lines::Lines;
use claim_core::Query;
use cnf_core::{Charge, LogLine, Stop};
use line_codec::put_line;
use std::alloc::{AllocError, Global};
use std::marker::Model;

/// A query that was asked, with the lines that were derived for it: first lemmas, which cost nothing, then learned
/// lines.
#[derive(Debug, Drop)]
pub struct Asked {
    pub query: AskedQuery,
    /// How many of the lines are lemmas.
    pub lemmas: u64,
    pub lines: Lines,
}

/// Everything that was asked in a run, in order, with every line that was learned. A learned line costs one unit of the
/// budget. The line that is met with the budget spent is kept as the last one, and isn't counted.
///
/// The lines that were charged, the refused one among them, can be read ([`charged_lines`](Ledger::charged_lines)):
/// each stands once, in one arena. Lemmas have no bytes: there may be millions, each for nothing; those of joint
/// hashing can be made again, and the others are charged lines of earlier entries, derived there by other hints.
#[derive(Debug)]
pub struct Ledger {
    budget: u64,
    asked: Vec<Asked>,
    learned: u64,
    spent: bool,
    /// The bytes of the lines that were charged.
    arena: Vec<u8>,
}

impl Model for Ledger {
    ghost use Rattle.query_core.specs.Ledgers.{Ledgered, IsLedger};

    ghost Value = { Ledgered };

    ghost view = { λ a. record { budget = a.budget; asked = a.asked.items; spent = a.spent } };

    ghost invariant = { λ a.
        IsLedger (record { budget = a.budget; asked = a.asked.items; spent = a.spent }) a.learned a.arena.items };
}

// By hand, so that each exit of a function has one call for it (docs/IDIOMS.md).
impl Drop for Ledger {
    fn drop(self) {
        let Ledger {
            budget: _budget,
            asked: _asked,
            learned: _learned,
            spent: _spent,
            arena: _arena,
        } = self;
    }
}

impl Ledger {
    /// Nothing was asked.
    pub fn new(alloc: Global, budget: u64) -> Ledger
        ensures { result ≡ record { budget = budget; asked = []; spent = false } }
    {
        Ledger {
            budget,
            asked: Vec::new(alloc),
            learned: 0,
            spent: false,
            arena: Vec::new(alloc),
        }
    }

    /// Adds a query, whose lines are so far its lemmas. It takes the place of a last query for which nothing was
    /// learned. A refusal changes nothing.
    pub fn open(
        &mut self,
        alloc: Global,
        query: &Query,
        lemmas: &[LogLine],
    ) -> Result<(), AllocError>
        requires { self.old.spent ≡ false }
        ensures opened { OnOk result (self.new
            ≡ record self.old { asked = opened query.now lemmas.now self.old.asked }) }
        ensures some { OnOk result (0 < length self.new.asked) }
        ensures last { OnOk result (last_asked self.new.asked ≡ entry_of query.now lemmas.now) }
        ensures refused { OnErr result (self.new ≡ self.old) }
    {
        let entry = opening(alloc, query, lemmas)?;
        self.asked.reserve(1)?;
        drop_uncharged(&mut self.asked);
        self.asked.push_reserved(entry);
        Ok(())
    }

    /// Adds a learned line to the last query, for one unit of the budget. Where the budget is spent, the line is kept
    /// as the refused one. Running out of memory changes nothing.
    pub fn charge(&mut self, line: &LogLine) -> Result<(), Stop>
        requires asked { 0 < length self.old.asked }
        requires not_spent { self.old.spent ≡ false }
        ensures within { OnOk result (learned_in self.old < self.old.budget) }
        ensures counted { OnOk result (learned_in self.new ≡ learned_in self.old + 1) }
        ensures charged { OnOk result (self.new
            ≡ record self.old { asked = with_line line.now self.old.asked }) }
        ensures refused { IfErr result (IsRefused self.old line.now self.new) }
    {
        push_learned(&mut self.asked, &mut self.arena, line)?;
        if self.learned == self.budget {
            self.spent = true;
            return Err(Stop::Spent(self.learned));
        }
        self.learned += 1;
        Ok(())
    }

    /// How many lines were learned, without a refused one.
    pub fn learned(&self) -> u64
        ensures value { result ≡ learned_in self.now }
        ensures within { result ≤ self.now.budget }
    {
        self.learned
    }

    /// How many lines may be learned.
    pub fn budget(&self) -> u64
        ensures { result ≡ self.now.budget }
    {
        self.budget
    }

    /// Whether the last line was refused.
    pub fn spent(&self) -> bool
        ensures { result ≡ self.now.spent }
    {
        self.spent
    }

    /// What was asked, in order.
    pub fn asked(&self) -> &[Asked]
        ensures value { result.now ≡ self.now.asked }
        ensures lemmas { All (λ entry. entry.lemmas ≤ length entry.lines) self.now.asked }
    {
        self.asked.as_slice()
    }

    /// Goes over the lines that were charged, those of one entry after those of the entry before it; a refused one is
    /// the last. Of each entry there are as many as it has lines after its lemmas. Hints may name a lemma by its
    /// number.
    pub fn charged_lines(&self) -> ChargedLines<'_>
        ensures { result ≡ charged_lines self.now.asked }
    {
        ChargedLines::new(self.arena.as_slice(), self.asked.as_slice())
    }
}

impl Charge for Ledger {
    ghost use Rattle.std.specs.Prelude.{List};
    ghost use Rattle.query_core.specs.declared.ledger.Asked.{Asked as AnyAsked};
    ghost use Rattle.query_core.specs.Ledgers.{charging_of};

    ghost Others = { List AnyAsked };

    ghost charging = { charging_of };

    fn charge(&mut self, line: &LogLine) -> Result<(), Stop> {
        Ledger::charge(self, line)
    }
}

// The entry of a query, whose lines are its lemmas.
fn opening(alloc: Global, query: &Query, lemmas: &[LogLine]) -> Result<Asked, AllocError>
    ensures { IfOk result (λ entry. entry ≡ entry_of query.now lemmas.now) }
{
    let lines = Lines::of(alloc, lemmas)?;
    Ok(Asked {
        query: AskedQuery::of(query),
        lemmas: lemmas.len() as u64,
        lines,
    })
}

// Takes a last entry off for which nothing was learned.
fn drop_uncharged(asked: &mut Vec<Asked>)
    ensures entries { asked.new.items ≡ charged_front asked.old.items }
    ensures room { vec_len asked.new + (vec_capacity asked.old - vec_len asked.old) ≤ vec_capacity asked.new }
{
    let Some(last) = asked.last() else {
        return;
    };
    if last.lines.len() as u64 == last.lemmas {
        let _ = asked.pop();
    }
}

// Adds a line to the last entry, and its bytes. A refusal changes nothing.
fn push_learned(asked: &mut Vec<Asked>, arena: &mut Vec<u8>, line: &LogLine) -> Result<(), Stop>
    requires { 0 < length asked.old.items }
    ensures pushed { OnOk result (asked.new.items ≡ with_line line.now asked.old.items) }
    ensures coded { OnOk result (arena.new.items ≡ arena.old.items ++ line_bytes line.now) }
    ensures words { OnOk result (IsOfWords line.now) }
    ensures refused { OnErr result (asked.new.items ≡ asked.old.items) }
    ensures arena { OnErr result (arena.new.items ≡ arena.old.items) }
    ensures stop { IfErr result (λ stop. stop ≡ Stop.Memory) }
{
    let before = arena.len();
    match push_both(asked, arena, line) {
        Ok(()) => Ok(()),
        Err(stop) => {
            arena.truncate(before);
            Err(stop)
        }
    }
}

// Adds a line and its bytes, of which a refusal may leave a part.
fn push_both(asked: &mut Vec<Asked>, arena: &mut Vec<u8>, line: &LogLine) -> Result<(), Stop>
    requires { 0 < length asked.old.items }
    ensures pushed { OnOk result (asked.new.items ≡ with_line line.now asked.old.items) }
    ensures coded { OnOk result (arena.new.items ≡ arena.old.items ++ line_bytes line.now) }
    ensures words { OnOk result (IsOfWords line.now) }
    ensures refused { OnErr result (asked.new.items ≡ asked.old.items) }
    ensures kept { Extends arena.old.items arena.new.items }
    ensures stop { IfErr result (λ stop. stop ≡ Stop.Memory) }
{
    put_line(line, arena)?;
    push_last(asked, line)
}

// Adds a line to the last entry. A refusal changes nothing.
fn push_last(asked: &mut Vec<Asked>, line: &LogLine) -> Result<(), Stop>
    requires { 0 < length asked.old.items }
    ensures pushed { OnOk result (asked.new.items ≡ with_line line.now asked.old.items) }
    ensures refused { OnErr result (asked.new.items ≡ asked.old.items) }
    ensures stop { IfErr result (λ stop. stop ≡ Stop.Memory) }
{
    let last = asked.len() - 1;
    push_line(&mut asked[last], line)?;
    Ok(())
}

// Adds a line to an entry. A refusal changes nothing.
fn push_line(entry: &mut Asked, line: &LogLine) -> Result<(), Stop>
    ensures pushed { OnOk result (entry.new ≡ record entry.old { lines = entry.old.lines ++ line.now ∷ [] }) }
    ensures refused { OnErr result (entry.new ≡ entry.old) }
    ensures stop { IfErr result (λ stop. stop ≡ Stop.Memory) }
{
    entry.lines.push(line)?;
    Ok(())
}
