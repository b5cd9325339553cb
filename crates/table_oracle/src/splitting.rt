//! Refutation of a query by splitting on one input after the other.

ghost use Rattle.std.specs.Prelude.{◌≡◌, ◌+◌, ◌<◌, ◌≤◌, ◌++◌, ◌∷◌, [], List, false, true, None, IfOk, IfErr, IfSome};
ghost use Rattle.std.specs.Prelude.{IfNone, OnOk, length, map};
ghost use Rattle.cnf_core.specs.declared.literal.SatLit.{SatLit as AnyLiteral};
ghost use Rattle.cnf_core.specs.Clauses.{opposite};
ghost use Rattle.cnf_core.specs.Derivations.{IsRefutation, hint_fault, has_all};
ghost use Rattle.claim_core.specs.Formulas.{formula_of, query_clauses};
ghost use Rattle.cnf_core.specs.Charges.{IsCharged, IsRefused};
ghost use Rattle.query_core.specs.Ledgers.{charging_of};
ghost use Rattle.claim_core.specs.Queries.{IsQuery, IsUnmet, bits_in};
ghost use Rattle.learn_solver.specs.Searches.{last_line};
ghost use Rattle.learn_solver.specs.Solvers.{IsAsking, IsExtended, IsStopped as IsHalted};
ghost use Rattle.fact_tests.specs.Asking.{Decides};
ghost use Rattle.table_oracle.specs.Splits.{AllExcluded, IsBeginning, IsClosed, IsCovering, IsExcluded, IsNew};
ghost use Rattle.table_oracle.specs.Splits.{IsSplitting, clauses_in, excluding, solving_of};

use crate::clauses::has_all;
use crate::vectors::vector_of;
use claim_core::Query;
use cnf_core::{Base, Charge, Effect, Log, LogLine, SatLit, ShortAssignment, Stop, effect_of};
use items::Items;
use net_core::Graphs;
use query_core::{Ledger, QueryBase};
use std::alloc::{AllocError, Global};

/// Refutes a query that no vector meets. The vectors are excluded by the bits that they begin with: first all bits,
/// then all but the last, and at last none. What an earlier clause excludes costs no line; each other beginning costs
/// one, which follows from the clauses that exclude both ways to go on, or gate by gate where it has all bits.
pub(crate) fn refute(
    alloc: Global,
    graphs: &Graphs<'_>,
    query: &Query,
    ledger: &mut Ledger,
) -> Result<Log, Stop>
    requires fits { IsQuery graphs.now query.now }
    requires small { bits_in graphs.now query.now ≤ 12 }
    requires unmet { IsUnmet graphs.now query.now }
    requires unspent { ledger.old.spent ≡ false }
    ensures { Decides (λ log. IsRefutation (formula_of graphs.now query.now) log.lines)
        graphs.now query.now ledger.old ledger.new result }
{
    // the gates of a graph are in order, and its ports fewer than 2^32
    let _first = graphs.first();
    let _second = graphs.second();
    let splitting = Splitting {
        base: QueryBase::new(alloc, graphs, query)?,
        inputs: query.left.feed.len(),
    };
    ledger.open(alloc, query, &[])?;
    let mut lines = Vec::new(alloc);
    splitting.exclude_all(alloc, &mut lines, ledger)?;
    Ok(Log {
        lines: Items::from_vec(lines),
    })
}

/// A query that no vector meets, and how many bits its vectors have.
#[derive(Drop)]
struct Splitting<'a> {
    base: QueryBase<'a>,
    inputs: usize,
}

impl<'a> Splitting<'a> {
    /// Excludes all vectors.
    fn exclude_all(
        &self,
        alloc: Global,
        lines: &mut Vec<LogLine>,
        ledger: &mut Ledger,
    ) -> Result<(), Stop>
        requires splitting { IsSplitting self.now }
        requires asking { IsAsking (charging_of ledger.old) lines.old.items }
        ensures extended { OnOk result (IsExtended (solving_of self.now.base lines.old.items)
            (solving_of self.now.base lines.new.items) (charging_of ledger.old) (charging_of ledger.new)) }
        ensures asking { OnOk result (IsAsking (charging_of ledger.new) lines.new.items) }
        ensures excluded { OnOk result (AllExcluded (clauses_in self.now.base lines.new.items) 0) }
        ensures stop { IfErr result (IsHalted (solving_of self.now.base lines.old.items)
            (solving_of self.now.base lines.new.items) (charging_of ledger.old) (charging_of ledger.new)) }
    {
        let mut bits = self.inputs;
        self.exclude_of(alloc, bits, lines, ledger)?;
        while bits > 0 {
            bits -= 1;
            self.exclude_of(alloc, bits, lines, ledger)?;
        }
        Ok(())
    }

    /// Excludes all beginnings of n bits.
    fn exclude_of(
        &self,
        alloc: Global,
        bits: usize,
        lines: &mut Vec<LogLine>,
        ledger: &mut Ledger,
    ) -> Result<(), Stop>
        requires splitting { IsSplitting self.now }
        requires asking { IsAsking (charging_of ledger.old) lines.old.items }
        requires within { bits ≤ self.now.inputs }
        requires closed { bits < self.now.inputs → AllExcluded (clauses_in self.now.base lines.old.items) (bits + 1) }
        ensures extended { OnOk result (IsExtended (solving_of self.now.base lines.old.items)
            (solving_of self.now.base lines.new.items) (charging_of ledger.old) (charging_of ledger.new)) }
        ensures asking { OnOk result (IsAsking (charging_of ledger.new) lines.new.items) }
        ensures excluded { OnOk result (AllExcluded (clauses_in self.now.base lines.new.items) bits) }
        ensures stop { IfErr result (IsHalted (solving_of self.now.base lines.old.items)
            (solving_of self.now.base lines.new.items) (charging_of ledger.old) (charging_of ledger.new)) }
    {
        for code in 0..1u32 << bits {
            let beginning = vector_of(alloc, bits, code)?;
            self.exclude(alloc, &beginning, lines, ledger)?;
        }
        Ok(())
    }

    /// Excludes the vectors that begin with these bits.
    fn exclude(
        &self,
        alloc: Global,
        bits: &[bool],
        lines: &mut Vec<LogLine>,
        ledger: &mut Ledger,
    ) -> Result<(), Stop>
        requires splitting { IsSplitting self.now }
        requires asking { IsAsking (charging_of ledger.old) lines.old.items }
        requires beginning { IsBeginning self.now lines.old.items bits.now }
        ensures extended { OnOk result (IsExtended (solving_of self.now.base lines.old.items)
            (solving_of self.now.base lines.new.items) (charging_of ledger.old) (charging_of ledger.new)) }
        ensures asking { OnOk result (IsAsking (charging_of ledger.new) lines.new.items) }
        ensures excluded { OnOk result (IsExcluded (clauses_in self.now.base lines.new.items) bits.now) }
        ensures stop { IfErr result (IsHalted (solving_of self.now.base lines.old.items)
            (solving_of self.now.base lines.new.items) (charging_of ledger.old) (charging_of ledger.new)) }
    {
        let clause = excluding(alloc, bits)?;
        if self.covering(lines, &clause).is_some() {
            return Ok(());
        }
        let hints = self.hints(alloc, bits, lines)?;
        lines.push(LogLine { clause, hints })?;
        charge_last(lines, ledger)
    }

    /// Hints that derive the clause that excludes these bits.
    fn hints(
        &self,
        alloc: Global,
        bits: &[bool],
        lines: &[LogLine],
    ) -> Result<Items<u64>, AllocError>
        requires splitting { IsSplitting self.now }
        requires beginning { IsBeginning self.now lines.now bits.now }
        requires new { IsNew (clauses_in self.now.base lines.now) (excluding bits.now) }
        ensures { IfOk result (λ hints.
            hint_fault (clauses_in self.now.base lines.now) (map opposite (excluding bits.now)) hints ≡ None) }
    {
        if bits.len() < self.inputs {
            return self.hints_by_halves(alloc, bits, lines);
        }
        self.hints_by_gates(alloc, bits)
    }

    /// Hints by the clauses that exclude both ways to go on: one leaves the next input 1, and then the other is a
    /// conflict.
    fn hints_by_halves(
        &self,
        alloc: Global,
        bits: &[bool],
        lines: &[LogLine],
    ) -> Result<Items<u64>, AllocError>
        requires small { length bits.now < 12 }
        requires closed { IsClosed (clauses_in self.now.base lines.now) bits.now }
        requires new { IsNew (clauses_in self.now.base lines.now) (excluding bits.now) }
        ensures { IfOk result (λ hints.
            hint_fault (clauses_in self.now.base lines.now) (map opposite (excluding bits.now)) hints ≡ None) }
    {
        let mut hints = Items::new(alloc);
        hints.push(self.covering_longer(alloc, bits, false, lines)?)?;
        hints.push(self.covering_longer(alloc, bits, true, lines)?)?;
        Ok(hints)
    }

    /// The clause that excludes the vectors that begin with these bits and one more.
    fn covering_longer(
        &self,
        alloc: Global,
        bits: &[bool],
        bit: bool,
        lines: &[LogLine],
    ) -> Result<u64, AllocError>
        requires small { length bits.now < 12 }
        requires closed { IsClosed (clauses_in self.now.base lines.now) bits.now }
        ensures { IfOk result (IsCovering (clauses_in self.now.base lines.now) (excluding (bits.now ++ bit ∷ []))) }
    {
        let longer = longer_by(alloc, bits, bit)?;
        let clause = excluding(alloc, &longer)?;
        let Some(id) = self.covering(lines, &clause) else {
            unreachable!()
        };
        Ok(id)
    }

    /// Hints by the query's clauses in their order, where all inputs have a bit: gate by gate, up to the output that
    /// hasn't the value that is asked for.
    fn hints_by_gates(&self, alloc: Global, bits: &[bool]) -> Result<Items<u64>, AllocError>
        requires splitting { IsSplitting self.now }
        requires all { length bits.now ≡ self.now.inputs }
        ensures { IfOk result (λ hints. (lines : List (List AnyLiteral))
            → hint_fault (query_clauses self.now.base.graphs self.now.base.query ++ lines)
            (map opposite (excluding bits.now)) hints ≡ None) }
    {
        let clause = excluding(alloc, bits)?;
        let mut made = ShortAssignment::against(alloc, &clause)?;
        let mut hints = Items::new(alloc);
        for id in 0..self.base.count() {
            match effect_of(&made, self.base.clause(id).literals()) {
                Effect::Conflict => {
                    hints.push(id)?;
                    return Ok(hints);
                }
                Effect::Makes(literal) => {
                    made.make(literal)?;
                    hints.push(id)?;
                }
                Effect::Neither => {}
            }
        }
        unreachable!()
    }

    /// The number of a clause that has literals of this one alone.
    fn covering(&self, lines: &[LogLine], clause: &[SatLit]) -> Option<u64>
        ensures found { IfSome result (IsCovering (clauses_in self.now.base lines.now) clause.now) }
        ensures none { IfNone result (IsNew (clauses_in self.now.base lines.now) clause.now) }
    {
        if let Some(id) = self.covering_own(clause) {
            return Some(id);
        }
        let place = covering_line(lines, clause)?;
        Some(self.base.count() + place)
    }

    /// The number of a clause of the query all of whose literals are in this one.
    fn covering_own(&self, clause: &[SatLit]) -> Option<u64>
        ensures found { IfSome result (IsCovering (query_clauses self.now.base.graphs self.now.base.query) clause.now) }
        ensures none { IfNone result (IsNew (query_clauses self.now.base.graphs self.now.base.query) clause.now) }
    {
        for id in 0..self.base.count() {
            if has_all(clause, self.base.clause(id).literals()) {
                return Some(id);
            }
        }
        None
    }
}

/// The place of a line all of whose literals are in this clause.
fn covering_line(lines: &[LogLine], clause: &[SatLit]) -> Option<u64>
    ensures found { IfSome result (IsCovering (map (λ line. line.clause) lines.now) clause.now) }
    ensures none { IfNone result (IsNew (map (λ line. line.clause) lines.now) clause.now) }
{
    for (place, line) in lines.iter().enumerate() {
        if has_all(clause, &line.clause) {
            return Some(place as u64);
        }
    }
    None
}

/// Charges the last line.
fn charge_last(lines: &[LogLine], ledger: &mut Ledger) -> Result<(), Stop>
    requires some { 0 < length lines.now }
    requires opened { (charging_of ledger.old).opened ≡ true }
    requires not_spent { ledger.old.spent ≡ false }
    ensures charged { OnOk result (IsCharged (charging_of ledger.old) (last_line lines.now) (charging_of ledger.new)) }
    ensures refused { IfErr result (IsRefused (charging_of ledger.old) (last_line lines.now) (charging_of ledger.new)) }
{
    let line = &lines[lines.len() - 1];
    Charge::charge(ledger, line)
}

/// The clause that excludes the vectors that begin with these bits.
fn excluding(alloc: Global, bits: &[bool]) -> Result<Items<SatLit>, AllocError>
    requires { length bits.now ≤ 12 }
    ensures { IfOk result (λ clause. clause ≡ excluding bits.now) }
{
    let mut clause = Items::new(alloc);
    for (input, bit) in bits.iter().enumerate() {
        clause.push(SatLit::of(1 + input as u64, !*bit))?;
    }
    Ok(clause)
}

/// A list of bits with one more.
fn longer_by(alloc: Global, bits: &[bool], bit: bool) -> Result<Vec<bool>, AllocError>
    ensures { IfOk result (λ longer. longer.items ≡ bits.now ++ bit ∷ []) }
{
    let mut longer = Vec::from_slice(alloc, bits)?;
    longer.push(bit)?;
    Ok(longer)
}
