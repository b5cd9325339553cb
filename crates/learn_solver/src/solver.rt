//! The solver.

ghost use Rattle.std.specs.Prelude.{◌≡◌, ◌+◌, ◌<◌, ◌≤◌, ◌++◌, ◌∷◌, [], true, false, None, All, MatchOption, IfOk};
ghost use Rattle.std.specs.Prelude.{IfErr, IfNone, OnOk, OnErr, length, map};
ghost use Rattle.std.specs.List.{list_any};
ghost use Rattle.cnf_core.specs.Derivations.{AreDerived, clauses_of, is_empty, line_fault};
ghost use Rattle.trail_core.specs.Trails.{literals};
ghost use Rattle.watch_lists.specs.Propagations.{IsConflict, IsQuiet};
ghost use Rattle.cnf_core.specs.Charges.{IsCharged, IsRefused};
ghost use Rattle.learn_solver.specs.Searches.{CanGo, HasEnded, HasGone, IsDecided, IsLearning, IsLearnt, IsLesson};
ghost use Rattle.learn_solver.specs.Searches.{IsRunning, IsSame, last_line, remaining};
ghost use Rattle.learn_solver.specs.Solvers.{IsAsking, IsBounded, IsBoundedStop, IsExtended, IsStopped, IsVerdict};
ghost use Rattle.learn_solver.specs.Solvers.{active, id_at};
ghost use Rattle.learn_solver.specs.Findings.{IsFinding};
ghost use Rattle.learn_solver.specs.Starts.{IsBegun};

use crate::candidate::{QuestionGuide, Unguided};
use crate::conflict::{LearnedClause, analyse};
use crate::decision::values;
use crate::order::bump_all;
use crate::search::{Search, begun};
use crate::verdict::{Finding, Verdict};
use cnf_core::{Base, Charge, Log, LogLine, Stop};
use items::Items;
use std::alloc::{AllocError, Global};
use std::marker::Model;

/// A formula, some of its clauses, and lines that were derived from it: lemmas, then learned ones. The solver looks for
/// a model of these clauses, and keeps the reference to the formula.
#[derive(Drop)]
pub struct Solver<'a, B: Base> {
    base: &'a B,
    ids: Vec<u64>,
    lines: Vec<LogLine>,
}

impl<'a, B: Base> Model for Solver<'a, B> {
    ghost use Rattle.learn_solver.specs.Solvers.{Solving, IsGiven};

    ghost Value = { Solving };

    ghost view = { λ a. record { formula = B.formula a.base.now; ids = a.ids.items; lines = a.lines.items } };

    ghost invariant = { λ a. IsGiven (B.formula a.base.now) a.ids.items a.lines.items };
}

impl<'a, B: Base> Solver<'a, B> {
    /// A solver for the clauses of these numbers, with lemmas that are derived in order from the formula, none of them
    /// empty.
    pub fn new(
        alloc: Global,
        base: &'a B,
        ids: &[u64],
        lemmas: &[LogLine],
    ) -> Result<Solver<'a, B>, AllocError>
        requires ids { All (λ id. id < length (B.formula base.now).clauses) ids.now }
        requires derived { AreDerived (B.formula base.now) lemmas.now }
        requires filled { list_any is_empty (clauses_of lemmas.now) ≡ false }
        ensures { IfOk result (λ solver. solver ≡ record {
          formula = B.formula base.now;
          ids = ids.now;
          lines = lemmas.now;
        }) }
    {
        let ids = Vec::from_slice(alloc, ids)?;
        let lines = copied(alloc, lemmas)?;
        Ok(Solver { base, ids, lines })
    }

    /// The solver's lines as a log, once it is done with.
    pub fn into_log(self) -> Log
        ensures { result.lines ≡ self.entry.lines }
    {
        let Solver {
            base: _base,
            ids: _ids,
            lines,
        } = self;
        Log {
            lines: Items::from_vec(lines),
        }
    }

    // The number that a clause that is looked at has in the formula and its log.
    fn id_of(&self, k: u64) -> u64
        requires { k < length (active self.now.formula self.now.ids self.now.lines) }
        ensures { result ≡ id_at self.now.formula self.now.ids k }
    {
        let ids = self.ids.len() as u64;
        if k < ids {
            return self.ids[k as usize];
        }
        self.base.count() + (k - ids)
    }

    // The hints of steps.
    fn hints(&self, alloc: Global, steps: &[u64]) -> Result<Items<u64>, AllocError>
        requires { All (λ k. k < length (active self.now.formula self.now.ids self.now.lines)) steps.now }
        ensures { IfOk result (λ hints. hints ≡ map (id_at self.now.formula self.now.ids) steps.now) }
    {
        let mut hints = Items::with_capacity(alloc, steps.len())?;
        for step in steps.iter() {
            hints.push(self.id_of(*step))?;
        }
        Ok(hints)
    }

    // Derives a line from a conflict.
    fn derive(
        &self,
        alloc: Global,
        search: &mut Search,
        conflict: u64,
    ) -> Result<Lesson, AllocError>
        requires learning { IsLearning self.now search.old.trail search.old.watches search.old.tools }
        requires conflict { IsConflict (active self.now.formula self.now.ids self.now.lines)
            (literals search.old.trail.entries) conflict }
        ensures lesson { IfOk result (λ lesson. IsLesson self.now search.old.trail lesson.line lesson.level) }
        ensures same { IsSame search.old search.new }
    {
        let LearnedClause {
            clause,
            steps,
            level,
        } = analyse(
            alloc,
            search.watches.store(),
            &search.trail,
            &mut search.tools.marks,
            conflict,
        )?;
        bump_all(&mut search.tools.order, search.watches.store(), &steps);
        let hints = self.hints(alloc, &steps)?;
        let line = LogLine { clause, hints };
        Ok(Lesson { line, level })
    }

    // Learns a line from a conflict. It answers the level to go back to, or None where the line is empty.
    fn learn<L: Charge>(
        &mut self,
        alloc: Global,
        search: &mut Search,
        conflict: u64,
        ledger: &mut L,
    ) -> Result<Option<u64>, Stop>
        requires learning { IsLearning self.old search.old.trail search.old.watches search.old.tools }
        requires asking { IsAsking (L.charging ledger.old) self.old.lines }
        requires conflict { IsConflict (active self.old.formula self.old.ids self.old.lines)
            (literals search.old.trail.entries) conflict }
        ensures learnt { IfOk result
            (IsLearnt self.old self.new (L.charging ledger.old) (L.charging ledger.new) search.old.trail) }
        ensures same { IfOk result (λ _. IsSame search.old search.new) }
        ensures stop { IfErr result
            (IsStopped self.old self.new (L.charging ledger.old) (L.charging ledger.new)) }
    {
        let Lesson { line, level } = self.derive(alloc, search, conflict)?;
        let closing = line.clause.is_empty();
        self.add(line)?;
        self.charge_last(ledger)?;
        if closing {
            return Ok(None);
        }
        Ok(Some(level))
    }

    // Decides the next variable that occurs, or answers a model where all of them are assigned.
    fn decide(&self, alloc: Global, search: &mut Search) -> Result<Option<Finding>, AllocError>
        requires running { IsRunning self.now search.old.trail search.old.watches search.old.tools }
        requires quiet { IsQuiet (active self.now.formula self.now.ids self.now.lines)
            (literals search.old.trail.entries) }
        requires walked { search.old.trail.walked ≡ length search.old.trail.entries }
        ensures { IfOk result (λ answer. MatchOption answer
            (IsDecided self.now search.old.trail search.new.trail search.new.watches search.new.tools)
            (IsFinding self.now)) }
    {
        let Some(literal) = search.tools.decision(&search.trail) else {
            let variables = self.base.variables();
            let values = values(alloc, &search.trail, variables)?;
            return Ok(Some(Finding::Model(values)));
        };
        search.trail.decide(literal);
        Ok(None)
    }

    /// How many lines there are.
    pub(crate) fn count(&self) -> u64 {
        self.lines.len() as u64
    }

    // What the lines say, once one is empty.
    fn refuted(&self) -> Finding
        requires { list_any is_empty (clauses_of self.now.lines) ≡ true }
        ensures { IsFinding self.now result }
    {
        // it brings in the solver's invariant: its lines are derived
        let _count = self.lines.len();
        Finding::Refuted
    }

    // What was found, with the lines as a log.
    fn verdict_of(&self, alloc: Global, found: Finding) -> Result<Verdict, AllocError>
        requires { IsFinding self.now found }
        ensures { IfOk result (IsVerdict self.now) }
    {
        match found {
            Finding::Model(values) => Ok(Verdict::Model(values)),
            Finding::Refuted => {
                let lines = Items::from_vec(copied(alloc, &self.lines)?);
                Ok(Verdict::Refuted(Log { lines }))
            }
        }
    }

    /// One step of the search: propagation, then a decision or a learned line.
    pub(crate) fn advance<L: Charge>(
        &mut self,
        alloc: Global,
        search: &mut Search,
        ledger: &mut L,
    ) -> Result<Option<Finding>, Stop>
        requires { CanGo self.old (L.charging ledger.old) search.old }
        ensures gone { IfOk result
            (HasGone self.old self.new (L.charging ledger.old) (L.charging ledger.new) search.new) }
        ensures less { IfOk result (λ answer. IfNone answer
            (remaining (L.charging ledger.new) search.new.trail < remaining (L.charging ledger.old) search.old.trail)) }
        ensures stop { IfErr result (IsStopped self.old self.new (L.charging ledger.old) (L.charging ledger.new)) }
    {
        let Some(conflict) = search.propagate() else {
            let answer = self.decide(alloc, search)?;
            return Ok(answer);
        };
        let Some(level) = self.learn(alloc, search, conflict, ledger)? else {
            return Ok(Some(self.refuted()));
        };
        search.go_back(&self.last().clause, level)?;
        Ok(None)
    }

    // Learns from a conflict at level 0: its line is empty.
    fn close<L: Charge>(
        &mut self,
        alloc: Global,
        search: &mut Search,
        conflict: u64,
        ledger: &mut L,
    ) -> Result<Finding, Stop>
        requires learning { IsLearning self.old search.old.trail search.old.watches search.old.tools }
        requires lowest { search.old.trail.level ≡ 0 }
        requires asking { IsAsking (L.charging ledger.old) self.old.lines }
        requires conflict { IsConflict (active self.old.formula self.old.ids self.old.lines)
            (literals search.old.trail.entries) conflict }
        ensures ended { IfOk result (HasEnded self.old self.new (L.charging ledger.old) (L.charging ledger.new)) }
        ensures stop { IfErr result (IsStopped self.old self.new (L.charging ledger.old) (L.charging ledger.new)) }
    {
        let None = self.learn(alloc, search, conflict, ledger)? else {
            unreachable!()
        };
        Ok(self.refuted())
    }

    // Charges the last line.
    fn charge_last<L: Charge>(&self, ledger: &mut L) -> Result<(), Stop>
        requires some { 0 < length self.now.lines }
        requires opened { (L.charging ledger.old).opened ≡ true }
        requires not_spent { (L.charging ledger.old).spent ≡ false }
        ensures charged { OnOk result
            (IsCharged (L.charging ledger.old) (last_line self.now.lines) (L.charging ledger.new)) }
        ensures refused { IfErr result
            (IsRefused (L.charging ledger.old) (last_line self.now.lines) (L.charging ledger.new)) }
    {
        ledger.charge(self.last())
    }

    // The last line.
    fn last(&self) -> &LogLine
        requires { 0 < length self.now.lines }
        ensures { result.now ≡ last_line self.now.lines }
    {
        &self.lines[self.lines.len() - 1]
    }

    // Adds a derived line. A refusal changes nothing.
    fn add(&mut self, line: LogLine) -> Result<(), AllocError>
        requires { line_fault self.old.formula (clauses_of self.old.lines) line ≡ None }
        ensures added { OnOk result (self.new ≡ record self.old { lines = self.old.lines ++ line ∷ [] }) }
        ensures refused { OnErr result (self.new ≡ self.old) }
    {
        self.lines.reserve(1)?;
        self.lines.push_reserved(line);
        Ok(())
    }
}

/// Looks for a model of the solver's clauses. The lines of the ledger's open entry are the solver's lemmas, and each
/// learned line is charged to it, the closing empty one too. Spent comes at a conflict that is met with the budget
/// spent: its line is the solver's last one, and the ledger's refused one. Running out of memory may leave both anyhow.
/// Since each line has all the literals of no clause before it, one call learns at most 3^n lines over n variables.
pub fn solve<B: Base, L: Charge>(
    alloc: Global,
    solver: &mut Solver<'_, B>,
    ledger: &mut L,
) -> Result<Verdict, Stop>
    requires unrefuted { list_any is_empty (clauses_of solver.old.lines) ≡ false }
    requires asking { IsAsking (L.charging ledger.old) solver.old.lines }
    ensures verdict { IfOk result (IsVerdict solver.new) }
    ensures lines { IfOk result
        (λ _. IsExtended solver.old solver.new (L.charging ledger.old) (L.charging ledger.new)) }
    ensures not_spent { IfOk result (λ _. IsAsking (L.charging ledger.new) solver.new.lines) }
    ensures stop { IfErr result (IsStopped solver.old solver.new (L.charging ledger.old) (L.charging ledger.new)) }
    ensures bounded { IfOk result
        (λ _. IsBounded solver.old.formula.variables (L.charging ledger.old) (L.charging ledger.new)) }
    ensures bounded_stop { IfErr result
        (IsBoundedStop solver.old.formula.variables (L.charging ledger.old) (L.charging ledger.new)) }
{
    let found = solve_guided(alloc, solver, &mut Unguided, ledger)?;
    let verdict = solver.verdict_of(alloc, found)?;
    Ok(verdict)
}

/// A search, where parts of the question are searched first (explicit learning: Lu, Wang, Cheng, Moon and Hanna, DATE
/// 2003): for each candidate in order, whether its two literals can be true together. What is learned from that serves
/// all that comes after. No answer depends on the candidates. A refutation is the solver's lines (`Solver::into_log`).
pub fn solve_guided<B: Base, G: QuestionGuide, L: Charge>(
    alloc: Global,
    solver: &mut Solver<'_, B>,
    guide: &mut G,
    ledger: &mut L,
) -> Result<Finding, Stop>
    requires unrefuted { list_any is_empty (clauses_of solver.old.lines) ≡ false }
    requires asking { IsAsking (L.charging ledger.old) solver.old.lines }
    ensures found { IfOk result (IsFinding solver.new) }
    ensures lines { IfOk result
        (λ _. IsExtended solver.old solver.new (L.charging ledger.old) (L.charging ledger.new)) }
    ensures not_spent { IfOk result (λ _. IsAsking (L.charging ledger.new) solver.new.lines) }
    ensures stop { IfErr result (IsStopped solver.old solver.new (L.charging ledger.old) (L.charging ledger.new)) }
    ensures bounded { IfOk result
        (λ _. IsBounded solver.old.formula.variables (L.charging ledger.old) (L.charging ledger.new)) }
    ensures bounded_stop { IfErr result
        (IsBoundedStop solver.old.formula.variables (L.charging ledger.old) (L.charging ledger.new)) }
{
    let mut search = begun(alloc, solver.base, &solver.ids, &solver.lines)?;
    let found = found_by(alloc, solver, &mut search, guide, ledger)?;
    Ok(found)
}

// What a search finds that hasn't begun.
fn found_by<B: Base, G: QuestionGuide, L: Charge>(
    alloc: Global,
    solver: &mut Solver<'_, B>,
    search: &mut Search,
    guide: &mut G,
    ledger: &mut L,
) -> Result<Finding, Stop>
    requires begun { IsBegun solver.old search.old.trail search.old.watches search.old.tools }
    requires unrefuted { list_any is_empty (clauses_of solver.old.lines) ≡ false }
    requires asking { IsAsking (L.charging ledger.old) solver.old.lines }
    ensures ended { IfOk result (HasEnded solver.old solver.new (L.charging ledger.old) (L.charging ledger.new)) }
    ensures stop { IfErr result (IsStopped solver.old solver.new (L.charging ledger.old) (L.charging ledger.new)) }
{
    if let Some(conflict) = search.start() {
        return solver.close(alloc, search, conflict, ledger);
    }
    if let Some(early) = solver.prepare(alloc, search, guide, ledger)? {
        return Ok(early);
    }
    let found = solver.finish(alloc, search, guide, ledger)?;
    Ok(found)
}

/// A line that was derived from a conflict, and the level to go back to.
#[derive(Drop)]
struct Lesson {
    line: LogLine,
    level: u64,
}

// Equal lines.
fn copied(alloc: Global, lines: &[LogLine]) -> Result<Vec<LogLine>, AllocError>
    ensures { IfOk result (λ copy. copy.items ≡ lines.now) }
{
    lines.to_vec(alloc)
}
