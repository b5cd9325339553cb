//! A search for a model: the trail, the watched clauses, and what is decided.

ghost use Rattle.std.specs.Prelude.{◌≡◌, ◌<◌, ◌≤◌, ◌++◌, ◌∷◌, [], false, IfOk, IfNone, IfSome, OnOk, All, length};
ghost use Rattle.std.specs.List.{list_any};
ghost use Rattle.cnf_core.specs.Derivations.{AreDerived, clauses_of, is_empty};
ghost use Rattle.trail_core.specs.Trails.{IsBack, IsFree, literals};
ghost use Rattle.learn_solver.specs.Searches.{CanMove, CanReturn, HasReturned, IsAssigned, KeepsClauses};
ghost use Rattle.watch_lists.specs.Propagations.{IsConflict, IsGrown, IsQuiet};
ghost use Rattle.watch_lists.specs.Watched.{AreUnattached};
ghost use Rattle.cnf_core.specs.Clauses.{AreKnown};
ghost use Rattle.learn_solver.specs.Starts.{AreIdle, IsBegun, IsFitting, IsStarting, IsStuck, StayTools};
ghost use Rattle.learn_solver.specs.Orders.{IsOrder};
ghost use Rattle.learn_solver.specs.Solvers.{ArePut};

use crate::candidate::{Candidate, Operands, Part};
use crate::conflict::no_marks;
use crate::decision::{next_decision, variables_of};
use crate::focus::Focus;
use crate::order::Order;
use crate::restarts::Restarts;
use cnf_core::{Base, LogLine, SatLit};
use std::alloc::{AllocError, Global};
use trail_core::Trail;
use watch_lists::Watches;

/// A search for a model of the clauses that are looked at.
pub(crate) struct Search {
    pub(crate) trail: Trail,
    /// The clauses that are looked at: those of the numbers, then those of the lines.
    pub(crate) watches: Watches,
    pub(crate) tools: Tools,
}

// By hand, so that each exit of a function has one call for it (docs/IDIOMS.md).
impl Drop for Search {
    fn drop(self) {
        let Search {
            trail: _trail,
            watches: _watches,
            tools: _tools,
        } = self;
    }
}

/// What is kept of the variables.
pub(crate) struct Tools {
    /// The variables of the clauses of the numbers. Once they are assigned, all clauses are met.
    pub(crate) occurring: Vec<u64>,
    /// A mark for each variable, for the analysis of a conflict. Between two of them none is set.
    pub(crate) marks: Vec<bool>,
    pub(crate) order: Order,
    pub(crate) restarts: Restarts,
    pub(crate) focus: Focus,
}

// By hand, so that each exit of a function has one call for it (docs/IDIOMS.md).
impl Drop for Tools {
    fn drop(self) {
        let Tools {
            occurring: _occurring,
            marks: _marks,
            order: _order,
            restarts: _restarts,
            focus: _focus,
        } = self;
    }
}

/// A search over the clauses of these numbers, then those of the lines, none of which is attached.
pub(crate) fn begun<B: Base>(
    alloc: Global,
    base: &B,
    ids: &[u64],
    lines: &[LogLine],
) -> Result<Search, AllocError>
    requires ids { All (λ id. id < length (B.formula base.now).clauses) ids.now }
    requires derived { AreDerived (B.formula base.now) lines.now }
    requires filled { list_any is_empty (clauses_of lines.now) ≡ false }
    ensures { IfOk result (λ search. IsBegun (record { formula = B.formula base.now; ids = ids.now; lines = lines.now })
        search.trail search.watches search.tools) }
{
    let trail = Trail::with_variables(alloc, base.variables())?;
    // a trail has fewer than 2^63 variables
    let _len = trail.len();
    let mut watches = Watches::new(alloc, base.variables())?;
    add_clauses(base, ids, &mut watches)?;
    let occurring = variables_of(alloc, watches.store(), base.variables())?;
    put_lines(lines, &mut watches)?;
    let marks = no_marks(alloc, base.variables() as usize)?;
    let focus = Focus::new(alloc, base.variables() as usize)?;
    let order = Order::new(alloc, base.variables() as usize, &occurring, &focus)?;
    Ok(Search {
        trail,
        watches,
        tools: Tools {
            occurring,
            marks,
            order,
            restarts: Restarts::new(),
            focus,
        },
    })
}

impl Tools {
    /// The next literal to decide. None: all variables of the clauses are assigned.
    pub(crate) fn decision(&mut self, trail: &Trail) -> Option<SatLit>
        requires order { IsOrder trail.now.variables self.old.order }
        requires known { All (λ v. v < trail.now.variables) self.old.occurring.items }
        ensures free { IfSome result (IsFree trail.now) }
        ensures none { IfNone result (All (IsAssigned trail.now) self.old.occurring.items) }
        ensures stay { StayTools self.old self.new }
    {
        let literal = self.next_guided(trail);
        if literal.is_some() {
            return literal;
        }
        self.spread();
        let literal = self.order.pick(trail);
        if literal.is_some() {
            return literal;
        }
        self.focus.exhausted = true;
        next_decision(trail, &self.occurring)
    }

    // Has those variables in the order that the focus has, if they aren't.
    fn spread(&mut self)
        requires { IsOrder (length self.old.order.heap) self.old.order }
        ensures order { IsOrder (length self.old.order.heap) self.new.order }
        ensures same { self.new ≡ record self.old { order = self.new.order; focus = self.new.focus } }
    {
        if self.focus.is_spread {
            return;
        }
        self.focus.spread();
        if self.focus.candidate.is_some() {
            self.order.refill(self.focus.cone(), &self.focus);
        } else {
            self.order.refill(&self.occurring, &self.focus);
        }
    }

    // The next literal to decide before all others: one of those that lead, or of the candidate that the search is
    // after, if it is after one, both of which are to be true.
    fn next_guided(&self, trail: &Trail) -> Option<SatLit>
        requires { IsOrder trail.now.variables self.now.order }
        ensures { IfSome result (IsFree trail.now) }
    {
        let variables = self.order.heap.count();
        let literal = self.focus.next_leading(trail, variables);
        if literal.is_some() {
            return literal;
        }
        self.focus.next_of_candidate(trail, variables)
    }
}

impl Search {
    /// Attaches all clauses, on an empty trail. Some: a clause all of whose literals are false at level 0.
    pub(crate) fn start(&mut self) -> Option<u64>
        requires idle { AreIdle self.old.watches self.old.trail }
        ensures none { IfNone result
            (IsStarting self.old.watches self.new.watches self.new.trail (length self.old.watches.clauses)) }
        ensures some { IfSome result (IsStuck self.old.watches self.new.watches self.new.trail) }
        ensures tools { self.new.tools ≡ self.old.tools }
    {
        attach_all(&mut self.watches, &mut self.trail)
    }

    /// Propagates. None: every clause has a true literal or two unassigned ones. Some: a clause all of whose literals
    /// are false.
    pub(crate) fn propagate(&mut self) -> Option<u64>
        requires { IsFitting self.old.watches self.old.trail }
        ensures keeps { KeepsClauses self.old self.new }
        ensures grown { IsGrown self.old.trail self.new.trail }
        ensures none { IfNone result (IsQuiet self.new.watches.clauses (literals self.new.trail.entries)) }
        ensures walked { IfNone result (self.new.trail.walked ≡ length self.new.trail.entries) }
        ensures some { IfSome result (IsConflict self.new.watches.clauses (literals self.new.trail.entries)) }
    {
        let conflict = self.watches.propagate(&mut self.trail);
        // it brings in that this is a trail still
        let _walked = self.trail.walked();
        conflict
    }

    /// Goes back to a level with a learned clause, of which one literal alone isn't false there, and to level 0 where
    /// it is time to begin again. A restart comes after a learned line alone, each of which costs a unit, so there are
    /// no more of them than units.
    pub(crate) fn go_back(&mut self, clause: &[SatLit], level: u64) -> Result<(), AllocError>
        requires { CanReturn self.old clause.now level }
        ensures { OnOk result (HasReturned self.old self.new clause.now) }
    {
        self.assert(clause, level)?;
        self.restart();
        Ok(())
    }

    // Goes back to level 0 where it is time to.
    fn restart(&mut self)
        requires { CanMove self.old }
        ensures { KeepsClauses self.old self.new }
    {
        if !self.tools.restarts.count() {
            return;
        }
        self.back_to_root();
    }

    /// What it is after may be over these gates, each of which stands after its operands, and is one of these parts.
    pub(crate) fn heed(&mut self, gates: Vec<Operands>, parts: Vec<Part>)
        requires { CanMove self.old }
        ensures { KeepsClauses self.old self.new }
    {
        self.tools.focus.heed(gates, parts);
    }

    /// Narrows the search to a candidate, from level 0 on.
    pub(crate) fn narrow(&mut self, candidate: Candidate)
        requires { CanMove self.old }
        ensures { KeepsClauses self.old self.new }
    {
        self.tools.focus.narrow(candidate);
        self.back_to_root();
    }

    /// Widens the search to the whole question, from level 0 on: these literals are decided before all other variables.
    pub(crate) fn widen(&mut self, leading: Vec<SatLit>)
        requires { CanMove self.old }
        ensures { KeepsClauses self.old self.new }
    {
        self.tools.focus.widen(leading);
        self.back_to_root();
    }

    /// Whether the search for a candidate is over: one of its literals is false, so that both can't be true where it is
    /// now, or all is assigned from which they are computed.
    pub(crate) fn is_settled(&self) -> bool {
        match self.tools.focus.candidate {
            Some(_) => self.tools.focus.exhausted | self.tools.focus.is_closed(&self.trail),
            None => false,
        }
    }

    // Goes back to level 0.
    fn back_to_root(&mut self)
        requires { CanMove self.old }
        ensures { KeepsClauses self.old self.new }
    {
        if self.trail.level() == 0 {
            return;
        }
        self.leave(0);
    }

    // Goes back to a level, and notes that the literals of greater ones are no longer assigned.
    fn leave(&mut self, level: u64)
        requires order { IsOrder self.old.trail.variables self.old.tools.order }
        requires level { level ≤ self.old.trail.level }
        ensures back { IsBack self.old.trail self.new.trail level }
        ensures order { IsOrder self.old.trail.variables self.new.tools.order }
        ensures tools { StayTools self.old.tools self.new.tools }
        ensures watches { self.new.watches ≡ self.old.watches }
    {
        release_above(&self.trail, level, &self.tools.focus, &mut self.tools.order);
        self.trail.back_to(level);
    }

    // Goes back to a level with a learned clause, of which one literal alone isn't false there.
    fn assert(&mut self, clause: &[SatLit], level: u64) -> Result<(), AllocError>
        requires { CanReturn self.old clause.now level }
        ensures returned { OnOk result (HasReturned self.old self.new clause.now) }
        ensures order { IsOrder self.old.trail.variables self.new.tools.order }
    {
        let id = self.watches.add(clause)?;
        // it brings in that this is a trail
        let _walked = self.trail.walked();
        self.leave(level);
        let None = self.watches.attach(id, &mut self.trail) else {
            unreachable!()
        };
        Ok(())
    }
}

// Attaches all clauses, on an empty trail.
fn attach_all(watches: &mut Watches, trail: &mut Trail) -> Option<u64>
    requires idle { AreIdle watches.old trail.old }
    ensures none { IfNone result (IsStarting watches.old watches.new trail.new (length watches.old.clauses)) }
    ensures some { IfSome result (IsStuck watches.old watches.new trail.new) }
{
    for id in 0..watches.count() {
        let conflict = watches.attach(id, trail);
        if conflict.is_some() {
            return conflict;
        }
    }
    None
}

// Adds the base's clauses of these numbers, where there are none.
fn add_clauses<B: Base>(base: &B, ids: &[u64], watches: &mut Watches) -> Result<(), AllocError>
    requires ids { All (λ id. id < length (B.formula base.now).clauses) ids.now }
    requires empty { watches.old ≡ record { variables = (B.formula base.now).variables; clauses = []; watches = [] } }
    ensures put { OnOk result (ArePut (B.formula base.now) ids.now watches.new.clauses) }
    ensures unattached { OnOk result (AreUnattached watches.new) }
    ensures variables { OnOk result (watches.new.variables ≡ watches.old.variables) }
{
    for id in ids.iter() {
        let clause = base.clause(*id);
        // clauses are added in order, so that a clause's number is its place
        let _ = watches.add(clause.literals())?;
    }
    Ok(())
}

// Adds the clauses of lines.
fn put_lines(lines: &[LogLine], watches: &mut Watches) -> Result<(), AllocError>
    requires known { All (AreKnown watches.old.variables) (clauses_of lines.now) }
    requires filled { All (λ clause. is_empty clause ≡ false) (clauses_of lines.now) }
    requires unattached { AreUnattached watches.old }
    ensures put { OnOk result (watches.new.clauses ≡ watches.old.clauses ++ clauses_of lines.now) }
    ensures unattached { OnOk result (AreUnattached watches.new) }
    ensures variables { OnOk result (watches.new.variables ≡ watches.old.variables) }
{
    for line in lines.iter() {
        // lines too are added in order
        let _ = watches.add(&line.clause)?;
    }
    Ok(())
}

// Notes that the literals of greater levels are no longer assigned.
fn release_above(trail: &Trail, level: u64, focus: &Focus, order: &mut Order)
    requires { IsOrder trail.now.variables order.old }
    ensures { IsOrder trail.now.variables order.new }
{
    let mut place = trail.len();
    while place > 0 {
        place -= 1;
        if trail.level_at(place) <= level {
            return;
        }
        order.release(trail.lit_at(place), focus);
    }
}
