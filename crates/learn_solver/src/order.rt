ghost use Rattle.std.specs.Prelude.{ℕ, ◌≡◌, ◌^◌, ◌<◌, All, IfOk, IfSome, length};
ghost use Rattle.cnf_core.specs.Clauses.{variable_of, AreKnown};
ghost use Rattle.trail_core.specs.Trails.{IsFree};
ghost use Rattle.learn_solver.specs.Orders.{IsOrder};

use crate::conflict::no_marks;
use crate::focus::Focus;
use crate::heap::Heap;
use cnf_core::{ClauseStore, SatLit};
use std::alloc::{AllocError, Global};
use trail_core::Trail;

/// A conflict counts more than the one before it by the weight of that one divided by this. With 8, 16 and 24 the
/// multiplier of 7 bits beside an array takes 64,065, 57,439 and 57,063 lines, and the checksum of 32 bits 147,542,
/// 150,630 and 153,309.
const GROWTH: u64 = 16;

/// What the first conflict counts: many times `GROWTH`, so that little is lost where a weight is divided by that.
const FIRST_WEIGHT: u64 = 1 << 16;

/// What a conflict counts at most, so that sums of such weights stay within a word.
const MOST_WEIGHT: u64 = 1 << 56;

/// By which power of two all is divided that was counted, once a conflict would count more: it counts 2^24 then, and
/// all is divided again some 370 conflicts later.
const SCALING_BITS: u32 = 32;

/// The order in which variables are decided: first those that conflicts named most, of which later ones count more
/// (variable state independent decaying sum: Moskewicz and others, Chaff, 2001; with a heap: Eén and Sörensson,
/// MiniSat, 2003). Each gets the value that it had last (Pipatsrisawat and Darwiche, SAT 2007), at first 0. It says
/// what is tried first; no answer depends on it.
pub(crate) struct Order {
    /// The variables that are to be decided, by what was counted for them. Assigned ones may be among them.
    pub(crate) heap: Heap,
    /// The value that each variable had last.
    pub(crate) phases: Vec<bool>,
    /// What the present conflict counts.
    pub(crate) weight: u64,
    /// The last conflict that named each variable.
    pub(crate) named: Vec<u64>,
    pub(crate) conflicts: u64,
}

// By hand, so that each exit of a function has one call for it (docs/IDIOMS.md).
impl Drop for Order {
    fn drop(self) {
        let Order {
            heap: _heap,
            phases: _phases,
            weight: _weight,
            named: _named,
            conflicts: _conflicts,
        } = self;
    }
}

impl Order {
    /// Of n variables those that occur are to be decided, if a focus has them.
    pub(crate) fn new(
        alloc: Global,
        variables: usize,
        occurring: &[u64],
        focus: &Focus,
    ) -> Result<Order, AllocError>
        ensures { IfOk result (IsOrder variables) }
    {
        let mut order = Order {
            heap: Heap::new(alloc, variables)?,
            phases: no_marks(alloc, variables)?,
            weight: FIRST_WEIGHT,
            named: vec![in alloc; 0; variables]?,
            conflicts: 0,
        };
        order.refill(occurring, focus);
        Ok(order)
    }

    /// The variables that a focus has are to be decided, and no others. Of two for which nothing was counted the one
    /// with the greater number comes first: where they are those of gates in order, the one next to the
    /// outputs, by which adders take a tenth to a fifth fewer lines than by the inputs.
    pub(crate) fn refill(&mut self, variables: &[u64], focus: &Focus)
        requires { IsOrder (length self.old.heap) self.old }
        ensures { IsOrder (length self.old.heap) self.new }
    {
        self.heap.clear();
        for variable in variables.iter().rev() {
            self.insert(*variable, focus);
        }
    }

    // Puts a variable among those to be decided, if it is one and a focus has it.
    fn insert(&mut self, variable: u64, focus: &Focus)
        requires { IsOrder (length self.old.heap) self.old }
        ensures { IsOrder (length self.old.heap) self.new }
    {
        if variable >= self.heap.count() as u64 {
            return;
        }
        if focus.has(variable) {
            self.heap.insert(variable as usize);
        }
    }

    /// Notes that a literal, which was true, is no longer assigned.
    pub(crate) fn release(&mut self, literal: SatLit, focus: &Focus)
        requires order { IsOrder (length self.old.heap) self.old }
        requires known { variable_of literal < length self.old.heap }
        ensures { IsOrder (length self.old.heap) self.new }
    {
        let variable = literal.variable();
        self.phases[variable as usize] = !literal.is_negated();
        self.insert(variable, focus);
    }

    /// The next literal to decide, if there is one.
    pub(crate) fn pick(&mut self, trail: &Trail) -> Option<SatLit>
        requires { IsOrder trail.now.variables self.old }
        ensures order { IsOrder trail.now.variables self.new }
        ensures free { IfSome result (IsFree trail.now) }
    {
        // a trail has fewer than 2^63 variables
        let _len = trail.len();
        while let Some(variable) = self.heap.pop() {
            let literal = SatLit::of(variable as u64, self.phases[variable]);
            if trail.value(literal).is_none() {
                return Some(literal);
            }
        }
        None
    }

    // Counts a conflict for the variables of a clause, once for each.
    fn name_all(&mut self, clause: &[SatLit])
        requires order { IsOrder (length self.old.heap) self.old }
        requires known { AreKnown (length self.old.heap) clause.now }
        ensures { IsOrder (length self.old.heap) self.new }
    {
        for literal in clause.iter() {
            self.name(literal.variable() as usize);
        }
    }

    // Counts a conflict for a variable, unless it was named before.
    fn name(&mut self, variable: usize)
        requires order { IsOrder (length self.old.heap) self.old }
        requires known { variable < length self.old.heap }
        ensures { IsOrder (length self.old.heap) self.new }
    {
        if self.named[variable] == self.conflicts {
            return;
        }
        self.named[variable] = self.conflicts;
        self.heap.raise(variable, self.weight);
    }

    // A conflict more, which counts more.
    fn grow(&mut self)
        requires { IsOrder (length self.old.heap) self.old }
        ensures { IsOrder (length self.old.heap) self.new }
    {
        self.conflicts = self.conflicts.saturating_add(1);
        self.weight = self.weight.saturating_add(self.weight / GROWTH);
        if self.weight > MOST_WEIGHT {
            self.heap.divide_keys(SCALING_BITS);
            self.weight >>= SCALING_BITS;
        }
    }
}

/// Counts a conflict for the variables of the clauses that led to it.
pub(crate) fn bump_all(order: &mut Order, clauses: &ClauseStore, steps: &[u64])
    requires order { IsOrder (length order.old.heap) order.old }
    requires there { All (λ k. k < length clauses.now.clauses) steps.now }
    requires known { All (AreKnown (length order.old.heap)) clauses.now.clauses }
    ensures { IsOrder (length order.old.heap) order.new }
{
    order.grow();
    for step in steps.iter() {
        order.name_all(clauses.get(*step));
    }
}
