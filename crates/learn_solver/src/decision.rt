//! Decisions, and the model once there is nothing left to decide.

ghost use Rattle.std.specs.Prelude.{◌≡◌, ◌≢◌, ◌<◌, All, None, IfOk, IfSome, IfNone, length};
ghost use Rattle.cnf_core.specs.Clauses.{AreKnown};
ghost use Rattle.trail_core.specs.Trails.{IsFree};
ghost use Rattle.learn_solver.specs.Analyses.{AreMarked, AreMarkedPlaces, StayMarked};
ghost use Rattle.learn_solver.specs.Searches.{IsAssigned, AreValues};
ghost use Rattle.learn_solver.specs.Solvers.{HaveVariables};

use crate::conflict::no_marks;
use cnf_core::{ClauseStore, SatLit};
use items::Items;
use std::alloc::{AllocError, Global};
use trail_core::Trail;

/// The negated literal of the lowest of these variables that is unassigned, if there is one. The lowest is as good as
/// any: it is asked for when a candidate's literals have all that they are computed from, and the candidate is over
/// then.
pub(crate) fn next_decision(trail: &Trail, occurring: &[u64]) -> Option<SatLit>
    requires { All (λ v. v < trail.now.variables) occurring.now }
    ensures free { IfSome result (IsFree trail.now) }
    ensures none { IfNone result (All (IsAssigned trail.now) occurring.now) }
{
    // a trail has fewer than 2^63 variables
    let _len = trail.len();
    for variable in occurring.iter() {
        let literal = SatLit::of(*variable, false);
        if trail.value(literal).is_none() {
            return Some(literal);
        }
    }
    None
}

/// The variables of clauses, ascending. Each is found once, in one pass.
pub(crate) fn variables_of(
    alloc: Global,
    clauses: &ClauseStore,
    variables: u64,
) -> Result<Vec<u64>, AllocError>
    requires { All (AreKnown variables) clauses.now.clauses }
    ensures { IfOk result (λ occurring. HaveVariables variables clauses.now.clauses occurring.items) }
{
    let mut marked = no_marks(alloc, variables as usize)?;
    mark_all(clauses, &mut marked);
    let occurring = marked_places(alloc, &marked)?;
    Ok(occurring)
}

// Marks the variables of clauses.
fn mark_all(clauses: &ClauseStore, marked: &mut [bool])
    requires { All (AreKnown (length marked.old)) clauses.now.clauses }
    ensures size { length marked.new ≡ length marked.old }
    ensures marked { All (AreMarked marked.new) clauses.now.clauses }
{
    for id in 0..clauses.count() {
        mark_clause(clauses.get(id), marked);
    }
}

// Marks the variables of a clause.
fn mark_clause(clause: &[SatLit], marked: &mut [bool])
    requires { AreKnown (length marked.old) clause.now }
    ensures size { length marked.new ≡ length marked.old }
    ensures stay { StayMarked marked.old marked.new }
    ensures marked { AreMarked marked.new clause.now }
{
    for literal in clause.iter() {
        marked[literal.variable() as usize] = true;
    }
}

// The places that are marked, ascending.
fn marked_places(alloc: Global, marked: &[bool]) -> Result<Vec<u64>, AllocError>
    ensures { IfOk result (λ places. AreMarkedPlaces marked.now (length marked.now) places.items) }
{
    let mut places = Vec::new(alloc);
    for (place, is_marked) in marked.iter().enumerate() {
        if *is_marked {
            places.push(place as u64)?;
        }
    }
    Ok(places)
}

/// The value of each variable.
pub(crate) fn values(
    alloc: Global,
    trail: &Trail,
    variables: u64,
) -> Result<Items<bool>, AllocError>
    requires { variables ≡ trail.now.variables }
    ensures { IfOk result (AreValues trail.now) }
{
    // a trail has fewer than 2^63 variables
    let _len = trail.len();
    let mut values = Items::new(alloc);
    for variable in 0..variables {
        let value = trail.value(SatLit::of(variable, true));
        values.push(matches!(value, Some(true)))?;
    }
    Ok(values)
}
