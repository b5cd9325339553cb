//! The trail.

ghost use Rattle.std.specs.Prelude.{◌≡◌, ◌≢◌, ◌+◌, ◌*◌, ◌^◌, ◌<◌, ◌≤◌, ◌++◌, ◌∷◌, [], None, Some, IfOk, IfSome, IfNone};
ghost use Rattle.std.specs.Prelude.{All};
ghost use Rattle.std.specs.Prelude.{length, take, drop, filter, min, replicate, nat_le, ◌==◌, is_none, if◌then◌else◌};
ghost use Rattle.std.specs.Prelude.{slice_set, vec_len, vec_capacity};
ghost use Rattle.cnf_core.specs.Clauses.{opposite, variable_of};
ghost use Rattle.trail_core.specs.Trails.{IsTrail, IsPlace, IsFree, IsCutAt, IsBack, entry_at, literals, value_in};
ghost use Rattle.trail_core.specs.Trails.{with_assigned, with_decision};
ghost use Rattle.trail_core.specs.Places.{AreUnassigned, IsUnset, with_true, without};

use crate::assigned::Assigned;
use cnf_core::SatLit;
use std::alloc::{AllocError, Global};
use std::marker::Model;

/// The literals that were assigned, in order, with their levels and reasons (the implication graph of Marques-Silva and
/// Sakallah, GRASP, 1999, kept as a list by Eén and Sörensson, MiniSat, 2003). The level is the number of decisions.
/// The first `walked` literals are those whose consequences were looked for. No variable is assigned twice. Only
/// `with_variables` takes memory.
#[derive(Debug)]
pub struct Trail {
    entries: Vec<Assigned>,
    /// Where the literal of each variable stands, if it has one.
    places: Vec<Option<usize>>,
    /// The value of each literal, by its number. It is what a search reads most, and lies close together.
    values: Vec<Option<bool>>,
    level: u64,
    walked: usize,
}

// By hand, so that each exit of a function has one call for it (docs/IDIOMS.md).
impl Drop for Trail {
    fn drop(self) {
        let Trail {
            entries: _entries,
            places: _places,
            values: _values,
            level: _level,
            walked: _walked,
        } = self;
    }
}

impl Model for Trail {
    ghost use Rattle.std.specs.Prelude.{length};
    ghost use Rattle.trail_core.specs.Trails.{Trailing};
    ghost use Rattle.trail_core.specs.Places.{IsKept};

    ghost Value = { Trailing };

    ghost view = { λ a. record {
      variables = length a.places.items;
      entries = a.entries.items;
      level = a.level;
      walked = a.walked;
    } };

    ghost invariant = { λ a. IsKept a.entries a.places.items a.values.items a.level a.walked };
}

impl Trail {
    /// The empty trail over n variables.
    pub fn with_variables(alloc: Global, count: u64) -> Result<Trail, AllocError>
        ensures { IfOk result (λ trail. trail ≡ record { variables = count; entries = []; level = 0; walked = 0 }) }
    {
        let places = no_places(alloc, count as usize)?;
        let values = no_values(alloc, places.len())?;
        let entries = Vec::with_capacity(alloc, count as usize)?;
        Ok(Trail {
            entries,
            places,
            values,
            level: 0,
            walked: 0,
        })
    }

    /// Assigns a literal as a decision: it begins a level.
    pub fn decide(&mut self, lit: SatLit)
        requires { IsFree self.old lit }
        ensures decided { self.new ≡ with_decision self.old lit }
        ensures most { length self.old.entries < self.old.variables }
    {
        let level = self.level + 1;
        self.push(Assigned {
            literal: lit,
            level,
            reason: None,
        });
    }

    /// Assigns a literal at the present level, by the clause that leaves nothing else.
    pub fn assign(&mut self, lit: SatLit, reason: u64)
        requires { IsFree self.old lit }
        ensures { self.new ≡ with_assigned self.old lit reason }
    {
        let level = self.level;
        self.push(Assigned {
            literal: lit,
            level,
            reason: Some(reason),
        });
    }

    // Adds a literal at the end, of a variable that is free. Its level is the present one, or for a decision the next
    // one.
    fn push(&mut self, entry: Assigned)
        requires free { IsFree self.old entry.literal }
        requires level { entry.level ≡ self.old.level + (if is_none entry.reason then 1 else 0) }
        ensures pushed { self.new ≡ record self.old { entries = self.old.entries ++ entry ∷ []; level = entry.level } }
        ensures most { length self.old.entries < self.old.variables }
    {
        put(&mut self.entries, &mut self.places, entry);
        make_true(&mut self.values, entry.literal);
        self.level = entry.level;
    }

    /// How many literals were walked.
    pub fn walked(&self) -> u64
        ensures value { result ≡ self.now.walked }
        ensures trail { IsTrail self.now }
    {
        self.walked as u64
    }

    /// Counts one literal more as walked.
    pub fn step(&mut self)
        requires { self.old.walked < length self.old.entries }
        ensures { self.new ≡ record self.old { walked = self.old.walked + 1 } }
    {
        self.walked += 1;
    }

    /// Takes off what has a greater level, which becomes the present one.
    pub fn back_to(&mut self, level: u64)
        requires { level ≤ self.old.level }
        ensures { IsBack self.old self.new level }
    {
        let kept = kept_at(&self.entries, level);
        unset(&mut self.places, &self.entries[kept..]);
        unassign_all(&mut self.values, &self.entries[kept..]);
        self.entries.truncate(kept);
        self.level = level;
        self.walked = self.walked.min(kept);
    }

    /// Whether a literal is true or false, or None exactly where its variable is unassigned.
    pub fn value(&self, lit: SatLit) -> Option<bool>
        ensures { result ≡ value_in (literals self.now.entries) lit }
    {
        if lit.0 >= self.values.len() as u64 {
            return None;
        }
        self.values[lit.0 as usize]
    }

    /// Where the literal of a variable stands, or None exactly where the variable is unassigned.
    pub fn place(&self, variable: u64) -> Option<u64>
        ensures assigned { IfSome result (IsPlace self.now.entries variable) }
        ensures unassigned { IfNone result (All (λ entry. variable_of entry.literal ≢ variable) self.now.entries) }
    {
        if variable >= self.places.len() as u64 {
            return None;
        }
        match self.places[variable as usize] {
            Some(place) => Some(place as u64),
            None => None,
        }
    }

    /// The present level: the number of decisions.
    pub fn level(&self) -> u64
        ensures value { result ≡ self.now.level }
        ensures trail { IsTrail self.now }
    {
        self.level
    }

    /// How many literals are assigned.
    pub fn len(&self) -> u64
        ensures value { result ≡ length self.now.entries }
        ensures most { result ≤ self.now.variables }
        ensures small { self.now.variables < 2 ^ 63 }
        ensures trail { IsTrail self.now }
    {
        self.entries.len() as u64
    }

    /// Whether no literal is assigned.
    pub fn is_empty(&self) -> bool
        ensures { result ≡ (length self.now.entries == 0) }
    {
        self.entries.is_empty()
    }

    /// The literal at a place.
    pub fn lit_at(&self, place: u64) -> SatLit
        requires { place < length self.now.entries }
        ensures { result ≡ (entry_at self.now.entries place).literal }
    {
        self.entries[place as usize].literal
    }

    /// The level of the literal at a place.
    pub fn level_at(&self, place: u64) -> u64
        requires { place < length self.now.entries }
        ensures { result ≡ (entry_at self.now.entries place).level }
    {
        self.entries[place as usize].level
    }

    /// The reason of the literal at a place, or None exactly where it is a decision.
    pub fn reason_at(&self, place: u64) -> Option<u64>
        requires { place < length self.now.entries }
        ensures { result ≡ (entry_at self.now.entries place).reason }
    {
        self.entries[place as usize].reason
    }
}

fn no_places(alloc: Global, count: usize) -> Result<Vec<Option<usize>>, AllocError>
    ensures { IfOk result (λ places. places.items ≡ replicate count None) }
{
    vec![in alloc; None; count]
}

// No literal of n variables is true or false.
fn no_values(alloc: Global, count: usize) -> Result<Vec<Option<bool>>, AllocError>
    requires { count < 2 ^ 63 }
    ensures { IfOk result (λ values. values.items ≡ replicate (2 * count) None) }
{
    vec![in alloc; None; 2 * count]
}

// Makes a literal true, and its opposite false.
fn make_true(values: &mut [Option<bool>], literal: SatLit)
    requires known { literal.0 < length values.old }
    requires opposite { (opposite literal).0 < length values.old }
    ensures { values.new ≡ with_true literal values.old }
{
    values[literal.0 as usize] = Some(true);
    values[literal.opposite().0 as usize] = Some(false);
}

// Adds a literal, for which there is room, at the end.
fn put(entries: &mut Vec<Assigned>, places: &mut [Option<usize>], entry: Assigned)
    requires known { variable_of entry.literal < length places.old }
    requires room { vec_len entries.old < vec_capacity entries.old }
    ensures entries { entries.new.items ≡ entries.old.items ++ entry ∷ [] }
    ensures capacity { vec_capacity entries.new ≡ vec_capacity entries.old }
    ensures places { places.new ≡ slice_set places.old (variable_of entry.literal) (Some (vec_len entries.old)) }
{
    places[entry.literal.variable() as usize] = Some(entries.len());
    entries.push_reserved(entry);
}

// How many literals stand before the last ones, whose level is greater.
fn kept_at(entries: &[Assigned], level: u64) -> usize
    ensures { IsCutAt level entries.now result }
{
    let mut kept = entries.len();
    while kept > 0 {
        if entries[kept - 1].level <= level {
            return kept;
        }
        kept -= 1;
    }
    0
}

// Takes the places of literals away.
fn unset(places: &mut [Option<usize>], dropped: &[Assigned])
    requires { All (λ entry. variable_of entry.literal < length places.old) dropped.now }
    ensures { IsUnset places.old places.new dropped.now (length dropped.now) }
{
    for entry in dropped.iter() {
        places[entry.literal.variable() as usize] = None;
    }
}

// Takes the values of literals and of their opposites away.
fn unassign_all(values: &mut [Option<bool>], dropped: &[Assigned])
    requires { All (λ entry. 2 * variable_of entry.literal + 1 < length values.old) dropped.now }
    ensures { AreUnassigned values.old values.new dropped.now (length dropped.now) }
{
    for entry in dropped.iter() {
        unassign(values, entry.literal);
    }
}

// Takes the values of a literal and of its opposite away.
fn unassign(values: &mut [Option<bool>], literal: SatLit)
    requires { 2 * variable_of literal + 1 < length values.old }
    ensures { values.new ≡ without literal values.old }
{
    values[literal.0 as usize] = None;
    values[literal.opposite().0 as usize] = None;
}
