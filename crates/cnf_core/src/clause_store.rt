ghost use Rattle.std.specs.Prelude.{ℕ, ◌≡◌, ◌↔◌, IsTrue, ◌+◌, ◌-◌, ◌<◌, ◌≤◌, ◌++◌, ◌∷◌, [], Some, None, IfOk, OnOk};
ghost use Rattle.std.specs.Prelude.{OnErr, length, take, drop, vec_len, vec_capacity};
ghost use Rattle.cnf_core.specs.Clauses.{clause_at};
ghost use Rattle.cnf_core.specs.Stores.{HasRoom, pieces, start_at, AreEnds};

use crate::literal::SatLit;
use std::alloc::{AllocError, Global};
use std::marker::Model;

/// Clauses, numbered from 0 in the order in which they were put. Their literals lie in one arena, one clause after the
/// other, and are lent as slices. There may be room for one clause more, of n literals at most: that one is put
/// without memory.
#[derive(Debug, Drop)]
pub struct ClauseStore {
    literals: Vec<SatLit>,
    /// Where each clause ends among the literals.
    ends: Vec<usize>,
    room: Option<usize>,
}

impl Model for ClauseStore {
    ghost use Rattle.cnf_core.specs.Stores.{Stored, IsKept, pieces};

    ghost Value = { Stored };

    ghost view = { λ a. record { clauses = pieces 0 a.ends.items a.literals.items; room = a.room } };

    ghost invariant = { λ a. IsKept a.literals a.ends a.room };
}

impl ClauseStore {
    /// No clause, and no room.
    pub fn new(alloc: Global) -> ClauseStore
        ensures { result ≡ record { clauses = []; room = None } }
    {
        ClauseStore {
            literals: Vec::new(alloc),
            ends: Vec::new(alloc),
            room: None,
        }
    }

    /// How many clauses there are.
    pub fn count(&self) -> u64
        ensures { result ≡ length self.now.clauses }
    {
        self.ends.len() as u64
    }

    /// The literals of a clause.
    pub fn get(&self, id: u64) -> &[SatLit]
        requires { id < length self.now.clauses }
        ensures { result.now ≡ clause_at self.now.clauses id }
    {
        piece(&self.literals, &self.ends, id as usize)
    }

    /// Puts a clause after the others and answers its number. It uses up the room. A refusal changes nothing.
    pub fn put(&mut self, clause: &[SatLit]) -> Result<u64, AllocError>
        ensures number { IfOk result (λ id. id ≡ length self.old.clauses) }
        ensures put { OnOk result (self.new ≡ record { clauses = self.old.clauses ++ clause.now ∷ []; room = None }) }
        ensures refused { OnErr result (self.new ≡ self.old) }
    {
        self.reserve(clause.len())?;
        let id = self.count();
        self.put_reserved(clause);
        Ok(id)
    }

    /// Makes room for a clause of at least n literals. A larger room stays, and a refusal changes nothing.
    pub fn reserve(&mut self, literals: usize) -> Result<(), AllocError>
        ensures clauses { self.new.clauses ≡ self.old.clauses }
        ensures room { OnOk result (HasRoom self.new.room literals) }
        ensures larger { (most : ℕ) → HasRoom self.old.room most → HasRoom self.new.room most }
        ensures refused { OnErr result (self.new ≡ self.old) }
    {
        if has_room(self.room, literals) {
            return Ok(());
        }
        self.literals.reserve(literals)?;
        self.ends.reserve(1)?;
        self.room = Some(literals);
        Ok(())
    }

    /// Puts a clause, for which there is room, after the others. It uses up the room and takes no memory.
    pub fn put_reserved(&mut self, clause: &[SatLit])
        requires { HasRoom self.old.room (length clause.now) }
        ensures { self.new ≡ record { clauses = self.old.clauses ++ clause.now ∷ []; room = None } }
    {
        append_reserved(&mut self.literals, clause);
        self.ends.push_reserved(self.literals.len());
        self.room = None;
    }
}

// Whether there is room for a clause of n literals.
fn has_room(room: Option<usize>, literals: usize) -> bool
    ensures { IsTrue result ↔ HasRoom room literals }
{
    match room {
        Some(most) => literals <= most,
        None => false,
    }
}

// The part of the arena that a clause is.
fn piece<'a>(literals: &'a [SatLit], ends: &[usize], id: usize) -> &'a [SatLit]
    requires ends { AreEnds 0 ends.now (length literals.now) }
    requires there { id < length ends.now }
    ensures { result.now ≡ clause_at (pieces 0 ends.now literals.now) id }
{
    part(literals, start_of(ends, id), ends[id])
}

// The literals between two places.
fn part(literals: &[SatLit], start: usize, end: usize) -> &[SatLit]
    requires ascend { start ≤ end }
    requires within { end ≤ length literals.now }
    ensures { result.now ≡ take (end - start) (drop start literals.now) }
{
    &literals[start..end]
}

// Where a part starts: where the one before it ends.
fn start_of(ends: &[usize], id: usize) -> usize
    requires { id < length ends.now }
    ensures { result ≡ start_at 0 ends.now id }
{
    if id == 0 {
        return 0;
    }
    ends[id - 1]
}

// Adds literals, for which there is room, at the end.
fn append_reserved(literals: &mut Vec<SatLit>, more: &[SatLit])
    requires { vec_len literals.old + length more.now ≤ vec_capacity literals.old }
    ensures items { literals.new.items ≡ literals.old.items ++ more.now }
    ensures len { vec_len literals.new ≡ vec_len literals.old + length more.now }
    ensures capacity { vec_capacity literals.new ≡ vec_capacity literals.old }
{
    for literal in more.iter() {
        literals.push_reserved(*literal);
    }
}
