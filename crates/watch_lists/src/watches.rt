//! The watches of clauses.

ghost use Rattle.std.specs.Prelude.{ℕ, ◌≡◌, ◌≢◌, ◌+◌, ◌-◌, ◌*◌, ◌^◌, ◌<◌, ◌≤◌, ◌++◌, ◌∷◌, [], false, All, IfOk, IfSome};
ghost use Rattle.std.specs.Prelude.{IfNone, OnOk, OnErr, length};
ghost use Rattle.cnf_core.specs.Clauses.{clause_at, opposite, AreKnown};
ghost use Rattle.cnf_core.specs.Derivations.{is_empty};
ghost use Rattle.trail_core.specs.Trails.{entry_at, literals};
ghost use Rattle.watch_lists.specs.Propagations.{AreImplied, IsConflict, IsGrown};
ghost use Rattle.watch_lists.specs.Attachments.{IsReached};
ghost use Rattle.watch_lists.specs.Lists.{IsAttached};
ghost use Rattle.watch_lists.specs.Watched.{AreQuiet, Fits, IsCovered, IsPresent, IsReady, IsRewatched, IsWalking};
ghost use Rattle.watch_lists.specs.Watched.{StayAttached, with_clause};

use crate::arena::Arena;
use crate::list_store::ListStore;
use crate::lists::{Lists, partner};
use crate::watch_choice::{Attachment, find_watches, target};
use cnf_core::{ClauseStore, SatLit};
use std::alloc::{AllocError, Global};
use std::marker::Model;
use trail_core::Trail;

/// Clauses, of which each that is attached is in the lists of two of its literals, the watched ones. While one of these
/// isn't false, or the other one is true, the clause leaves nothing to be assigned, so it is looked at only when a
/// watched literal becomes false. Only `new` and `add` take memory.
pub struct Watches {
    variables: u64,
    clauses: Arena,
    lists: Lists,
}

// By hand, so that each exit of a function has one call for it (docs/IDIOMS.md).
impl Drop for Watches {
    fn drop(self) {
        let Watches {
            variables: _variables,
            clauses: _clauses,
            lists: _lists,
        } = self;
    }
}

impl Model for Watches {
    ghost use Rattle.watch_lists.specs.Watched.{AreKept, Watching};

    ghost Value = { Watching };

    ghost view = { λ a. record {
      variables = a.variables;
      clauses = a.clauses.clauses;
      watches = a.lists.watches.items;
    } };

    ghost invariant = { λ a. AreKept a.variables a.clauses.clauses a.lists.watches.items a.lists.store };
}

impl Watches {
    /// No clause, over n variables.
    pub fn new(alloc: Global, variables: u64) -> Result<Watches, AllocError>
        requires { variables < 2 ^ 62 }
        ensures { IfOk result (λ watches. watches ≡ record { variables = variables; clauses = []; watches = [] }) }
    {
        let lists = Lists {
            watches: Vec::new(alloc),
            store: ListStore::new(alloc, 2 * variables as usize)?,
        };
        Ok(Watches {
            variables,
            clauses: Arena::new(alloc),
            lists,
        })
    }

    /// Adds a clause, which isn't attached yet, and answers its number. A refusal changes nothing.
    pub fn add(&mut self, clause: &[SatLit]) -> Result<u64, AllocError>
        requires known { AreKnown self.old.variables clause.now }
        requires filled { is_empty clause.now ≡ false }
        ensures number { IfOk result (λ id. id ≡ length self.old.clauses) }
        ensures added { OnOk result (self.new ≡ with_clause clause.now self.old) }
        ensures size { length self.old.watches ≡ 2 * length self.old.clauses }
        ensures refused { OnErr result (self.new ≡ self.old) }
    {
        self.lists.watches.reserve(2)?;
        self.lists.make_room(clause)?;
        let id = self.clauses.put(clause)?;
        self.lists.push_unattached(clause[0]);
        Ok(id)
    }

    /// The clauses, in the order in which they were added.
    pub fn store(&self) -> &ClauseStore
        ensures clauses { result.now.clauses ≡ self.now.clauses }
        ensures known { All (AreKnown self.now.variables) self.now.clauses }
    {
        self.clauses.store()
    }

    /// The literals of a clause, in the order in which it has them.
    pub fn clause(&self, id: u64) -> &[SatLit]
        requires { id < length self.now.clauses }
        ensures { result.now ≡ clause_at self.now.clauses id }
    {
        self.clauses.get(id)
    }

    /// How many clauses there are.
    pub fn count(&self) -> u64
        ensures { result ≡ length self.now.clauses }
    {
        self.clauses.count()
    }

    /// Attaches a clause. It is watched by two literals that aren't false; or, where only one isn't, by that one, which
    /// is made true, and one that became false at the present level; or it has one literal alone, which is made true.
    /// Some, with its number: all its literals are false, it isn't attached, and nothing changes. It takes no memory.
    pub fn attach(&mut self, id: u64, trail: &mut Trail) -> Option<u64>
        requires there { id < length self.old.clauses }
        requires unattached { IsAttached self.old.watches (2 * id) → ⊥ }
        requires fits { Fits self.old trail.old }
        requires present { IsPresent trail.old }
        requires reached { IsReached trail.old (clause_at self.old.clauses id) }
        ensures attached { IsRewatched self.old self.new }
        ensures others { (t : ℕ) → t ≢ id → IsAttached self.new.watches (2 * t) → IsAttached self.old.watches (2 * t) }
        ensures fits { Fits self.new trail.new }
        ensures present { IsPresent trail.new }
        ensures implied { AreImplied self.old.clauses trail.old trail.new }
        ensures grown { IsGrown trail.old trail.new }
        ensures covered { IfNone result (IsCovered self.new trail.new.entries id) }
        ensures conflict { IfSome result (IsConflict self.new.clauses (literals trail.new.entries)) }
        ensures named { IfSome result (λ found. found ≡ id) }
        ensures same { IfSome result (λ _. trail.new ≡ trail.old) }
        ensures stays { IfSome result (λ _. self.new ≡ self.old) }
    {
        // no more literals are walked than there are
        let _walked = trail.walked();
        match find_watches(trail, self.clauses.get(id), id) {
            Attachment::Two(first, second) => {
                self.lists.attach(2 * id as usize, first, second);
                None
            }
            Attachment::Rooted => None,
            Attachment::Conflict => Some(id),
        }
    }

    /// Walks all literals of a trail that aren't walked, and assigns what is the only literal left of an attached
    /// clause. None: all are walked, and each attached clause has a true literal or two unassigned ones. Some: the
    /// number of an attached clause all of whose literals are false. It takes no memory.
    pub fn propagate(&mut self, trail: &mut Trail) -> Option<u64>
        requires fits { Fits self.old trail.old }
        requires present { IsPresent trail.old }
        ensures rewatched { IsRewatched self.old self.new }
        ensures fits { Fits self.new trail.new }
        ensures present { IsPresent trail.new }
        ensures implied { AreImplied self.old.clauses trail.old trail.new }
        ensures grown { IsGrown trail.old trail.new }
        ensures quiet { IfNone result (AreQuiet self.new (literals trail.new.entries)) }
        ensures walked { IfNone result (trail.new.walked ≡ length trail.new.entries) }
        ensures conflict { IfSome result (IsConflict self.new.clauses (literals trail.new.entries)) }
        ensures attached { IfSome result (λ found. IsAttached self.new.watches (2 * found)) }
    {
        // it brings in that this is a trail
        let _walked = trail.walked();
        let conflict = walk_all(&self.clauses, &mut self.lists, trail);
        // and that it is one still
        let _walked = trail.walked();
        conflict
    }
}

// Looks at the clause at a place of the list of a literal that became false. Some: it is attached, all its literals are
// false, and nothing changes.
fn visit(
    clauses: &Arena,
    lists: &mut Lists,
    trail: &mut Trail,
    literal: SatLit,
    place: usize,
) -> Option<u64>
    requires walking { IsWalking clauses.now.clauses lists.old.watches.items lists.old.store trail.old literal
        (place + 1) }
    ensures walking { IfNone result (IsWalking clauses.now.clauses lists.new.watches.items lists.new.store
        trail.new literal place) }
    ensures grown { IfNone result (IsGrown trail.old trail.new) }
    ensures implied { IfNone result (AreImplied clauses.now.clauses trail.old trail.new) }
    ensures walked { IfNone result (trail.new.walked ≡ trail.old.walked) }
    ensures attached { IfNone result (StayAttached lists.old.watches.items lists.new.watches.items) }
    ensures conflict { IfSome result (IsConflict clauses.now.clauses (literals trail.old.entries)) }
    ensures of_attached { IfSome result (λ id. IsAttached lists.old.watches.items (2 * id)) }
    ensures same_trail { IfSome result (λ _. trail.new ≡ trail.old) }
    ensures same_lists { IfSome result (λ _. lists.new ≡ lists.old) }
{
    let watch = lists.at(literal, place);
    let id = (watch / 2) as u64;
    let other = lists.watches[partner(watch)];
    let Some(moved) = target(trail, clauses, id, other, literal) else {
        return Some(id);
    };
    // it brings in that this is a trail
    let _walked = trail.walked();
    lists.move_watch(literal, place, watch, moved);
    None
}

// Goes over the clauses that watch a literal, whose opposite is the next one to be walked, from the last one to the
// first: what takes the place of a watch that moves was looked at. Some: an attached clause all of whose literals are
// false.
fn walk(clauses: &Arena, lists: &mut Lists, trail: &mut Trail, literal: SatLit) -> Option<u64>
    requires ready { IsReady clauses.now.clauses lists.old.watches.items lists.old.store trail.old }
    requires there { trail.old.walked < length trail.old.entries }
    requires falsity { (entry_at trail.old.entries trail.old.walked).literal.0 ≡ (opposite literal).0 }
    requires known { literal.0 < length lists.old.store }
    ensures none { IfNone result (IsReady clauses.now.clauses lists.new.watches.items lists.new.store
        (record trail.new { walked = trail.new.walked + 1 })) }
    ensures some { IfSome result (λ _. IsReady clauses.now.clauses lists.new.watches.items lists.new.store
        trail.new) }
    ensures conflict { IfSome result (IsConflict clauses.now.clauses (literals trail.new.entries)) }
    ensures of_attached { IfSome result (λ id. IsAttached lists.new.watches.items (2 * id)) }
    ensures grown { IsGrown trail.old trail.new }
    ensures implied { AreImplied clauses.now.clauses trail.old trail.new }
    ensures walked { trail.new.walked ≡ trail.old.walked }
    ensures attached { StayAttached lists.old.watches.items lists.new.watches.items }
{
    let mut left = lists.count(literal);
    while left > 0 {
        left -= 1;
        if let Some(failed) = visit(clauses, lists, trail, literal, left) {
            return Some(failed);
        }
    }
    None
}

// Walks all literals of a trail that aren't walked. Some: an attached clause all of whose literals are false.
fn walk_all(clauses: &Arena, lists: &mut Lists, trail: &mut Trail) -> Option<u64>
    requires ready { IsReady clauses.now.clauses lists.old.watches.items lists.old.store trail.old }
    ensures ready { IsReady clauses.now.clauses lists.new.watches.items lists.new.store trail.new }
    ensures walked { IfNone result (trail.new.walked ≡ length trail.new.entries) }
    ensures conflict { IfSome result (IsConflict clauses.now.clauses (literals trail.new.entries)) }
    ensures of_attached { IfSome result (λ id. IsAttached lists.new.watches.items (2 * id)) }
    ensures grown { IsGrown trail.old trail.new }
    ensures implied { AreImplied clauses.now.clauses trail.old trail.new }
    ensures attached { StayAttached lists.old.watches.items lists.new.watches.items }
{
    while trail.walked() < trail.len() {
        let literal = trail.lit_at(trail.walked()).opposite();
        if let Some(conflict) = walk(clauses, lists, trail, literal) {
            return Some(conflict);
        }
        trail.step();
    }
    None
}
