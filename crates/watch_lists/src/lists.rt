//! The watches of clauses, and the lists of literals.

ghost use Rattle.std.specs.Prelude.{◌≡◌, ◌≢◌, ◌+◌, ◌*◌, ◌%◌, ◌^◌, ◌<◌, ◌≤◌, ℕ, ◌++◌, ◌∷◌, [], All, OnOk, OnErr, length};
ghost use Rattle.std.specs.Prelude.{slice_set, vec_len, vec_capacity};
ghost use Rattle.watch_lists.specs.Lists.{ArePut, IsRoomier, list_at, list_of, partner, put_in};
ghost use Rattle.watch_lists.specs.Lists.{roomier_at, taken_from, watch_at};

use crate::list_store::ListStore;
use cnf_core::SatLit;
use std::alloc::{AllocError, Global};

/// The watches of all clauses, those of clause `id` at `2 * id` and after it, each by the literal that it watches; and
/// for each literal the list of the watches that watch it. The two watches of a clause lie side by side, so that the
/// other one is found without the clause.
#[derive(Drop)]
pub(crate) struct Lists {
    pub(crate) watches: Vec<SatLit>,
    pub(crate) store: ListStore,
}

/// The other watch of the same clause.
pub(crate) fn partner(watch: usize) -> usize
    requires { watch + 1 < 2 ^ 64 }
    ensures { result ≡ partner watch }
{
    if watch % 2 == 0 { watch + 1 } else { watch - 1 }
}

impl Lists {
    /// How many watches a literal has.
    pub(crate) fn count(&self, literal: SatLit) -> usize
        requires { literal.0 < length self.now.store }
        ensures { result ≡ length (list_of self.now.store literal.0) }
    {
        self.store.count(literal)
    }

    /// The watch at a place of a literal's list.
    pub(crate) fn at(&self, literal: SatLit, place: usize) -> usize
        requires known { literal.0 < length self.now.store }
        requires there { place < length (list_of self.now.store literal.0) }
        ensures { result ≡ watch_at (list_of self.now.store literal.0) place }
    {
        self.store.at(literal, place)
    }

    // Takes the watch at a place of a literal's list out.
    fn take_out(&mut self, literal: SatLit, place: usize)
        requires known { literal.0 < length self.old.store }
        requires there { place < length (list_of self.old.store literal.0) }
        ensures watches { self.new.watches ≡ self.old.watches }
        ensures lists { self.new.store ≡ taken_from literal.0 place self.old.store }
    {
        self.store.take_out(literal, place);
    }

    // Has a watch, which is in no list, watch a literal.
    fn put(&mut self, watch: usize, literal: SatLit)
        requires there { watch < length self.old.watches.items }
        requires known { literal.0 < length self.old.store }
        requires room { 0 < (list_at self.old.store literal.0).room }
        ensures watches { self.new.watches.items ≡ slice_set self.old.watches.items watch literal }
        ensures lists { self.new.store ≡ put_in literal.0 watch self.old.store }
    {
        self.watches[watch] = literal;
        self.store.push(literal, watch);
    }

    /// Moves the watch at a place of a literal's list to that of another literal. Where it is the same one nothing
    /// changes.
    pub(crate) fn move_watch(&mut self, literal: SatLit, place: usize, watch: usize, moved: SatLit)
        requires there { watch < length self.old.watches.items }
        requires known { literal.0 < length self.old.store }
        requires within { place < length (list_of self.old.store literal.0) }
        requires moved { moved.0 < length self.old.store }
        requires room { moved.0 ≢ literal.0 → 0 < (list_at self.old.store moved.0).room }
        ensures stays { moved.0 ≡ literal.0 → self.new ≡ self.old }
        ensures watches { moved.0 ≢ literal.0 → self.new.watches.items ≡ slice_set self.old.watches.items watch moved }
        ensures lists { moved.0 ≢ literal.0 → self.new.store
            ≡ put_in moved.0 watch (taken_from literal.0 place self.old.store) }
    {
        if moved == literal {
            return;
        }
        self.take_out(literal, place);
        self.put(watch, moved);
    }

    /// Puts the two watches of a clause, which are in no list, into the lists of two literals.
    pub(crate) fn attach(&mut self, watch: usize, first: SatLit, second: SatLit)
        requires there { watch + 1 < length self.old.watches.items }
        requires first { first.0 < length self.old.store }
        requires second { second.0 < length self.old.store }
        requires differ { first.0 ≢ second.0 }
        requires first_room { 0 < (list_at self.old.store first.0).room }
        requires second_room { 0 < (list_at self.old.store second.0).room }
        ensures put { ArePut self.old.watches.items self.new.watches.items watch first second }
        ensures lists { self.new.store ≡ put_in second.0 (watch + 1) (put_in first.0 watch self.old.store) }
    {
        self.put(watch, first);
        self.put(watch + 1, second);
    }

    /// Makes room for a watch more of each literal of a clause. A refusal leaves all that is watched.
    pub(crate) fn make_room(&mut self, clause: &[SatLit]) -> Result<(), AllocError>
        requires { All (λ literal. literal.0 < length self.old.store) clause.now }
        ensures watches { self.new.watches ≡ self.old.watches }
        ensures roomier { OnOk result (IsRoomier self.old.store self.new.store clause.now
            (length clause.now)) }
        ensures refused { OnErr result (IsRoomier self.old.store self.new.store clause.now 0) }
    {
        for literal in clause.iter() {
            self.make_one(*literal)?;
        }
        Ok(())
    }

    // Makes room for one watch more of a literal. A refusal changes nothing.
    fn make_one(&mut self, literal: SatLit) -> Result<(), AllocError>
        requires { literal.0 < length self.old.store }
        ensures watches { self.new.watches ≡ self.old.watches }
        ensures made { OnOk result (self.new.store ≡ roomier_at literal.0 self.old.store) }
        ensures refused { OnErr result (self.new.store ≡ self.old.store) }
    {
        self.store.make_room(literal)
    }

    /// Adds the two watches of a clause, for which there is room, and which are in no list.
    pub(crate) fn push_unattached(&mut self, literal: SatLit)
        requires room { vec_len self.old.watches + 2 ≤ vec_capacity self.old.watches }
        ensures watches { self.new.watches.items ≡ self.old.watches.items ++ literal ∷ literal ∷ [] }
        ensures few { length self.new.watches.items < 2 ^ 64 }
        ensures lists { self.new.store ≡ self.old.store }
    {
        self.watches.push_reserved(literal);
        self.watches.push_reserved(literal);
        // they are fewer than 2^64
        let _len = self.watches.len();
    }
}
