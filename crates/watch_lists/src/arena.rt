//! The clauses that are watched.

ghost use Rattle.std.specs.Prelude.{◌≡◌, ◌<◌, ◌++◌, ◌∷◌, [], None, true, IfOk, OnOk, OnErr, length};
ghost use Rattle.cnf_core.specs.Clauses.{clause_at};

use cnf_core::{ClauseStore, SatLit};
use std::alloc::{AllocError, Global};
use std::marker::Model;

/// Clauses in one arena, and which of them are binary: their two watches say what such a clause leaves, so it is never
/// looked at in the arena. Contracts see the clauses alone.
#[derive(Drop)]
pub(crate) struct Arena {
    store: ClauseStore,
    /// Whether each clause has two literals. A byte for each clause lies close together, where it would make a watch
    /// half as large again.
    binary: Vec<bool>,
}

impl Model for Arena {
    ghost use Rattle.std.specs.Prelude.{◌≡◌, map};
    ghost use Rattle.cnf_core.specs.Stores.{Stored};
    ghost use Rattle.watch_lists.specs.Arenas.{is_binary};

    ghost Value = { Stored };

    ghost view = { λ a. a.store };

    ghost invariant = { λ a. a.binary.items ≡ map is_binary a.store.clauses };
}

impl Arena {
    /// No clause.
    pub(crate) fn new(alloc: Global) -> Arena
        ensures { result ≡ record { clauses = []; room = None } }
    {
        Arena {
            store: ClauseStore::new(alloc),
            binary: Vec::new(alloc),
        }
    }

    /// The clauses, in the order in which they were put.
    pub(crate) fn store(&self) -> &ClauseStore
        ensures { result.now ≡ self.now }
    {
        &self.store
    }

    /// How many clauses there are.
    pub(crate) fn count(&self) -> u64
        ensures { result ≡ length self.now.clauses }
    {
        self.store.count()
    }

    /// The literals of a clause.
    pub(crate) fn get(&self, id: u64) -> &[SatLit]
        requires { id < length self.now.clauses }
        ensures { result.now ≡ clause_at self.now.clauses id }
    {
        self.store.get(id)
    }

    /// Whether a clause has two literals.
    pub(crate) fn is_binary(&self, id: u64) -> bool
        requires { id < length self.now.clauses }
        ensures { result ≡ true → length (clause_at self.now.clauses id) ≡ 2 }
    {
        self.binary[id as usize]
    }

    /// Puts a clause after the others and answers its number. A refusal changes nothing.
    pub(crate) fn put(&mut self, clause: &[SatLit]) -> Result<u64, AllocError>
        ensures number { IfOk result (λ id. id ≡ length self.old.clauses) }
        ensures put { OnOk result (self.new ≡ record { clauses = self.old.clauses ++ clause.now ∷ []; room = None }) }
        ensures refused { OnErr result (self.new ≡ self.old) }
    {
        self.binary.reserve(1)?;
        let id = self.store.put(clause)?;
        self.binary.push_reserved(clause.len() == 2);
        Ok(id)
    }
}
