//! Names that have numbers.

ghost use Rattle.std.specs.Prelude.{◌≡◌, [], unwrap_or, OnOk, OnErr};
ghost use Rattle.hier_blif.specs.Scopes.{number_of, with_number};

use indexmap::IndexMap;
use std::alloc::{AllocError, Global};
use std::marker::Model;

/// Names, each with a number, which is the first that it was given.
#[derive(Drop)]
pub(crate) struct NameNumbers<'a> {
    inside: IndexMap<&'a [u8], u64>,
}

impl<'a> Model for NameNumbers<'a> {
    ghost use Rattle.std.specs.Prelude.{ℕ, List, map};

    ghost Value = { List (List ℕ × ℕ) };

    ghost view = { λ a. map (λ entry. (entry.0.now, entry.1)) a.inside.entries };
}

impl<'a> NameNumbers<'a> {
    pub(crate) fn new(alloc: Global) -> NameNumbers<'a>
        ensures { result ≡ [] }
    {
        NameNumbers {
            inside: IndexMap::new(alloc),
        }
    }

    /// The number of a name, if it has one.
    pub(crate) fn get(&self, name: &[u8]) -> Option<u64>
        ensures { result ≡ number_of self.now name.now }
    {
        self.inside.get(name).copied()
    }

    /// The number of a name, and 0 if it has none.
    pub(crate) fn number(&self, name: &[u8]) -> u64
        ensures { result ≡ unwrap_or (number_of self.now name.now) 0 }
    {
        self.get(name).unwrap_or(0)
    }

    /// Gives a name a number, unless it has one.
    pub(crate) fn put(&mut self, name: &'a [u8], number: u64) -> Result<(), AllocError>
        ensures ok { OnOk result (self.new ≡ with_number self.old name.now number) }
        ensures err { OnErr result (self.new ≡ self.old) }
    {
        if self.inside.contains_key(&name) {
            return Ok(());
        }
        let _ = self.inside.insert(name, number)?;
        Ok(())
    }
}
