ghost use Rattle.std.specs.Prelude.{◌≡◌, ◌≢◌, ◌↔◌, ℕ, ◌≤◌, min, List, map, true, None, Some, Ok, Err, IfOk};
ghost use Rattle.std.specs.Prelude.{MatchOption, string_bytes, AllPairs, length};
ghost use Rattle.shelf_core.specs.State.{Closed, Reading, Writing};
ghost use Rattle.shelf_core.specs.Calls.{Opens, Reads, Creates, Appends, Closes};
ghost use Rattle.shelf_core.specs.Safe.{look_up};
ghost use Rattle.shelf_core.specs.Failing.{FailsNext, IsCounted};
ghost use Rattle.shelf_core.specs.Fakes.{failing_of, most_read};

use crate::failing::Failing;
use crate::outside::{Shelf, ShelfStop};
use crate::safe_shelf::SafeShelf;
use std::alloc::{AllocError, Global};

/// A shelf in memory of which some calls fail, to try what a program does then. Its calls are numbered from 0. A call
/// whose number is among those to fail counts a fault and changes no file; a `close` that fails still closes. Each
/// other call does what it does on a [`SafeShelf`].
#[derive(Debug, Drop)]
pub struct MemShelf {
    inside: SafeShelf,
    failing: Failing,
}

impl MemShelf {
    /// A shelf with these files, no two of one name, that reads at most `cut` bytes a call, and fails at the calls of
    /// these numbers. None is open. There may be no memory for it.
    pub fn new(
        alloc: Global,
        files: Vec<(String, Vec<u8>)>,
        cut: usize,
        fail: Vec<u64>,
    ) -> Result<MemShelf, AllocError>
        requires distinct { AllPairs (λ a b. string_bytes a.0 ≢ string_bytes b.0) files.items }
        requires cuts { 1 ≤ cut }
        ensures closed { IfOk result (λ shelf. (⟦<MemShelf as Shelf>⟧.state shelf).mode ≡ Closed) }
        ensures files { IfOk result (λ shelf. (name : List ℕ) → (⟦<MemShelf as Shelf>⟧.state shelf).held name ≡
            look_up (map (λ file. (string_bytes file.0, file.1.items)) files.items) name) }
        ensures cut { IfOk result (λ shelf. most_read shelf ≡ cut) }
        ensures fail { IfOk result (λ shelf. failing_of shelf
            ≡ record { numbers = fail.items; calls = 0; faults = 0; latest = 0 }) }
    {
        Ok(MemShelf {
            inside: SafeShelf::new(alloc, files, cut)?,
            failing: Failing::new(fail),
        })
    }

    /// The bytes of a file, or `None` where there is none of that name.
    pub fn file(&self, name: &str) -> Option<&[u8]>
        ensures { MatchOption result ((⟦<MemShelf as Shelf>⟧.state self.now).held name.now ≡ None)
            (λ bytes. (⟦<MemShelf as Shelf>⟧.state self.now).held name.now ≡ Some bytes.now) }
    {
        self.inside.file(name)
    }

    /// How many calls of a shelf were made, also those that failed, up to 2^64 - 1, where the count stays.
    pub fn calls(&self) -> u64
        ensures { result ≡ (failing_of self.now).calls }
    {
        self.failing.calls()
    }
}

impl Shelf for MemShelf {
    ghost use Rattle.shelf_core.specs.Fakes.{with_faults};

    ghost tells = { true };

    ghost state = { λ shelf. with_faults (⟦<SafeShelf as Shelf>⟧.state shelf.inside) shelf.failing };

    fn open(&mut self, name: &str) -> Result<Option<u64>, ShelfStop>
        requires { (⟦<MemShelf as Shelf>⟧.state self.old).mode ≡ Closed }
        ensures opens { Opens true name.now (⟦<MemShelf as Shelf>⟧.state self.old)
            (⟦<MemShelf as Shelf>⟧.state self.new) result }
        ensures fails { (result ≡ Err ShelfStop.Failed) ↔ FailsNext (failing_of self.old) }
        ensures no_memory { result ≢ Err ShelfStop.Memory }
        ensures counted { IsCounted (failing_of self.old) (failing_of self.new) }
        ensures cut { most_read self.new ≡ most_read self.old }
    {
        self.failing.next()?;
        self.inside.open(name)
    }

    fn read(&mut self, buf: &mut [u8]) -> Result<usize, ShelfStop>
        requires { (⟦<MemShelf as Shelf>⟧.state self.old).mode ≡ Reading }
        ensures reads { Reads true (⟦<MemShelf as Shelf>⟧.state self.old)
            (⟦<MemShelf as Shelf>⟧.state self.new) buf.old buf.new result }
        ensures amount { IfOk result (λ count. count
            ≡ min (min (most_read self.old) (⟦<MemShelf as Shelf>⟧.state self.old).left) (length buf.old)) }
        ensures fails { (result ≡ Err ShelfStop.Failed) ↔ FailsNext (failing_of self.old) }
        ensures no_memory { result ≢ Err ShelfStop.Memory }
        ensures counted { IsCounted (failing_of self.old) (failing_of self.new) }
        ensures cut { most_read self.new ≡ most_read self.old }
    {
        self.failing.next()?;
        self.inside.read(buf)
    }

    fn create(&mut self, name: &str) -> Result<(), ShelfStop>
        requires { (⟦<MemShelf as Shelf>⟧.state self.old).mode ≡ Closed }
        ensures creates { Creates true name.now (⟦<MemShelf as Shelf>⟧.state self.old)
            (⟦<MemShelf as Shelf>⟧.state self.new) result }
        ensures fails { (result ≡ Err ShelfStop.Failed) ↔ FailsNext (failing_of self.old) }
        ensures kept { result ≡ Err ShelfStop.Failed → (n : List ℕ)
            → (⟦<MemShelf as Shelf>⟧.state self.new).held n ≡ (⟦<MemShelf as Shelf>⟧.state self.old).held n }
        ensures counted { IsCounted (failing_of self.old) (failing_of self.new) }
        ensures cut { most_read self.new ≡ most_read self.old }
    {
        self.failing.next()?;
        self.inside.create(name)
    }

    fn append(&mut self, piece: &[u8]) -> Result<(), ShelfStop>
        requires { (⟦<MemShelf as Shelf>⟧.state self.old).mode ≡ Writing }
        ensures appends { Appends true piece.now (⟦<MemShelf as Shelf>⟧.state self.old)
            (⟦<MemShelf as Shelf>⟧.state self.new) result }
        ensures fails { (result ≡ Err ShelfStop.Failed) ↔ FailsNext (failing_of self.old) }
        ensures kept { result ≡ Err ShelfStop.Failed → (n : List ℕ)
            → (⟦<MemShelf as Shelf>⟧.state self.new).held n ≡ (⟦<MemShelf as Shelf>⟧.state self.old).held n }
        ensures counted { IsCounted (failing_of self.old) (failing_of self.new) }
        ensures cut { most_read self.new ≡ most_read self.old }
    {
        self.failing.next()?;
        self.inside.append(piece)
    }

    fn close(&mut self) -> Result<(), ShelfStop>
        requires { (⟦<MemShelf as Shelf>⟧.state self.old).mode ≢ Closed }
        ensures closes { Closes true (⟦<MemShelf as Shelf>⟧.state self.old)
            (⟦<MemShelf as Shelf>⟧.state self.new) result }
        ensures fails { (result ≡ Err ShelfStop.Failed) ↔ FailsNext (failing_of self.old) }
        ensures no_memory { result ≢ Err ShelfStop.Memory }
        ensures counted { IsCounted (failing_of self.old) (failing_of self.new) }
        ensures cut { most_read self.new ≡ most_read self.old }
    {
        self.inside.close()?;
        self.failing.next()
    }
}
