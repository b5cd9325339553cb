ghost use Rattle.std.specs.Prelude.{◌≡◌, ◌≢◌, ℕ, ◌+◌, ◌-◌, ◌<◌, ◌≤◌, min, List, [], ◌∷◌, ◌++◌, length, take, drop, map};
ghost use Rattle.std.specs.Prelude.{true, None, Some, Ok, IsOk, OnOk, OnErr, IfOk, IfSome, IfNone, MatchOption};
ghost use Rattle.std.specs.Prelude.{string_bytes, vec_len, AllPairs};
ghost use Rattle.shelf_core.specs.State.{Closed, Reading, Writing};
ghost use Rattle.shelf_core.specs.Calls.{Opens, Reads, Creates, Appends, Closes};
ghost use Rattle.shelf_core.specs.Safe.{look_up, IsPlace, file_at, grow_first, safe_shelf, places_needed, bytes_needed};
ghost use Rattle.shelf_core.specs.Safe.{open_bytes};

use crate::copy::copy_some;
use crate::outside::{Shelf, ShelfStop};
use crate::stored_file::StoredFile;
use std::alloc::{AllocError, Global};

/// A shelf in memory, which never fails: `create` and `append` are refused only when out of memory, and the other calls
/// never are.
#[derive(Debug, Drop)]
pub struct SafeShelf {
    alloc: Global,
    files: Vec<StoredFile>,
    opened: Opened,
    cut: usize,
    calls: u64,
    ghost cuts: { 0 < cut },
    ghost place: { places_needed opened ≤ vec_len files },
    ghost read: { bytes_needed opened ≤ length (open_bytes files.items opened) },
}

/// Which file is open, if any: the one at a place, read up to a byte, or the first one, to be written.
#[derive(Clone, Copy, Debug)]
enum Opened {
    No,
    Reading { place: usize, at: usize },
    Writing,
}

impl SafeShelf {
    ghost use Rattle.shelf_core.specs.Cut.{cut_of};
    ghost use Rattle.shelf_core.specs.CallCount.{calls_of};

    /// A shelf with these files, no two of one name, that reads at most `cut` bytes a call. None is open.
    /// There may be no memory for it.
    pub fn new(
        alloc: Global,
        files: Vec<(String, Vec<u8>)>,
        cut: usize,
    ) -> Result<SafeShelf, AllocError>
        requires distinct { AllPairs (λ a b. string_bytes a.0 ≢ string_bytes b.0) files.items }
        requires cuts { 1 ≤ cut }
        ensures closed { IfOk result (λ shelf. (⟦<SafeShelf as Shelf>⟧.state shelf).mode ≡ Closed) }
        ensures files { IfOk result (λ shelf. (name : List ℕ) → (⟦<SafeShelf as Shelf>⟧.state shelf).held name ≡
            look_up (map (λ file. (string_bytes file.0, file.1.items)) files.items) name) }
        ensures faultless { IfOk result (λ shelf. (⟦<SafeShelf as Shelf>⟧.state shelf).faults ≡ 0) }
        ensures cut { IfOk result (λ shelf. cut_of shelf ≡ cut) }
        ensures uncalled { IfOk result (λ shelf. calls_of shelf ≡ 0) }
    {
        Ok(SafeShelf {
            alloc,
            files: store(alloc, files)?,
            opened: Opened::No,
            cut,
            calls: 0,
        })
    }

    /// The bytes of a file, or `None` where there is none of that name.
    pub fn file(&self, name: &str) -> Option<&[u8]>
        ensures { MatchOption result ((⟦<SafeShelf as Shelf>⟧.state self.now).held name.now ≡ None)
            (λ bytes. (⟦<SafeShelf as Shelf>⟧.state self.now).held name.now ≡ Some bytes.now) }
    {
        match place_of(&self.files, name) {
            Some(place) => Some(bytes_at(&self.files, place)),
            None => None,
        }
    }

    /// How many calls of a shelf were made, up to 2^64 - 1, where the count stays.
    pub fn calls(&self) -> u64
        ensures { result ≡ calls_of self.now }
    {
        self.calls
    }

    /// A shelf in memory has no failures: by what the calls of a shelf say, `ShelfStop::Failed` never comes from it.
    pub fn never_fails(&self)
        ensures { (⟦<SafeShelf as Shelf>⟧.state self.now).faults ≡ 0 }
    {}
}

impl Shelf for SafeShelf {
    ghost use Rattle.shelf_core.specs.Cut.{cut_of};
    ghost use Rattle.shelf_core.specs.CallCount.{calls_of, one_more};

    ghost tells = { true };

    ghost state = { λ shelf. safe_shelf shelf.files.items shelf.opened };

    fn open(&mut self, name: &str) -> Result<Option<u64>, ShelfStop>
        requires { (⟦<SafeShelf as Shelf>⟧.state self.old).mode ≡ Closed }
        ensures opens { Opens true name.now (⟦<SafeShelf as Shelf>⟧.state self.old)
            (⟦<SafeShelf as Shelf>⟧.state self.new) result }
        ensures answers { IsOk result }
        ensures cut { cut_of self.new ≡ cut_of self.old }
        ensures calls { calls_of self.new ≡ one_more (calls_of self.old) }
    {
        self.calls = self.calls.saturating_add(1);
        let Some(place) = place_of(&self.files, name) else {
            return Ok(None);
        };
        let len = bytes_at(&self.files, place).len();
        self.opened = Opened::Reading { place, at: 0 };
        Ok(Some(len as u64))
    }

    fn read(&mut self, buf: &mut [u8]) -> Result<usize, ShelfStop>
        requires { (⟦<SafeShelf as Shelf>⟧.state self.old).mode ≡ Reading }
        ensures reads { Reads true (⟦<SafeShelf as Shelf>⟧.state self.old)
            (⟦<SafeShelf as Shelf>⟧.state self.new) buf.old buf.new result }
        ensures amount { result
            ≡ Ok (min (min (cut_of self.old) (⟦<SafeShelf as Shelf>⟧.state self.old).left) (length buf.old)) }
        ensures cut { cut_of self.new ≡ cut_of self.old }
        ensures calls { calls_of self.new ≡ one_more (calls_of self.old) }
    {
        self.calls = self.calls.saturating_add(1);
        let Opened::Reading { place, at } = self.opened else {
            unreachable!()
        };
        let count = copy_some(bytes_at(&self.files, place), at, buf, self.cut);
        self.opened = Opened::Reading {
            place,
            at: at + count,
        };
        Ok(count)
    }

    fn create(&mut self, name: &str) -> Result<(), ShelfStop>
        requires { (⟦<SafeShelf as Shelf>⟧.state self.old).mode ≡ Closed }
        ensures creates { Creates true name.now (⟦<SafeShelf as Shelf>⟧.state self.old)
            (⟦<SafeShelf as Shelf>⟧.state self.new) result }
        ensures cut { cut_of self.new ≡ cut_of self.old }
        ensures calls { calls_of self.new ≡ one_more (calls_of self.old) }
    {
        self.calls = self.calls.saturating_add(1);
        renew(self.alloc, &mut self.files, name)?;
        self.opened = Opened::Writing;
        Ok(())
    }

    fn append(&mut self, piece: &[u8]) -> Result<(), ShelfStop>
        requires { (⟦<SafeShelf as Shelf>⟧.state self.old).mode ≡ Writing }
        ensures appends { Appends true piece.now (⟦<SafeShelf as Shelf>⟧.state self.old)
            (⟦<SafeShelf as Shelf>⟧.state self.new) result }
        ensures cut { cut_of self.new ≡ cut_of self.old }
        ensures calls { calls_of self.new ≡ one_more (calls_of self.old) }
    {
        self.calls = self.calls.saturating_add(1);
        grow_first_of(&mut self.files, piece)?;
        Ok(())
    }

    fn close(&mut self) -> Result<(), ShelfStop>
        requires { (⟦<SafeShelf as Shelf>⟧.state self.old).mode ≢ Closed }
        ensures closes { Closes true (⟦<SafeShelf as Shelf>⟧.state self.old)
            (⟦<SafeShelf as Shelf>⟧.state self.new) result }
        ensures answers { IsOk result }
        ensures cut { cut_of self.new ≡ cut_of self.old }
        ensures calls { calls_of self.new ≡ one_more (calls_of self.old) }
    {
        self.calls = self.calls.saturating_add(1);
        self.opened = Opened::No;
        Ok(())
    }
}

/// The files as they are stored, in their order.
fn store(alloc: Global, files: Vec<(String, Vec<u8>)>) -> Result<Vec<StoredFile>, AllocError>
    ensures { IfOk result (λ stored. stored.items ≡ map (λ file. (string_bytes file.0, file.1.items)) files.items) }
{
    files
        .into_iter()
        .map(|(name, bytes)| StoredFile::new(name, bytes))
        .collect(alloc)
}

/// The place of the first file of a name.
fn place_of(files: &[StoredFile], name: &str) -> Option<usize>
    ensures absent { IfNone result (look_up files.now name.now ≡ None) }
    ensures place { IfSome result (IsPlace files.now name.now) }
{
    for (place, file) in files.iter().enumerate() {
        if file.is_called(name) {
            return Some(place);
        }
    }
    None
}

/// The bytes of the file at a place.
fn bytes_at(files: &[StoredFile], place: usize) -> &[u8]
    requires { place < length files.now }
    ensures { result.now ≡ (file_at files.now place).1 }
{
    files[place].bytes()
}

/// Makes the file of a name: it is empty then, and the first. Where there is no memory, all files stay.
fn renew(alloc: Global, files: &mut Vec<StoredFile>, name: &str) -> Result<(), AllocError>
    ensures first { OnOk result (IsPlace files.new.items name.now 0) }
    ensures empty { OnOk result (look_up files.new.items name.now ≡ Some []) }
    ensures others { OnOk result ((n : List ℕ) → n ≢ name.now → look_up files.new.items n ≡ look_up files.old.items n) }
    ensures err { OnErr result (files.new.items ≡ files.old.items) }
{
    let older = place_of(files, name);
    let empty = StoredFile::new(String::from_str(alloc, name)?, Vec::new(alloc));
    files.insert(0, empty)?;
    if let Some(place) = older {
        files.remove(place + 1);
    }
    Ok(())
}

/// Adds a piece at the end of the first file. Where there is no memory for it, all files stay.
fn grow_first_of(files: &mut Vec<StoredFile>, piece: &[u8]) -> Result<(), AllocError>
    requires { 0 < vec_len files.old }
    ensures ok { OnOk result (files.new.items ≡ grow_first files.old.items piece.now) }
    ensures err { OnErr result (files.new.items ≡ files.old.items) }
{
    files[0].grow(piece)
}
