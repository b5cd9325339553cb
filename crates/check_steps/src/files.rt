//! Whole files from a shelf.

ghost use Rattle.std.specs.Prelude.{◌≡◌, ℕ, ◌<◌, ◌≤◌, List, IsTrue, IfOk, OnOk, Some, Err, length, replicate};
ghost use Rattle.shelf_core.specs.Fault.{NoCallFollows, Rose};
ghost use Rattle.shelf_core.specs.State.{Closed, Reading};
ghost use Rattle.check_steps.specs.Files.{HasUnread, ReadsFile, ReadsOpen, ReadsPiece, ReadsWhole};

use shelf_core::{Shelf, ShelfStop};
use std::alloc::{AllocError, Global};

/// The bytes that one read asks for: so many that what a call of the system costs beside them is lost.
pub const PIECE: usize = 65_536;

/// Why a file was not read.
#[derive(Clone, Copy, Debug, PartialEq, Eq)]
pub enum ReadStop {
    /// The shelf failed.
    ReadFault,
    /// There was no memory.
    Memory,
}

impl From<ShelfStop> for ReadStop {
    ghost use Rattle.check_steps.specs.ReadStops.{stop_of};

    ghost from_gives = { λ stop e. e ≡ stop_of stop };

    fn from(stop: ShelfStop) -> ReadStop {
        match stop {
            ShelfStop::Failed => ReadStop::ReadFault,
            ShelfStop::Memory => ReadStop::Memory,
        }
    }
}

impl From<AllocError> for ReadStop {
    ghost use Rattle.check_steps.specs.declared.files.ReadStop.TheVariants.{Memory};

    ghost from_gives = { λ _ e. e ≡ Memory };

    fn from(_stop: AllocError) -> ReadStop {
        ReadStop::Memory
    }
}

/// What stands under a name.
#[derive(Debug, Drop)]
pub enum File {
    /// There is no such file.
    Absent,
    /// The file has more bytes than the limit.
    TooLong,
    /// The file's bytes.
    Bytes(Vec<u8>),
}

/// Reads a file whole if it has at most `limit` bytes; a longer one is closed unread.
pub fn read_file<S: Shelf>(
    alloc: Global,
    shelf: &mut S,
    name: &str,
    limit: u64,
) -> Result<File, ReadStop>
    requires { (S.state shelf.old).mode ≡ Closed }
    ensures { ReadsFile S.tells limit ((S.state shelf.old).held name.now)
        (S.state shelf.old) (S.state shelf.new) result }
{
    match shelf.open(name)? {
        None => Ok(File::Absent),
        Some(length) => read_open(alloc, shelf, length, limit),
    }
}

/// Reads a file whole, however long it is: a number of 64 bits counts its bytes.
pub fn read_whole<S: Shelf>(
    alloc: Global,
    shelf: &mut S,
    name: &str,
) -> Result<Option<Vec<u8>>, ReadStop>
    requires { (S.state shelf.old).mode ≡ Closed }
    ensures { ReadsWhole S.tells ((S.state shelf.old).held name.now) (S.state shelf.old) (S.state shelf.new) result }
{
    match shelf.open(name)? {
        None => Ok(None),
        Some(size) => Ok(Some(read_to_end(alloc, shelf, size)?)),
    }
}

/// Reads the open file, of `size` bytes, if they aren't too many, and closes it.
fn read_open<S: Shelf>(
    alloc: Global,
    shelf: &mut S,
    size: u64,
    limit: u64,
) -> Result<File, ReadStop>
    requires { HasUnread S.tells (S.state shelf.old) size }
    ensures { ReadsFile S.tells limit (Some (S.state shelf.old).unread)
        (S.state shelf.old) (S.state shelf.new) result }
{
    if size > limit {
        shelf.close()?;
        return Ok(File::TooLong);
    }
    Ok(File::Bytes(read_to_end(alloc, shelf, size)?))
}

/// Reads the open file, of `size` bytes, and closes it.
fn read_to_end<S: Shelf>(alloc: Global, shelf: &mut S, size: u64) -> Result<Vec<u8>, ReadStop>
    requires { HasUnread S.tells (S.state shelf.old) size }
    ensures { ReadsOpen S.tells size (S.state shelf.old) (S.state shelf.new) result }
{
    let mut piece = zeros(alloc, PIECE)?;
    let bytes = read_rest(alloc, shelf, &mut piece, size)?;
    shelf.close()?;
    Ok(bytes)
}

/// Reads what is unread of the open file, piece by piece.
fn read_rest<S: Shelf>(
    alloc: Global,
    shelf: &mut S,
    piece: &mut [u8],
    size: u64,
) -> Result<Vec<u8>, ReadStop>
    requires unread { HasUnread S.tells (S.state shelf.old) size }
    requires room { 0 < length piece.old }
    ensures bytes { IsTrue S.tells
        → IfOk result (λ bytes. bytes.items ≡ (S.state shelf.old).unread) }
    ensures size { IfOk result (λ bytes. length bytes.items ≡ size) }
    ensures reading { OnOk result ((S.state shelf.new).mode ≡ Reading) }
    ensures files { (n : List ℕ) → (S.state shelf.new).held n ≡ (S.state shelf.old).held n }
    ensures clean { OnOk result ((S.state shelf.new).faults ≡ (S.state shelf.old).faults) }
    ensures last { NoCallFollows (S.state shelf.old) (S.state shelf.new) }
    ensures failed { result ≡ Err ReadStop.ReadFault
        → Rose (S.state shelf.old).faults (S.state shelf.new).faults }
{
    let mut bytes = Vec::new(alloc);
    let mut left = size;
    while left > 0 {
        left -= read_piece(shelf, piece, &mut bytes)?;
    }
    Ok(bytes)
}

/// Reads once, adds what came to `bytes`, and answers how much came.
fn read_piece<S: Shelf>(
    shelf: &mut S,
    piece: &mut [u8],
    bytes: &mut Vec<u8>,
) -> Result<u64, ReadStop>
    requires reading { (S.state shelf.old).mode ≡ Reading }
    requires left { 0 < (S.state shelf.old).left }
    requires room { 0 < length piece.old }
    ensures { ReadsPiece S.tells (S.state shelf.old) (S.state shelf.new)
        bytes.old.items bytes.new.items result }
{
    let count = shelf.read(piece)?;
    bytes.extend_from_slice(&piece[..count])?;
    Ok(count as u64)
}

/// `count` zeros.
// A function, so that no caller slices a vector of literal length: that ends the prover in deep recursion.
pub fn zeros(alloc: Global, count: usize) -> Result<Vec<u8>, AllocError>
    ensures { IfOk result (λ bytes. bytes.items ≡ replicate count 0) }
{
    vec![in alloc; 0; count]
}
