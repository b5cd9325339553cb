//! Files that are gone over in pieces, and are never whole in memory.

ghost use Rattle.std.specs.Prelude.{◌≡◌, OnOk};
ghost use Rattle.refusal_words.specs.Files.{SameFiles};
ghost use Rattle.shelf_core.specs.State.{Closed, Reading};

use check_steps::{PIECE, ReadStop, zeros};
use shelf_core::Shelf;
use std::alloc::Global;

/// Whether more of a file is needed.
#[derive(Clone, Copy, Debug, PartialEq, Eq)]
pub enum Need {
    More,
    Nothing,
}

/// Whoever looks for something in a file that comes in pieces.
pub trait Seek {
    /// Takes the next bytes of the file, and says whether those after them are needed too.
    fn take(&mut self, alloc: Global, piece: &[u8]) -> Result<Need, ReadStop>;
}

/// Hands what stands under a name to whoever looks for something there, up to the piece after which nothing more is
/// needed. A file that isn't there has no bytes.
pub fn seek_in<S: Shelf, K: Seek>(
    alloc: Global,
    shelf: &mut S,
    name: &str,
    seeker: &mut K,
) -> Result<(), ReadStop>
    requires { (S.state shelf.old).mode ≡ Closed }
    ensures files { SameFiles (S.state shelf.old) (S.state shelf.new) }
    ensures closed { OnOk result ((S.state shelf.new).mode ≡ Closed) }
{
    if shelf.open(name)?.is_none() {
        return Ok(());
    }
    seek_in_open(alloc, shelf, seeker)?;
    Ok(shelf.close()?)
}

/// Hands what is unread of the open file to a seeker.
fn seek_in_open<S: Shelf, K: Seek>(
    alloc: Global,
    shelf: &mut S,
    seeker: &mut K,
) -> Result<(), ReadStop>
    requires { (S.state shelf.old).mode ≡ Reading }
    ensures files { SameFiles (S.state shelf.old) (S.state shelf.new) }
    ensures reading { OnOk result ((S.state shelf.new).mode ≡ Reading) }
{
    let mut piece = zeros(alloc, PIECE)?;
    for _ in 0..u64::MAX {
        if seek_in_next(alloc, shelf, &mut piece, seeker)? == Need::Nothing {
            return Ok(());
        }
    }
    Ok(())
}

/// Reads once, and hands what came to a seeker.
fn seek_in_next<S: Shelf, K: Seek>(
    alloc: Global,
    shelf: &mut S,
    piece: &mut [u8],
    seeker: &mut K,
) -> Result<Need, ReadStop>
    requires { (S.state shelf.old).mode ≡ Reading }
    ensures files { SameFiles (S.state shelf.old) (S.state shelf.new) }
    ensures reading { (S.state shelf.new).mode ≡ Reading }
{
    let count = shelf.read(piece)?;
    if count == 0 {
        return Ok(Need::Nothing);
    }
    seeker.take(alloc, &piece[..count])
}
