//! Texts that are printed part by part, written to a shelf.

ghost use Rattle.std.specs.Prelude.{◌≡◌, ◌≤◌, [], ◌++◌, OnOk, drop, vec_len};
ghost use Rattle.account_write.specs.Records.{account_of, records_of};
ghost use Rattle.shelf_core.specs.State.{Closed, Writing};
ghost use Rattle.run_steps.specs.Writing.{WritesFile, WritesOn};

use account_write::{Account, last_line};
use shelf_core::{Shelf, ShelfStop};
use std::alloc::Global;
use text_core::Parts;

/// The bytes that one append writes, but for the last ones.
const PIECE: usize = 65_536;

/// Writes an account under a name, in place of what stands under the name: its lines up to the last one in pieces, and
/// the last one by itself, so that a file that was cut off doesn't end as an account does. After a failed call no
/// further call is made.
pub fn write_account<S: Shelf>(
    alloc: Global,
    shelf: &mut S,
    name: &str,
    account: &Account,
) -> Result<(), ShelfStop>
    requires { (S.state shelf.old).mode ≡ Closed }
    ensures { WritesFile S.tells name.now (account_of (records_of account.now))
        (S.state shelf.old) (S.state shelf.new) result }
{
    let mut lines = account.lines();
    write_with_end(alloc, shelf, name, &mut lines, last_line())
}

/// Writes a text and its end under a name, in place of what stands under the name: the text in pieces, and the end by
/// itself. After a refusal no further call is made.
pub fn write_with_end<S: Shelf, P: Parts>(
    alloc: Global,
    shelf: &mut S,
    name: &str,
    text: &mut P,
    end: &[u8],
) -> Result<(), ShelfStop>
    requires { (S.state shelf.old).mode ≡ Closed }
    ensures writes { WritesFile S.tells name.now (P.left text.old ++ end.now)
        (S.state shelf.old) (S.state shelf.new) result }
    ensures closed { OnOk result ((S.state shelf.new).mode ≡ Closed) }
{
    shelf.create(name)?;
    append_with_end(alloc, shelf, text, end)?;
    shelf.close()
}

/// Writes a text under a name, in place of what stands under the name. After a failed call no further call is made.
pub fn write_text<S: Shelf, P: Parts>(
    alloc: Global,
    shelf: &mut S,
    name: &str,
    text: &mut P,
) -> Result<(), ShelfStop>
    requires { (S.state shelf.old).mode ≡ Closed }
    ensures writes { WritesFile S.tells name.now (P.left text.old) (S.state shelf.old) (S.state shelf.new) result }
    ensures closed { OnOk result ((S.state shelf.new).mode ≡ Closed) }
{
    shelf.create(name)?;
    append_text(alloc, shelf, text)?;
    shelf.close()
}

/// Writes a text and its end to the open file.
fn append_with_end<S: Shelf, P: Parts>(
    alloc: Global,
    shelf: &mut S,
    text: &mut P,
    end: &[u8],
) -> Result<(), ShelfStop>
    requires { (S.state shelf.old).mode ≡ Writing }
    ensures { WritesOn S.tells (P.left text.old ++ end.now) [] (S.state shelf.old) (S.state shelf.new) result }
{
    append_text(alloc, shelf, text)?;
    shelf.append(end)
}

/// Writes a text to the open file in pieces. It is never whole in memory: parts of it are printed until a piece stands
/// there, which is appended.
fn append_text<S: Shelf, P: Parts>(
    alloc: Global,
    shelf: &mut S,
    text: &mut P,
) -> Result<(), ShelfStop>
    requires { (S.state shelf.old).mode ≡ Writing }
    ensures { WritesOn S.tells (P.left text.old) [] (S.state shelf.old) (S.state shelf.new) result }
{
    let mut buffer = Vec::new(alloc);
    while !text.is_done() {
        text.put_next(&mut buffer)?;
        append_pieces(shelf, &mut buffer)?;
    }
    append_rest(shelf, &buffer)
}

/// Writes as many pieces as stand in the buffer, and leaves there what comes after them.
fn append_pieces<S: Shelf>(shelf: &mut S, buffer: &mut Vec<u8>) -> Result<(), ShelfStop>
    requires { (S.state shelf.old).mode ≡ Writing }
    ensures { WritesOn S.tells buffer.old.items buffer.new.items (S.state shelf.old) (S.state shelf.new) result }
{
    let mut done = 0;
    while buffer.len() - done >= PIECE {
        shelf.append(&buffer[done..done + PIECE])?;
        done += PIECE;
    }
    remove_front(buffer, done);
    Ok(())
}

/// Takes the first bytes off a buffer. Where there are none to be taken, as after most parts, it costs nothing.
fn remove_front(buffer: &mut Vec<u8>, count: usize)
    requires { count ≤ vec_len buffer.old }
    ensures { buffer.new.items ≡ drop count buffer.old.items }
{
    let left = buffer.len() - count;
    buffer.rotate_left(count);
    buffer.truncate(left);
}

/// Writes what is left, if there is anything.
fn append_rest<S: Shelf>(shelf: &mut S, text: &[u8]) -> Result<(), ShelfStop>
    requires { (S.state shelf.old).mode ≡ Writing }
    ensures { WritesOn S.tells text.now [] (S.state shelf.old) (S.state shelf.new) result }
{
    if text.is_empty() {
        Ok(())
    } else {
        shelf.append(text)
    }
}
