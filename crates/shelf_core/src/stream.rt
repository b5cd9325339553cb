ghost use Rattle.std.specs.Prelude.{◌≡◌, ◌+◌, ◌<◌, ◌≤◌, length, IfOk, IfSome, vec_len};

use crate::copy::copy_some;
use crate::file_error::FileStop;
use std::alloc::Allocator;
use std::io;
use std::io::{ErrorKind, Read};
use std::marker::Model;

/// How many bytes are asked of a stream at once: a page, as a pipe hands them over.
const PIECE: usize = 4096;

/// All that came out of a stream, as a pipe or a device, whose length is known only at its end. Contracts see the
/// number of bytes that are still unread.
#[derive(Drop)]
pub struct Stream<A: Allocator> {
    bytes: Vec<u8, A>,
    at: usize,
    ghost within: { at ≤ vec_len bytes },
}

impl<A: Allocator> Model for Stream<A> {
    ghost use Rattle.std.specs.Prelude.{ℕ, ◌-◌, vec_len};

    ghost Value = { ℕ };

    ghost view = { λ stream. vec_len stream.bytes - stream.at };
}

impl<A: Allocator> Stream<A> {
    /// Reads a stream to its end; `None` where it goes on past `bound` bytes. No more are kept at any time.
    pub fn read_from<F: Read>(
        alloc: A,
        file: &mut F,
        bound: usize,
    ) -> Result<Option<Stream<A>>, FileStop>
        ensures { IfOk result (λ found. IfSome found (λ stream. stream ≤ bound)) }
    {
        let mut bytes = Vec::new(alloc);
        let mut piece = [0; PIECE];
        for _ in 0..u64::MAX {
            let count = read_next(file, &mut piece)?;
            if count == 0 {
                return Ok(Some(Stream { bytes, at: 0 }));
            }
            if count > bound.saturating_sub(bytes.len()) {
                return Ok(None);
            }
            bytes.extend_from_slice(&piece[..count])?;
        }
        Ok(None)
    }

    /// How many bytes are unread.
    pub fn left(&self) -> usize
        ensures { result ≡ self.now }
    {
        self.bytes.len() - self.at
    }

    /// Moves the next unread bytes to the front of `buf`, and answers how many: as many as there are and go in.
    pub fn read(&mut self, buf: &mut [u8]) -> usize
        ensures within { result ≤ length buf.old }
        ensures left { result + self.new ≡ self.old }
        ensures some { 0 < self.old → 0 < length buf.old → 0 < result }
    {
        let count = copy_some(self.bytes.as_slice(), self.at, buf, usize::MAX);
        self.at += count;
        count
    }
}

/// Reads some bytes, or none at the end. An interrupted read is tried again.
pub(crate) fn read_next<F: Read>(file: &mut F, buf: &mut [u8]) -> io::Result<usize>
    ensures { IfOk result (λ count. count ≤ length buf.old) }
{
    for _ in 0..u64::MAX {
        match file.read(buf) {
            Err(error) if error.kind() == ErrorKind::Interrupted => {}
            answer => return answer,
        }
    }
    Err(io::Error::from(ErrorKind::Interrupted))
}
