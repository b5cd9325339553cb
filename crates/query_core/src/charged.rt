//! The lines that were charged, read from their bytes.

ghost use Rattle.std.specs.Prelude.{◌≡◌, ◌∷◌, [], All, IfNone, IfOk, IfSome, OnErr};
ghost use Rattle.line_codec.specs.LineBytes.{IsOfWords, lines_bytes};
ghost use Rattle.query_core.specs.Ledgers.{charged_lines};

use crate::ledger::Asked;
use cnf_core::LogLine;
use line_codec::first_line;
use std::alloc::{AllocError, Global};
use std::marker::Model;

/// Goes over the lines that were charged in a ledger, one after the other. Contracts see it as those that are left.
#[derive(Drop)]
pub struct ChargedLines<'a> {
    /// The bytes of the lines that are left.
    left: &'a [u8],
    asked: &'a [Asked],
    /// How many lines were read.
    read: u64,
}

impl<'a> Model for ChargedLines<'a> {
    ghost use Rattle.std.specs.Prelude.{List, drop};
    ghost use Rattle.cnf_core.specs.declared.log.LogLine.{LogLine as AnyLine};
    ghost use Rattle.query_core.specs.Ledgers.{AreLeft, charged_lines as charged_in_all};

    ghost Value = { List AnyLine };

    ghost view = { λ a. drop a.read (charged_in_all a.asked.now) };

    ghost invariant = { λ a. AreLeft (drop a.read (charged_in_all a.asked.now)) a.left.now a.read };
}

impl<'a> ChargedLines<'a> {
    /// The lines whose bytes these are.
    pub(crate) fn new(left: &'a [u8], asked: &'a [Asked]) -> ChargedLines<'a>
        requires coded { left.now ≡ lines_bytes (charged_lines asked.now) }
        requires words { All IsOfWords (charged_lines asked.now) }
        ensures { result ≡ charged_lines asked.now }
    {
        ChargedLines {
            left,
            asked,
            read: 0,
        }
    }

    /// The next line, and moves past it; None at the end.
    ///
    /// # Errors
    ///
    /// Only when out of memory, and then nothing moves.
    pub fn next_line(&mut self, alloc: Global) -> Result<Option<LogLine>, AllocError>
        ensures line { IfOk result (λ found. IfSome found (λ line. self.old ≡ line ∷ self.new)) }
        ensures none { IfOk result (λ found. IfNone found (self.old ≡ [])) }
        ensures refused { OnErr result (self.new ≡ self.old) }
    {
        if self.left.is_empty() {
            return Ok(None);
        }
        let (line, size) = first_line(alloc, self.left)?;
        self.left = &self.left[size..];
        self.read += 1;
        Ok(Some(line))
    }
}
