//! The words of a line, and what they write.

ghost use Rattle.std.specs.Prelude.{◌≡◌, ◌∷◌, [], List, ℕ, Result, IfNone, IfSome};
ghost use Rattle.std.specs.List.{position_or_len};
ghost use Rattle.account_file.specs.declared.fault.RecordFault.{RecordFault as AnyFault};
ghost use Rattle.account_file.specs.Forms.{bits_of, is_separator, list_by, named, next_by, tris_of};
ghost use Rattle.account_file.specs.Texts.{Gives, GivesItem, GivesOrStops};
ghost use Rattle.account_file.specs.Words.{is_space, words_of};

use crate::fault::{FileStop, RecordFault};
use crate::values::{bits_of, tris_of};
use bit_list::Bits;
use items::Items;
use std::alloc::Global;
use std::marker::Model;
use word_sim::Tri;

/// The words of a line that are left: what stands between single blanks.
#[derive(Drop)]
pub(crate) struct LineWords<'a> {
    rest: Option<&'a [u8]>,
}

impl<'a> Model for LineWords<'a> {
    ghost use Rattle.std.specs.Prelude.{ℕ, List};
    ghost use Rattle.account_file.specs.Words.{words_left};

    ghost Value = { List (List ℕ) };

    ghost view = { λ a. words_left a.rest };
}

/// What a word may write.
pub(crate) trait Word: Sized {
    /// What a word writes, or what is wrong with it.
    ghost read: { List ℕ → Result Self AnyFault };

    fn read(word: &[u8]) -> Result<Self, RecordFault>
        ensures { result ≡ read word.now };
}

impl<'a> LineWords<'a> {
    /// All words of a line.
    pub(crate) fn new(line: &'a [u8]) -> LineWords<'a>
        ensures { result ≡ words_of line.now }
    {
        LineWords { rest: Some(line) }
    }

    /// Takes the next word.
    pub(crate) fn word(&mut self) -> Option<&'a [u8]>
        ensures some { IfSome result (λ word. self.old ≡ word.now ∷ self.new) }
        ensures none { IfNone result (self.old ≡ []) }
        ensures kept { IfNone result (self.new ≡ []) }
    {
        let rest = self.rest?;
        match cut(rest) {
            Some((word, left)) => {
                self.rest = Some(left);
                Some(word)
            }
            None => {
                self.rest = None;
                Some(rest)
            }
        }
    }

    /// Takes the next word, which writes a value.
    pub(crate) fn next<T: Word>(&mut self) -> Result<T, RecordFault>
        ensures { Gives result self.new (next_by T.read self.old) }
    {
        let word = self.word().ok_or(RecordFault::Word)?;
        T::read(word)
    }

    /// Takes the next word, which is this name.
    pub(crate) fn name(&mut self, name: &[u8]) -> Result<bool, RecordFault>
        ensures { Gives result self.new (next_by (named name.now) self.old) }
    {
        let word = self.word().ok_or(RecordFault::Word)?;
        if word == name {
            Ok(true)
        } else {
            Err(RecordFault::Word)
        }
    }

    /// Takes the next word of a list, which goes on up to `:`, `/` or the end of the line.
    fn item<T: Word>(&mut self) -> Result<Option<T>, RecordFault>
        ensures { GivesItem T.read result self.old self.new }
    {
        let mut ahead = LineWords { rest: self.rest };
        let Some(word) = ahead.word() else {
            return Ok(None);
        };
        if is_separator(word) {
            return Ok(None);
        }
        let item = T::read(word)?;
        self.rest = ahead.rest;
        Ok(Some(item))
    }

    /// Takes the words of a list.
    pub(crate) fn list<T: Word + Drop>(&mut self, alloc: Global) -> Result<Items<T>, FileStop>
        ensures { GivesOrStops result self.new (list_by T.read self.old) }
    {
        let mut items = Items::new(alloc);
        while let Some(item) = self.item::<T>()? {
            items.push(item)?;
        }
        Ok(items)
    }

    /// Takes the next word, which is `=` and bits.
    pub(crate) fn bits(&mut self, alloc: Global) -> Result<Bits, FileStop>
        ensures { GivesOrStops result self.new (next_by bits_of self.old) }
    {
        let word = self.word().ok_or(RecordFault::Word)?;
        bits_of(alloc, word)
    }

    /// Takes the next word, which is `=` and bits that may be either.
    pub(crate) fn tris(&mut self, alloc: Global) -> Result<Items<Tri>, FileStop>
        ensures { GivesOrStops result self.new (next_by tris_of self.old) }
    {
        let word = self.word().ok_or(RecordFault::Word)?;
        tris_of(alloc, word)
    }
}

// The first word, and what stands after the blank after it, if there is a blank.
fn cut(line: &[u8]) -> Option<(&[u8], &[u8])>
    ensures words { IfSome result (λ parts. words_of line.now ≡ parts.0.now ∷ words_of parts.1.now) }
    ensures alone { IfNone result (words_of line.now ≡ line.now ∷ []) }
{
    let end = word_end(line);
    if end >= line.len() {
        return None;
    }
    Some((&line[..end], &line[end + 1..]))
}

// How many bytes stand before the first blank, or all where there is none.
fn word_end(bytes: &[u8]) -> usize
    ensures { result ≡ position_or_len is_space bytes.now }
{
    bytes.iter().take_while(|byte| **byte != b' ').count()
}

fn is_separator(word: &[u8]) -> bool
    ensures { result ≡ is_separator word.now }
{
    word == b":".as_slice() || word == b"/".as_slice()
}
