//! A line of an account by its number.

use account_file::is_binary;
use check_steps::ReadStop;
use refusal_words::{Need, Seek};
use std::alloc::Global;
use text_core::line_length;

/// The most bytes of a line that are kept: more than are shown.
const MOST_KEPT: usize = 640;

/// Looks for a line of a text by its number. An account in bytes has no lines to show.
#[derive(Drop)]
pub(crate) struct LineSearch {
    /// Whether a piece was looked at.
    begun: bool,
    /// How many lines come before it.
    before: u64,
    line: Vec<u8>,
}

impl LineSearch {
    /// Looks for the line of a number, from 1.
    pub(crate) fn new(alloc: Global, number: u64) -> LineSearch {
        LineSearch {
            begun: false,
            before: number.saturating_sub(1),
            line: Vec::new(alloc),
        }
    }

    /// The first bytes of the line, as far as it was found.
    pub(crate) fn line(&self) -> &[u8] {
        &self.line
    }

    /// Whether the next piece is the first of an account in bytes.
    fn begins_in_bytes(&mut self, piece: &[u8]) -> bool {
        let first = !self.begun;
        self.begun = true;
        first & is_binary(piece)
    }

    /// Takes the bytes up to a line feed or the end, and answers whether it was that of the line.
    fn take_part(&mut self, part: &[u8], whole: bool) -> Result<Need, ReadStop> {
        if self.before > 0 {
            self.before -= u64::from(whole);
            return Ok(Need::More);
        }
        let room = MOST_KEPT.saturating_sub(self.line.len());
        self.line.extend_from_slice(&part[..room.min(part.len())])?;
        Ok(if whole { Need::Nothing } else { Need::More })
    }
}

impl Seek for LineSearch {
    fn take(&mut self, _alloc: Global, piece: &[u8]) -> Result<Need, ReadStop> {
        if self.begins_in_bytes(piece) {
            return Ok(Need::Nothing);
        }
        let mut rest = piece;
        // each turn but the last takes a line feed
        for _ in 0..=piece.len() {
            let (part, after) = rest.split_at(line_length(rest));
            if self.take_part(part, !after.is_empty())? == Need::Nothing {
                return Ok(Need::Nothing);
            }
            let [_feed, next @ ..] = after else { break };
            rest = next;
        }
        Ok(Need::More)
    }
}
