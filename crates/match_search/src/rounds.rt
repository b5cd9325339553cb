//! How long a search goes on before it starts over.

use watch_core::ReluctantDoubling;

/// How many conflicts the shortest rounds have. With 32 a near miss of a comparator of 16 words, one of a rotation of
/// 32 bits and others took half as long again, since all that follows of the first pairs is deleted again.
const SHORTEST: u64 = 100;

/// In every other round an output counts as if it had this many times its ways. Once inputs have pairs, the partners of
/// outputs that read them are known, so inputs come first where no conflict says otherwise. With 2 alone near misses of
/// adders that subtract too (`addsub24`) were late, and with 4 alone those of rotations (`rotate16`); counted alike,
/// three of 11 near misses took 1.5 seconds and more that take less than one with 4.
const OUTPUT_FACTOR: u64 = 4;

/// In the other rounds an output counts as if it had this many times its ways.
const OTHER_FACTOR: u64 = 2;

/// The rounds of a search, after each of which it starts over. Their lengths are as the numbers of reluctant doubling,
/// which solvers use: all rounds of a length take as many conflicts together as those of any other.
#[derive(Drop)]
pub(crate) struct Rounds {
    lengths: ReluctantDoubling,
    /// How many conflicts the round has.
    length: u64,
    /// Whether the round is the second, the fourth and so on.
    is_other: bool,
    /// How many conflicts the round had so far.
    conflicts: u64,
    /// How many lines may be learned in the run before rounds end.
    lines: u64,
}

impl Rounds {
    /// The first round begins, in which lines may be learned without a bound.
    pub(crate) fn new() -> Rounds {
        let mut lengths = ReluctantDoubling::new();
        let length = lengths.next().saturating_mul(SHORTEST);
        Rounds {
            lengths,
            length,
            is_other: false,
            conflicts: 0,
            lines: u64::MAX,
        }
    }

    /// Has this round and the next ones end once this many lines are learned in the run.
    pub(crate) fn end_at(&mut self, lines: u64) {
        self.lines = lines;
    }

    /// Counts a conflict.
    pub(crate) fn count(&mut self) {
        self.conflicts = self.conflicts.saturating_add(1);
    }

    /// Whether the round is over: it has used up its conflicts, or the lines that may be learned in the run.
    pub(crate) fn is_over(&self, learned: u64) -> bool {
        (self.conflicts >= self.length) | (learned >= self.lines)
    }

    /// The next round begins.
    pub(crate) fn advance(&mut self) {
        self.conflicts = 0;
        self.is_other = !self.is_other;
        self.length = self.lengths.next().saturating_mul(SHORTEST);
    }

    /// By how much the number of an output's ways is multiplied in this round.
    pub(crate) fn output_factor(&self) -> u64 {
        if self.is_other {
            OTHER_FACTOR
        } else {
            OUTPUT_FACTOR
        }
    }
}
