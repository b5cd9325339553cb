/// How many words of gates may be computed, about a second's. With half as many, matchings of two adders of 128 bits
/// and of a sorter of 64 numbers, all of them with negated ports, are narrowly missed.
const MOST_WORDS: u64 = 1 << 29;

/// Which part of its words a guess of little effort may compute. Most matchings that are found are found by then, and
/// of circuits without a match counts show it in most cases once that much was tried.
const LITTLE_SHARE: u64 = 8;

/// On how many blocks of 256 vectors a circuit may be run with each input inverted where that takes longer. A search of
/// large circuits needs some ten of them; ten times as many leave room.
const MOST_RUNS: u64 = 128;

/// On how many for each input. Where inputs may all go to each other, as those of a parity, each of them is guessed,
/// and takes one or two.
const MOST_RUNS_EACH: u64 = 4;

/// On how many for each input with little effort: what guessing each of them takes.
const LITTLE_RUNS_EACH: u64 = 2;

/// How much a guess may take.
#[derive(Clone, Copy, Debug, PartialEq, Eq)]
pub enum Effort {
    /// About an eighth of a second, or an eighth of what a large circuit takes.
    Little,
    /// About a second, or what a large circuit takes.
    Whole,
}

/// How many words of gates all guesses may compute, beside those that were computed for the first counts.
#[derive(Clone, Copy, Debug, Drop)]
pub(crate) struct Allowance {
    counted: u64,
    little: u64,
    whole: u64,
}

impl Allowance {
    /// For circuits with this many inputs, where a block of 256 vectors takes this many words with each input inverted,
    /// and the first counts took so many.
    pub(crate) fn new(inputs: u32, words: u64, counted: u64) -> Allowance {
        let inputs = u64::from(inputs);
        let few_runs = inputs.saturating_mul(LITTLE_RUNS_EACH);
        let most_runs = MOST_RUNS.max(inputs.saturating_mul(MOST_RUNS_EACH));
        let whole = words.saturating_mul(most_runs).max(MOST_WORDS);
        let little = words.saturating_mul(few_runs).max(whole / LITTLE_SHARE);
        Allowance {
            counted,
            little,
            whole,
        }
    }

    /// Whether more words were computed than an effort may take.
    pub(crate) fn is_spent(&self, effort: Effort, computed: u64) -> bool {
        let most = match effort {
            Effort::Little => self.little,
            Effort::Whole => self.whole,
        };
        computed.saturating_sub(self.counted) > most
    }
}
