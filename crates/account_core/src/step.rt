//! Bans, and why no match has their pairs.

use circuits::{Pair, PortKind};
use items::{Few, Items};
use word_sim::Tri;

/// What is counted of an output's inputs.
#[derive(Clone, Copy, Debug, Drop, PartialEq, Eq)]
pub enum Tallied {
    /// The inputs that the output depends on.
    Support,
    /// The inputs in which the output is binate.
    Binate,
}

/// Why no match has all the pairs of a ban. Facts and bans are named by their numbers, from 0, each in its own order.
#[derive(Debug)]
pub enum Step {
    /// On these values of the first circuit's inputs its output has one value, and the second circuit's output that the
    /// ban pairs it with has the wrong one, whatever the inputs that the ban doesn't pair have.
    Vector {
        output: u32,
        bits: Items<Tri>,
    },
    /// A claim of one circuit fails, and the claim of the other circuit that a match would carry it to holds.
    Mismatch {
        fails: u64,
        holds: u64,
    },
    /// Of two outputs that the ban pairs, one has more such inputs than the other one may have.
    Tally {
        kind: Tallied,
        have: Items<u64>,
        lack: Items<u64>,
    },
    /// Some port of `from` goes to some port of `to`, and each way to pair two of them is impossible beside the ban, or
    /// is excluded by an earlier ban. For each port of `from`, in order, and each of `to`, in order, there are two
    /// references, for the plain pair and the inverted one: none where the pair is impossible, else a ban's number.
    Cover {
        kind: PortKind,
        from: Items<u32>,
        to: Items<u32>,
        refs: Items<Option<u64>>,
    },
}

// By hand, so that each exit of a function has one call for it (docs/IDIOMS.md).
impl Drop for Step {
    fn drop(self) {
        match self {
            Step::Vector {
                output: _output,
                bits: _bits,
            } => {}
            Step::Mismatch {
                fails: _fails,
                holds: _holds,
            } => {}
            Step::Tally {
                kind: _kind,
                have: _have,
                lack: _lack,
            } => {}
            Step::Cover {
                kind: _kind,
                from: _from,
                to: _to,
                refs: _refs,
            } => {}
        }
    }
}

/// Pairs of ports that no match has all of.
#[derive(Debug)]
pub struct Ban {
    pub pairs: Few<Pair, 8>,
    pub step: Step,
}

// By hand, so that each exit of a function has one call for it (docs/IDIOMS.md).
impl Drop for Ban {
    fn drop(self) {
        let Ban {
            pairs: _pairs,
            step: _step,
        } = self;
    }
}
