//! Which claims a tally of two outputs asks.

use account_core::{Tallied, other_side, port_on};
use broken_claims::{BrokenClaims, Flips};
use circuits::Pair;
use net_core::Side;
use std::alloc::{AllocError, Global};

/// Which claims a tally asks: of one output, that of a side, one claim of each of some inputs, which should hold, or
/// fail; of the other output both claims of each of some inputs, which should do the opposite.
pub(crate) struct TallyPlan {
    pub(crate) side: Side,
    pub(crate) holds: bool,
    /// For each input the value of the claim that is asked, if one is.
    pub(crate) one: Vec<Option<bool>>,
    /// Some for each input of which both claims are asked.
    pub(crate) both: Vec<Option<bool>>,
}

// By hand, so that each exit of a function has one call for it (docs/IDIOMS.md).
impl Drop for TallyPlan {
    fn drop(self) {
        let TallyPlan {
            side: _side,
            holds: _holds,
            one: _one,
            both: _both,
        } = self;
    }
}

impl TallyPlan {
    /// What is worth asking of a pair of outputs of n inputs: None where vectors don't show that one of them depends on
    /// more inputs, or is binate in more.
    pub(crate) fn new(
        alloc: Global,
        pair: Pair,
        inputs: u32,
        broken: &BrokenClaims,
    ) -> Result<Option<TallyPlan>, AllocError> {
        let support = Tallied::Support;
        if let Some(side) = more_on(pair, support, broken) {
            return Ok(Some(by_kind(alloc, pair, side, support, inputs, broken)?));
        }
        let binate = Tallied::Binate;
        match more_on(pair, binate, broken) {
            Some(side) => Ok(Some(by_kind(alloc, pair, side, binate, inputs, broken)?)),
            None => Ok(None),
        }
    }
}

// The side whose output is of a kind in more inputs.
fn more_on(pair: Pair, kind: Tallied, broken: &BrokenClaims) -> Option<Side> {
    let first = broken.count(Side::First, pair.from, kind);
    let second = broken.count(Side::Second, pair.to, kind);
    if first > second {
        Some(Side::First)
    } else if second > first {
        Some(Side::Second)
    } else {
        None
    }
}

// Plans the tally of one kind: inputs in the support, or binate ones. Of the output with more such inputs, those are
// asked that vectors show; of the other one, those that aren't known to be such. Together one more than there are
// inputs. An input that vectors show rarely takes a question, and one that can't be of the kind by paths takes none:
// where the other output has enough of these, rare ones are left out.
fn by_kind(
    alloc: Global,
    pair: Pair,
    side: Side,
    kind: Tallied,
    inputs: u32,
    broken: &BrokenClaims,
) -> Result<TallyPlan, AllocError> {
    let other = other_side(side);
    let having = broken.row(side, port_on(side, pair));
    let lacking = broken.row(other, port_on(other, pair));
    let never = Asked::Unbroken.count_first(lacking, kind);
    let common = Asked::Failing.count_first(having, kind);
    let all = broken.count(side, port_on(side, pair), kind);
    let needed = inputs.saturating_add(1).saturating_sub(never);
    let asked = needed.max(common).min(all);
    let have = Asked::Failing.values(alloc, having, kind, asked)?;
    let still_needed = inputs.saturating_add(1).saturating_sub(asked);
    let lack = Asked::Unbroken.values(alloc, lacking, kind, still_needed)?;
    match kind {
        Tallied::Support => Ok(TallyPlan {
            side,
            holds: false,
            one: have,
            both: lack,
        }),
        Tallied::Binate => Ok(TallyPlan {
            side: other,
            holds: true,
            one: lack,
            both: have,
        }),
    }
}

// Which claims of inputs are asked.
#[derive(Clone, Copy, Drop)]
enum Asked {
    // Of inputs that are of a kind, claims that fail: first of those of which vectors commonly show it.
    Failing,
    // Of inputs that aren't known to be of it, claims that no vector breaks: first of those that can't be of it by
    // paths, whose claims hold by structure or nearly so.
    Unbroken,
}

impl Asked {
    // Whether a claim of the input may be asked.
    fn may_ask(self, flips: Flips, kind: Tallied) -> bool {
        match self {
            Asked::Failing => flips.is_of(kind),
            Asked::Unbroken => !flips.is_of(kind),
        }
    }

    // Whether the input is among those that come first.
    fn is_first(self, flips: Flips, kind: Tallied) -> bool {
        match self {
            Asked::Failing => flips.is_commonly(kind),
            Asked::Unbroken => flips.is_never(kind),
        }
    }

    // The value of the claim that is asked.
    fn value(self, flips: Flips) -> bool {
        match self {
            Asked::Failing => flips.failing_value(),
            Asked::Unbroken => flips.holding_value(),
        }
    }

    // How many of the inputs come first.
    fn count_first(self, row: &[Flips], kind: Tallied) -> u32 {
        let mut count = 0u32;
        for flips in row.iter() {
            if self.is_first(*flips, kind) {
                count = count.saturating_add(1);
            }
        }
        count
    }

    // For that many inputs the value of the claim that is asked.
    fn values(
        self,
        alloc: Global,
        row: &[Flips],
        kind: Tallied,
        needed: u32,
    ) -> Result<Vec<Option<bool>>, AllocError> {
        let mut values = vec![in alloc; None; row.len()]?;
        let mut left = needed;
        for is_first in [true, false] {
            left = self.set_values(&mut values, row, kind, is_first, left);
        }
        Ok(values)
    }

    // Sets the values of that many inputs at most, of those that come first or of the others. Answers how many values
    // are still needed.
    fn set_values(
        self,
        values: &mut [Option<bool>],
        row: &[Flips],
        kind: Tallied,
        is_first: bool,
        needed: u32,
    ) -> u32 {
        let mut left = needed;
        for (flips, value) in row.iter().zip(values.iter_mut()) {
            if (left > 0) & (self.is_first(*flips, kind) == is_first) & self.may_ask(*flips, kind) {
                *value = Some(self.value(*flips));
                left = left.saturating_sub(1);
            }
        }
        left
    }
}
