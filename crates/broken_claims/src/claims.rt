use crate::sampling::{Flips, Sample, sampled};
use crate::swaps::{Swaps, blocks_for_swaps, swaps_seen};
use account_core::{PairableGraphs, Tallied};
use claim_core::{Claim, Shape};
use net_core::Side;
use port_cells::port_at;
use std::alloc::{AllocError, Global};

/// No number was noted. A list of `Option` would take twice the memory, and it has a place for each claim of one input.
const NOT_NOTED: u32 = u32::MAX;

/// The claims about two circuits that vectors were seen to break: those of one input, and once they are looked for
/// those of two. Nothing rests on it: it says which claims are worth deciding.
#[derive(Debug)]
pub struct BrokenClaims {
    first: Vec<Vec<Flips>>,
    second: Vec<Vec<Flips>>,
    swaps: Option<TwoSwaps>,
    seed: u64,
    /// The numbers of the facts of claims of one input, by circuit, output, input and value: an array, since the same
    /// two are compared again and again.
    numbers: Vec<u32>,
    inputs: usize,
    outputs: usize,
}

// By hand, so that each exit of a function has one call for it (docs/IDIOMS.md).
impl Drop for BrokenClaims {
    fn drop(self) {
        let BrokenClaims {
            first: _first,
            second: _second,
            swaps: _swaps,
            seed: _seed,
            numbers: _numbers,
            inputs: _inputs,
            outputs: _outputs,
        } = self;
    }
}

/// A claim of one input: it goes up from false, and down from true.
#[derive(Clone, Copy, Debug, Drop)]
pub struct OneInput {
    pub side: Side,
    pub output: u32,
    pub input: u32,
    pub value: bool,
}

/// What vectors showed of claims of two inputs.
#[derive(Debug)]
struct TwoSwaps {
    first: Swaps,
    second: Swaps,
}

// By hand, so that each exit of a function has one call for it (docs/IDIOMS.md).
impl Drop for TwoSwaps {
    fn drop(self) {
        let TwoSwaps {
            first: _first,
            second: _second,
        } = self;
    }
}

impl BrokenClaims {
    /// What vectors show of claims of one input, drawn by the seed, or all where these are few.
    ///
    /// # Errors
    ///
    /// Only when out of memory.
    pub fn new(
        alloc: Global,
        graphs: &PairableGraphs<'_>,
        seed: u64,
    ) -> Result<BrokenClaims, AllocError> {
        let inputs = graphs.first().inputs() as usize;
        let outputs = graphs.first().outputs().len();
        // two claims of each input, and two circuits
        let claims = inputs.saturating_mul(outputs).saturating_mul(4);
        Ok(BrokenClaims {
            first: sampled(alloc, graphs.first(), seed)?,
            second: sampled(alloc, graphs.second(), seed)?,
            swaps: None,
            seed,
            numbers: vec![in alloc; NOT_NOTED; claims]?,
            inputs,
            outputs,
        })
    }

    /// Looks for claims of two inputs that vectors break, unless that was done. Of large circuits nothing is seen.
    ///
    /// # Errors
    ///
    /// Only when out of memory.
    pub fn look_at_swaps(
        &mut self,
        alloc: Global,
        graphs: &PairableGraphs<'_>,
    ) -> Result<(), AllocError> {
        if self.swaps.is_none() {
            self.swaps = Some(two_swaps(alloc, graphs, self.seed)?);
        }
        Ok(())
    }

    /// Looks at a vector of a circuit, a bit for each input, and at others near it; the sample is of the circuit too.
    ///
    /// # Errors
    ///
    /// Only when out of memory.
    pub fn look_near(
        &mut self,
        side: Side,
        sample: &mut Sample<'_>,
        vector: Vec<bool>,
    ) -> Result<(), AllocError> {
        let rows = match side {
            Side::First => &mut self.first,
            Side::Second => &mut self.second,
        };
        sample.look_near(vector, rows)
    }

    /// What vectors show of each input at an output of a circuit.
    pub fn row(&self, side: Side, output: u32) -> &[Flips] {
        let rows = match side {
            Side::First => &self.first,
            Side::Second => &self.second,
        };
        match rows.get(output as usize) {
            Some(row) => row.as_slice(),
            None => &[],
        }
    }

    /// What vectors show of an input and an output of a circuit: bit 0 says that one breaks the claim that the output
    /// never falls where the input goes up, bit 1 that one breaks the claim of the input going down.
    pub fn broken(&self, side: Side, output: u32, input: u32) -> u8 {
        match self.row(side, output).get(input as usize) {
            Some(flips) => flips.broken(),
            None => 0,
        }
    }

    /// Whether a vector breaks the claim of an input with a value.
    pub fn is_broken(&self, side: Side, output: u32, input: u32, value: bool) -> bool {
        match self.row(side, output).get(input as usize) {
            Some(flips) => flips.is_broken(value),
            None => false,
        }
    }

    /// Whether a vector breaks a claim of two inputs. It is None where nothing is known of these.
    pub fn is_swap_broken(&self, claim: Claim) -> Option<bool> {
        let swaps = self.swaps.as_ref()?;
        let side = match claim.side {
            Side::First => &swaps.first,
            Side::Second => &swaps.second,
        };
        side.is_broken(claim.output, claim.shape)
    }

    /// Whether a claim of two inputs holds by unateness, as far as vectors show: the output falls neither where the one
    /// input changes nor where the other one does.
    pub fn is_by_unateness(&self, claim: Claim) -> bool {
        let Shape::Swap { i, j, a, b } = claim.shape else {
            return false;
        };
        !self.is_broken(claim.side, claim.output, i, a)
            & !self.is_broken(claim.side, claim.output, j, b)
    }

    /// In how many inputs an output is of a kind.
    pub fn count(&self, side: Side, output: u32, kind: Tallied) -> u32 {
        let mut count = 0u32;
        for flips in self.row(side, output).iter() {
            if flips.is_of(kind) {
                count = count.saturating_add(1);
            }
        }
        count
    }

    /// The number that was noted of a claim's fact.
    pub fn number(&self, claim: Claim) -> Option<u64> {
        let number = *self.numbers.get(self.place(claim)?)?;
        if number == NOT_NOTED {
            return None;
        }
        Some(number as u64)
    }

    /// How many claims of one input there are, of both circuits.
    pub fn claims(&self) -> usize {
        self.numbers.len()
    }

    /// The claim of one input that stands at a place, if it isn't decided, and neither vectors break it nor the paths
    /// from the input to the output show that it holds.
    pub fn open_claim(&self, place: usize) -> Option<OneInput> {
        if *self.numbers.get(place)? != NOT_NOTED {
            return None;
        }
        let value = place % 2 == 1;
        let input = port_at(place / 2 % self.inputs.max(1));
        let row = place / 2 / self.inputs.max(1);
        let (side, output) = if row < self.outputs {
            (Side::First, port_at(row))
        } else {
            (Side::Second, port_at(row.saturating_sub(self.outputs)))
        };
        let flips = self.row(side, output).get(input as usize)?;
        if !flips.is_open_at(value) {
            return None;
        }
        Some(OneInput {
            side,
            output,
            input,
            value,
        })
    }

    // The place of a claim of one input among the numbers.
    fn place(&self, claim: Claim) -> Option<usize> {
        let (input, value) = input_of(claim.shape)?;
        let side = match claim.side {
            Side::First => 0,
            Side::Second => self.outputs,
        };
        let row = side.saturating_add(claim.output as usize);
        let claim = row
            .saturating_mul(self.inputs)
            .saturating_add(input as usize);
        let falls = if value { 1 } else { 0 };
        Some(claim.saturating_mul(2).saturating_add(falls))
    }

    /// Notes what was decided of a claim, by the number of its fact: vectors break it where it fails.
    pub fn note(&mut self, claim: Claim, number: u64, holds: bool) {
        if self.number(claim) == Some(number) {
            return;
        }
        if let Some(place) = self.place(claim) {
            if (place < self.numbers.len()) & (number < NOT_NOTED as u64) {
                self.numbers[place] = number as u32;
            }
        }
        if holds {
            return;
        }
        if let Some(swaps) = &mut self.swaps {
            note_swap(swaps, claim);
        }
        let rows = match claim.side {
            Side::First => &mut self.first,
            Side::Second => &mut self.second,
        };
        if (claim.output as usize) < rows.len() {
            note_in(&mut rows[claim.output as usize], claim.shape);
        }
    }
}

// The input of a shape that has one, and its value.
fn input_of(shape: Shape) -> Option<(u32, bool)> {
    match shape {
        Shape::Up(input) => Some((input, false)),
        Shape::Down(input) => Some((input, true)),
        Shape::Swap { .. } => None,
    }
}

// Notes that the claim of a shape fails.
fn note_in(row: &mut [Flips], shape: Shape) {
    let Some((input, value)) = input_of(shape) else {
        return;
    };
    if (input as usize) < row.len() {
        row[input as usize].break_claim(value);
    }
}

fn note_swap(swaps: &mut TwoSwaps, claim: Claim) {
    match claim.side {
        Side::First => swaps.first.note(claim.output, claim.shape),
        Side::Second => swaps.second.note(claim.output, claim.shape),
    }
}

// What vectors show of claims of two inputs, on as many vectors of each circuit, since claims are compared. Nothing
// where a circuit is too large.
fn two_swaps(
    alloc: Global,
    graphs: &PairableGraphs<'_>,
    seed: u64,
) -> Result<TwoSwaps, AllocError> {
    let first = blocks_for_swaps(alloc, graphs.first())?;
    let second = blocks_for_swaps(alloc, graphs.second())?;
    let blocks = first.min(second);
    if blocks == 0 {
        return Ok(TwoSwaps {
            first: Swaps::none(alloc),
            second: Swaps::none(alloc),
        });
    }
    Ok(TwoSwaps {
        first: swaps_seen(alloc, graphs.first(), blocks, seed)?,
        second: swaps_seen(alloc, graphs.second(), blocks, seed)?,
    })
}
