use circuits::{Pair, PortKind};
use std::alloc::{AllocError, Global};

/// How many marks are in a word.
const WORD: usize = 64;

/// Which pairs were compared with ways of the other kind: a bit for each pair, by the pairs' numbers.
#[derive(Drop)]
pub(crate) struct ComparedPairs {
    words: Vec<u64>,
    inputs: usize,
    outputs: usize,
}

impl ComparedPairs {
    /// No pair was compared yet. The circuits have this many inputs and outputs.
    pub(crate) fn new(
        alloc: Global,
        inputs: u32,
        outputs: u32,
    ) -> Result<ComparedPairs, AllocError> {
        let (inputs, outputs) = (inputs as usize, outputs as usize);
        let pairs = inputs
            .saturating_mul(inputs)
            .saturating_add(outputs.saturating_mul(outputs))
            .saturating_mul(2);
        Ok(ComparedPairs {
            words: vec![in alloc; 0u64; pairs.div_ceil(WORD)]?,
            inputs,
            outputs,
        })
    }

    /// Marks a pair, and answers whether it was marked.
    pub(crate) fn mark(&mut self, pair: Pair) -> bool {
        let place = self.place(pair);
        let Some(word) = self.words.get_mut(place / WORD) else {
            return false;
        };
        let mark = 1 << (place % WORD);
        let marked = *word & mark > 0;
        *word |= mark;
        marked
    }

    fn place(&self, pair: Pair) -> usize {
        let (count, first) = match pair.kind {
            PortKind::Input => (self.inputs, 0),
            PortKind::Output => (self.outputs, self.inputs.saturating_mul(self.inputs)),
        };
        let row = count.saturating_mul(pair.from as usize);
        let plain = first.saturating_add(row).saturating_add(pair.to as usize);
        let sign = if pair.flip { 1 } else { 0 };
        plain.saturating_mul(2).saturating_add(sign)
    }
}
