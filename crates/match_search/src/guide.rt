//! What guides a search.

ghost use Rattle.std.specs.Prelude.{◌<◌, IfSome};

use crate::compared::ComparedPairs;
use crate::reads::{Reads, by_count};
use crate::room::BanRoom;
use crate::rounds::Rounds;
use crate::weights::Weights;
use account_core::{Ban, PairableGraphs, Port};
use circuits::Pair;
use pair_search::Conflict;
use std::alloc::{AllocError, Global};

/// The most that tallies of all signed pairs of outputs may ask: the pairs times the inputs. Each pair's ban lists up
/// to twice as many facts as there are inputs, so more would take much memory. Above that tallies are made of assigned
/// pairs alone.
const MOST_ASKED: u64 = 1 << 21;

/// What guides a search: for each output of either circuit the inputs that it reads, in how many of the last conflicts
/// ports were, what was asked and compared, and how far the round is. No answer rests on it.
#[derive(Drop)]
pub struct Guide {
    pub(crate) reads: Reads,
    pub(crate) weights: Weights,
    pub(crate) rounds: Rounds,
    room: BanRoom,
    /// The outputs of the first circuit whose tallies are made at first, in that order.
    order: Vec<u32>,
    /// How many of them have their tallies.
    tallied: usize,
    /// How many of the assigned pairs were compared with claims of one input.
    pub asked: usize,
    /// How many of the assigned pairs were compared with claims of two inputs.
    pub compared_by_swaps: usize,
    compared: ComparedPairs,
    /// The port that was decided last, and the one that comes first as long as it is in no pair.
    decided: Option<Port>,
    pub(crate) urgent: Option<Port>,
}

impl Guide {
    /// What a search begins with: no conflict was seen, and nothing was asked.
    ///
    /// # Errors
    ///
    /// Only when out of memory.
    pub fn new(alloc: Global, graphs: &PairableGraphs<'_>) -> Result<Guide, AllocError> {
        let first = graphs.first();
        let (inputs, outputs) = (first.inputs(), first.outputs().len() as u32);
        let reads = Reads::new(alloc, graphs)?;
        let weights = Weights::new(alloc, inputs, outputs)?;
        let order = order_of(alloc, &reads, inputs, outputs)?;
        let compared = ComparedPairs::new(alloc, inputs, outputs)?;
        Ok(Guide {
            reads,
            weights,
            rounds: Rounds::new(),
            room: BanRoom::new(),
            order,
            tallied: 0,
            asked: 0,
            compared_by_swaps: 0,
            compared,
            decided: None,
            urgent: None,
        })
    }

    /// Notes that a search begins with no pair assigned, whose rounds end once this many lines are learned in the run.
    pub fn begin(&mut self, lines: u64) {
        self.go_back_to(0);
        self.rounds.end_at(lines);
    }

    /// Notes that only this many pairs are assigned now, the earliest ones.
    pub fn go_back_to(&mut self, assigned: usize) {
        self.asked = self.asked.min(assigned);
        self.compared_by_swaps = self.compared_by_swaps.min(assigned);
    }

    /// Notes that a round begins, with this many assigned pairs, the earliest ones.
    pub fn begin_round(&mut self, assigned: usize) {
        self.go_back_to(assigned);
        self.rounds.advance();
    }

    /// Notes that the search begins again, with no pair assigned and no ban, so that no output has its tallies. What
    /// was learned of the ports, as their weights, stays.
    pub fn restart(&mut self) {
        self.room = BanRoom::new();
        self.tallied = 0;
        self.decided = None;
        self.urgent = None;
        self.begin_round(0);
    }

    /// Whether the round is over: it has used up its conflicts, the lines that may be learned in the run, or the memory
    /// for bans.
    pub fn is_round_over(&self, learned: u64) -> bool {
        self.has_had_its_share(learned) | self.is_full()
    }

    /// Whether the round has used up its conflicts, or the lines that may be learned in the run.
    pub fn has_had_its_share(&self, learned: u64) -> bool {
        self.rounds.is_over(learned)
    }

    /// Whether the bans take all the memory that they may.
    pub fn is_full(&self) -> bool {
        self.room.is_full()
    }

    /// Notes that a port is decided.
    pub fn decide(&mut self, port: Port) {
        self.decided = Some(port);
    }

    /// Notes that a pair is compared with ways of the other kind, and answers whether it was before.
    pub fn mark_compared(&mut self, pair: Pair) -> bool {
        self.compared.mark(pair)
    }

    /// Notes a conflict. Where outputs have too few others to go to, the port that was decided last comes first until
    /// it has a pair (last conflict: Lecoutre and others, Artificial Intelligence 2009). A way that several assigned
    /// pairs exclude has the first of them as its reason, so the conflict may have pairs that were assigned long
    /// before, and each way of this port would be tried beside each of these. With this done after every conflict a
    /// near miss of a graph (`triangular8_or`) took 2.5 times as many.
    pub fn note_conflict(&mut self, conflict: &Conflict) {
        if let Conflict::Block(_) = conflict {
            self.urgent = self.decided;
        }
    }

    /// Notes the bans that a conflict came to, those from a place on, the last of which was learned; where there are
    /// none, the ban all of whose pairs were assigned is the learned one.
    pub fn learn(&mut self, bans: &[Ban], from: usize, dead: Option<u64>) {
        self.rounds.count();
        self.room.count(bans);
        if from < bans.len() {
            self.weights.count(&bans[from..]);
        } else if let Some(learned) = ban_at(bans, dead) {
            self.weights.count_learned(learned);
        }
    }

    /// The next output of the first circuit whose tallies are to be made, one of n outputs.
    pub fn next_output(&mut self, outputs: u32) -> Option<u32>
        ensures there { IfSome result (λ output. output < outputs) }
    {
        let output = *self.order.get(self.tallied)?;
        self.tallied = self.tallied.saturating_add(1);
        if output < outputs { Some(output) } else { None }
    }
}

fn ban_at(bans: &[Ban], number: Option<u64>) -> Option<&Ban> {
    bans.get(number? as usize)
}

// The outputs of the first circuit, those first that read the fewest inputs, whose claims are cheap; none where there
// are too many.
fn order_of(
    alloc: Global,
    reads: &Reads,
    inputs: u32,
    outputs: u32,
) -> Result<Vec<u32>, AllocError> {
    let pairs = (outputs as u64)
        .saturating_mul(outputs as u64)
        .saturating_mul(2);
    if pairs.saturating_mul(inputs as u64) > MOST_ASKED {
        return Ok(Vec::new(alloc));
    }
    by_count(alloc, &reads.first, inputs, outputs)
}
