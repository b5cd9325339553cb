//! What excluding the pairs of outputs costs.

ghost use Rattle.std.specs.Prelude.{◌≡◌, ◌<◌, ◌*◌, ◌^◌};

use crate::cone::Cone;
use crate::costs::{BAN_PARTS, Costs, Shares, work_of};
use crate::halves::Halves;
use crate::tables::Tables;
use account_core::Port;
use ban_book::ways::nth_way;
use circuits::{Pair, PortKind};
use net_core::Side;
use std::alloc::{AllocError, Global};

/// What a pair of outputs costs of which one has no table: more than any refusal may take, so that no output with such
/// a way comes first.
const NEVER: u64 = 1 << 40;

/// What excluding a pair of outputs costs.
#[derive(Drop)]
enum PairCost {
    /// One of the two outputs has no table.
    Unknown,
    /// The counts of the two outputs differ: one ban excludes the pair.
    OneBan,
    /// The inputs that the two outputs reach are paired first, one after the other.
    ByInputs(Costs),
}

impl PairCost {
    // How many bans excluding the pair takes.
    fn bans(&self) -> u64 {
        match self {
            PairCost::Unknown => NEVER,
            PairCost::OneBan => 1,
            PairCost::ByInputs(costs) => (costs.at(0) / BAN_PARTS).saturating_add(1),
        }
    }

    // What a node below the pair costs at which these places are paired.
    fn at(&self, paired: usize) -> u64 {
        match self {
            PairCost::ByInputs(costs) => costs.at(paired),
            _ => 0,
        }
    }
}

/// What excluding the pairs of outputs costs, by the first output's ways in order.
#[derive(Drop)]
pub(crate) struct PairCosts {
    costs: Vec<PairCost>,
    outputs: u32,
}

impl PairCosts {
    /// What excluding each pair costs of two circuits with so many outputs.
    pub(crate) fn new(
        alloc: Global,
        tables: &Tables,
        outputs: u32,
    ) -> Result<PairCosts, AllocError> {
        let halves = Halves::new(alloc)?;
        let shares = all_shares(alloc, &halves, &tables.first)?;
        let mut costs = PairCosts {
            costs: Vec::new(alloc),
            outputs,
        };
        for number in 0..outputs {
            let port = output_port(Side::First, number);
            costs.add_ways(alloc, &halves, &shares, tables, port)?;
        }
        Ok(costs)
    }

    // Adds the costs of the ways of an output of the first circuit.
    fn add_ways(
        &mut self,
        alloc: Global,
        halves: &Halves,
        shares: &[Option<Shares>],
        tables: &Tables,
        port: Port,
    ) -> Result<(), AllocError> {
        for number in 0..ways_to(self.outputs) {
            let pair = way_of(port, number);
            let cost = cost_of(alloc, halves, shares, tables, pair)?;
            self.costs.push(cost)?;
        }
        Ok(())
    }

    /// The output whose ways cost the least, and how many bans that are. The first circuit's come first.
    pub(crate) fn cheapest(&self) -> Option<(Port, u64)> {
        let mut best = None;
        for side in [Side::First, Side::Second] {
            best = self.cheapest_of(side, best);
        }
        best
    }

    // The output of a circuit whose ways cost the least, if they cost less than the best one's so far.
    fn cheapest_of(&self, side: Side, best: Option<(Port, u64)>) -> Option<(Port, u64)> {
        let mut best = best;
        for number in 0..self.outputs {
            let port = output_port(side, number);
            let bans = self.bans_of(port);
            if is_less(bans, best) {
                best = Some((port, bans));
            }
        }
        best
    }

    // How many bans all ways of an output take.
    fn bans_of(&self, port: Port) -> u64 {
        let mut bans = 0u64;
        for number in 0..ways_to(self.outputs) {
            if let Some(cost) = self.of(way_of(port, number)) {
                bans = bans.saturating_add(cost.bans());
            }
        }
        bans
    }

    /// What a node below a pair of outputs costs at which these places are paired.
    pub(crate) fn at(&self, pair: Pair, paired: usize) -> u64 {
        match self.of(pair) {
            Some(cost) => cost.at(paired),
            None => 0,
        }
    }

    fn of(&self, pair: Pair) -> Option<&PairCost> {
        let row = (pair.from as usize).saturating_mul(self.outputs as usize);
        let place = row.saturating_add(pair.to as usize).saturating_mul(2);
        self.costs.get(place.saturating_add(pair.flip as usize))
    }
}

fn cost_of(
    alloc: Global,
    halves: &Halves,
    shares: &[Option<Shares>],
    tables: &Tables,
    pair: Pair,
) -> Result<PairCost, AllocError> {
    let Some(tabled) = tables.tabled(pair) else {
        return Ok(PairCost::Unknown);
    };
    if !tabled.has_same_counts() {
        return Ok(PairCost::OneBan);
    }
    let Some(Some(shares)) = shares.get(pair.from as usize) else {
        return Ok(PairCost::Unknown);
    };
    let costs = Costs::new(alloc, halves, shares, &tabled)?;
    Ok(PairCost::ByInputs(costs))
}

fn all_shares(
    alloc: Global,
    halves: &Halves,
    cones: &[Option<Cone>],
) -> Result<Vec<Option<Shares>>, AllocError> {
    let mut all = Vec::with_capacity(alloc, cones.len())?;
    for cone in cones.iter() {
        let shares = match cone {
            Some(cone) => Some(Shares::new(alloc, halves, cone)?),
            None => None,
        };
        all.push(shares)?;
    }
    Ok(all)
}

/// About how many steps making the costs of two circuits with so many outputs takes.
pub(crate) fn work_of_all(tables: &Tables, outputs: u32) -> usize {
    let mut work = 0usize;
    for cone in tables.second.iter() {
        if let Some(cone) = cone {
            work = work.saturating_add(work_of(cone.inputs.len()));
        }
    }
    work.saturating_mul(outputs as usize).saturating_mul(2)
}

/// An output of a circuit.
pub(crate) fn output_port(side: Side, number: u32) -> Port {
    Port {
        side,
        kind: PortKind::Output,
        number,
    }
}

/// How many ways there are to pair a port with one of `ports`: plain or inverted.
pub(crate) fn ways_to(ports: u32) -> u64
    ensures { result ≡ 2 * ports }
{
    2 * (ports as u64)
}

/// The way of this number of a port, as `ban_book` counts them.
pub(crate) fn way_of(port: Port, number: u64) -> Pair
    requires { number < 2 ^ 33 }
{
    nth_way(port.side, port.kind, port.number, number)
}

/// Whether something costs less than the best so far.
pub(crate) fn is_less(cost: u64, best: Option<(Port, u64)>) -> bool {
    match best {
        Some((_, least)) => cost < least,
        None => true,
    }
}
