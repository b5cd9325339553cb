//! What tables show of assigned pairs, and which port comes next.

use crate::column::Column;
use crate::costs::BAN_PARTS;
use crate::cubes::{bit, has};
use crate::exclusions::{Exclusion, LookUp, exclusion_by, wrong_prime};
use crate::images::Images;
use crate::pair_costs::{PairCosts, is_less, output_port, way_of, ways_to, work_of_all};
use crate::tables::{TabledPair, Tables, cone_in};
use account_core::{PairableGraphs, Port};
use circuits::{Pair, PortKind};
use net_core::Side;
use std::alloc::{AllocError, Global};

/// How many steps the estimates may take: those of two circuits with 14 outputs of ten inputs each, some 50 ms.
const MOST_WORK: usize = 1 << 22;

/// How outputs of few inputs refuse a match: tables, and in which order ports are decided. No answer rests on it.
#[derive(Drop)]
pub struct Plan {
    tables: Tables,
    costs: PairCosts,
    outputs: u32,
    /// The ports that are decided where so many pairs are assigned.
    ports: Vec<Port>,
    looked: Looked,
    /// About how many bans the refusal takes.
    pub bans: u64,
}

/// How many of the assigned pairs were looked up in tables.
#[derive(Clone, Copy, Drop)]
struct Looked {
    /// How many were, the earliest ones.
    pairs: usize,
    /// Whether claims of the next one were compared, but not its primes.
    claims: bool,
}

impl Plan {
    /// The plan for two circuits, if there is an output whose ways can be excluded with no more than `most` bans.
    ///
    /// # Errors
    ///
    /// Only when out of memory.
    pub fn new(
        alloc: Global,
        graphs: &PairableGraphs<'_>,
        most: u64,
    ) -> Result<Option<Plan>, AllocError> {
        let tables = Tables::new(alloc, graphs)?;
        let outputs = graphs.ports(PortKind::Output);
        if work_of_all(&tables, outputs) > MOST_WORK {
            return Ok(None);
        }
        let costs = PairCosts::new(alloc, &tables, outputs)?;
        let Some((port, bans)) = costs.cheapest() else {
            return Ok(None);
        };
        if bans > most {
            return Ok(None);
        }
        Ok(Some(Plan {
            tables,
            costs,
            outputs,
            ports: vec![in alloc; port; 1]?,
            looked: Looked {
                pairs: 0,
                claims: false,
            },
            bans,
        }))
    }

    /// The next assigned pairs that tables show to exclude each other; each call goes on where the last one stopped.
    ///
    /// # Errors
    ///
    /// Only when out of memory.
    pub fn next_exclusion(
        &mut self,
        alloc: Global,
        assigned: &[Pair],
    ) -> Result<Option<Exclusion>, AllocError> {
        for place in self.looked.pairs..assigned.len() {
            if let Some(exclusion) = self.exclusion_at(alloc, assigned, place)? {
                return Ok(Some(exclusion));
            }
        }
        Ok(None)
    }

    // The next exclusion that tables show of the pair at a place: by claims if these weren't compared, then by primes.
    fn exclusion_at(
        &mut self,
        alloc: Global,
        assigned: &[Pair],
        place: usize,
    ) -> Result<Option<Exclusion>, AllocError> {
        let Some(latest) = assigned.get(place).copied() else {
            return Ok(None);
        };
        if !self.looked.claims {
            self.looked.claims = true;
            let exclusion = exclusion_by(alloc, &self.tables, assigned, latest, LookUp::Claims)?;
            if exclusion.is_some() {
                return Ok(exclusion);
            }
        }
        self.looked = Looked {
            pairs: place.saturating_add(1),
            claims: false,
        };
        exclusion_by(alloc, &self.tables, assigned, latest, LookUp::Primes)
    }

    /// The place, among the assigned pairs, of the one that `next_exclusion` looked up last.
    pub fn place(&self) -> usize {
        if self.looked.claims {
            self.looked.pairs
        } else {
            self.looked.pairs.saturating_sub(1)
        }
    }

    /// Notes that only this many pairs are assigned now, the earliest ones.
    pub fn go_back_to(&mut self, assigned: usize) {
        self.looked = Looked {
            pairs: self.looked.pairs.min(assigned),
            claims: false,
        };
        self.ports.truncate(assigned.saturating_add(1));
    }

    /// The port that is decided next: an input that a paired output reads, or an output. None where tables say of no
    /// port.
    ///
    /// # Errors
    ///
    /// Only when out of memory.
    pub fn next_port(
        &mut self,
        alloc: Global,
        assigned: &[Pair],
    ) -> Result<Option<Port>, AllocError> {
        if let Some(port) = self.ports.get(assigned.len()) {
            return Ok(Some(*port));
        }
        let Some(port) = self.choose(alloc, assigned)? else {
            return Ok(None);
        };
        self.ports.push(port)?;
        Ok(Some(port))
    }

    // An input of the last paired output that has an open one; without such an output the next one.
    fn choose(&self, alloc: Global, assigned: &[Pair]) -> Result<Option<Port>, AllocError> {
        match self.last_with_free_input(assigned) {
            Some(tabled) => self.choose_input(alloc, &tabled, assigned),
            None => self.choose_output(alloc, assigned),
        }
    }

    // The last assigned pair of outputs whose second one reads an input that isn't paired.
    fn last_with_free_input(&self, assigned: &[Pair]) -> Option<TabledPair<'_>> {
        for pair in assigned.iter().rev() {
            if let Some(tabled) = self.tables.tabled(*pair) {
                if has_free_input(&tabled, assigned) {
                    return Some(tabled);
                }
            }
        }
        None
    }

    // The input of a paired output of the second circuit whose ways cost the least.
    fn choose_input(
        &self,
        alloc: Global,
        tabled: &TabledPair<'_>,
        assigned: &[Pair],
    ) -> Result<Option<Port>, AllocError> {
        let paired = Images::new(alloc, tabled, assigned)?.paired;
        let mut best = None;
        for (place, input) in tabled.second.inputs.iter().enumerate() {
            if !has(paired, place) {
                let port = input_port(*input);
                let below = self.costs.at(tabled.pair, paired | bit(place));
                let ways = self.open_ways(alloc, assigned, port)?;
                let cost = ways.saturating_mul(BAN_PARTS.saturating_add(below));
                if is_less(cost, best) {
                    best = Some((port, cost));
                }
            }
        }
        Ok(port_of(best))
    }

    // How many ways of an input of the second circuit tables don't exclude.
    fn open_ways(&self, alloc: Global, assigned: &[Pair], port: Port) -> Result<u64, AllocError> {
        let columns = columns_of(alloc, &self.tables, assigned, port.number)?;
        let mut open = 0u64;
        for number in 0..ways_to(self.tables.inputs()) {
            let pair = way_of(port, number);
            if !is_taken(assigned, pair.from) && is_open(&columns, pair) {
                open = open.saturating_add(1);
            }
        }
        Ok(open)
    }

    // The output of the second circuit that isn't paired and has the fewest ways that tables don't exclude.
    fn choose_output(&self, alloc: Global, assigned: &[Pair]) -> Result<Option<Port>, AllocError> {
        let mut best = None;
        for number in 0..self.outputs {
            let port = output_port(Side::Second, number);
            if cone_in(&self.tables.second, number).is_some() & !is_paired(assigned, port) {
                let ways = self.open_outputs(alloc, assigned, port)?;
                if is_less(ways, best) {
                    best = Some((port, ways));
                }
            }
        }
        Ok(port_of(best))
    }

    // How many ways of an output of the second circuit tables don't exclude.
    fn open_outputs(
        &self,
        alloc: Global,
        assigned: &[Pair],
        port: Port,
    ) -> Result<u64, AllocError> {
        let mut open = 0u64;
        for number in 0..ways_to(self.outputs) {
            if self.is_open_output(alloc, assigned, way_of(port, number))? {
                open = open.saturating_add(1);
            }
        }
        Ok(open)
    }

    fn is_open_output(
        &self,
        alloc: Global,
        assigned: &[Pair],
        pair: Pair,
    ) -> Result<bool, AllocError> {
        let Some(tabled) = self.tables.tabled(pair) else {
            return Ok(true);
        };
        if !tabled.has_same_counts() {
            return Ok(false);
        }
        let images = Images::new(alloc, &tabled, assigned)?;
        Ok(wrong_prime(&tabled, &images).is_none())
    }
}

// What each assigned pair of outputs says of the ways of an input of the second circuit.
fn columns_of<'a>(
    alloc: Global,
    tables: &'a Tables,
    assigned: &'a [Pair],
    input: u32,
) -> Result<Vec<Column<'a>>, AllocError> {
    let mut columns = Vec::new(alloc);
    for pair in assigned.iter() {
        if let Some(tabled) = tables.tabled(*pair) {
            let images = Images::new(alloc, &tabled, assigned)?;
            columns.push(Column::new(alloc, tabled, &images, assigned, input)?)?;
        }
    }
    Ok(columns)
}

fn input_port(number: u32) -> Port {
    Port {
        side: Side::Second,
        kind: PortKind::Input,
        number,
    }
}

fn port_of(best: Option<(Port, u64)>) -> Option<Port> {
    let (port, _) = best?;
    Some(port)
}

// Whether no column excludes a way. Each assigned pair of outputs has a column with entries of its own, so all are
// asked; a refusal as foreseen has one.
fn is_open(columns: &[Column<'_>], pair: Pair) -> bool {
    !columns.iter().any(|column| column.excludes(pair))
}

// Whether an input of the first circuit is in an assigned pair. The list is scanned, since it is short: a refusal as
// foreseen has an output's pair, and those of the inputs that it reaches, `MOST_INPUTS` at most. Another output's pair
// comes only where all of these inputs have partners.
fn is_taken(assigned: &[Pair], from: u32) -> bool {
    assigned.iter().any(|pair| (pair.kind == PortKind::Input) & (pair.from == from))
}

// Whether a port of the second circuit is in an assigned pair. The same short list is scanned.
fn is_paired(assigned: &[Pair], port: Port) -> bool {
    assigned
        .iter()
        .any(|pair| (pair.kind == port.kind) & (pair.to == port.number))
}

// Whether the second output reads an input that isn't paired. It reads `MOST_INPUTS` inputs at most.
fn has_free_input(tabled: &TabledPair<'_>, assigned: &[Pair]) -> bool {
    tabled
        .second
        .inputs
        .iter()
        .any(|input| !is_paired(assigned, input_port(*input)))
}
