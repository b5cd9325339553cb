//! Partners for all ports of a kind at once.

use crate::units::is_known;
use circuits::{Pair, PortKind};
use pair_domains::Domains;
use std::alloc::{AllocError, Global};

/// No port. Lists of `Option` would take twice the memory.
const NONE: u32 = u32::MAX;

/// A partner for each port of the first circuit, of one kind: a port of the second one to which some way is left, no
/// two the same (a matching). It is kept from call to call, and mended where ways were deleted meanwhile. What it says
/// is tried, and not trusted.
#[derive(Debug)]
pub(crate) struct Partners {
    pub(crate) kind: PortKind,
    /// How many ports of the kind either circuit has.
    count: u32,
    /// The partner of each port of the first circuit, and of each of the second.
    first: Vec<u32>,
    second: Vec<u32>,
    /// The ports of the first circuit that were reached from the last one that was without a partner, in order.
    reached: Vec<u32>,
    /// For each port of the second circuit the one of the first from which it was reached.
    before: Vec<u32>,
}

// By hand, so that each exit of a function has one call for it (docs/IDIOMS.md).
impl Drop for Partners {
    fn drop(self) {
        let Partners {
            kind: _kind,
            count: _count,
            first: _first,
            second: _second,
            reached: _reached,
            before: _before,
        } = self;
    }
}

impl Partners {
    /// No port has a partner.
    pub(crate) fn new(alloc: Global, kind: PortKind, count: u32) -> Result<Partners, AllocError> {
        Ok(Partners {
            kind,
            count,
            first: nowhere(alloc, count)?,
            second: nowhere(alloc, count)?,
            reached: Vec::new(alloc),
            before: nowhere(alloc, count)?,
        })
    }

    /// Finds a partner for each port of the first circuit. Where that can't be, it answers false: then the ports that
    /// were reached from one without a partner have one partner less than they are.
    pub(crate) fn find_all(&mut self, domains: &Domains) -> Result<bool, AllocError> {
        self.part(domains);
        for port in 0..self.count {
            if !self.find_for(domains, port)? {
                return Ok(false);
            }
        }
        Ok(true)
    }

    /// Which ports of the first circuit were reached.
    pub(crate) fn reached(&self, alloc: Global) -> Result<Vec<bool>, AllocError> {
        let mut marks = vec![in alloc; false; self.count as usize]?;
        for port in self.reached.iter() {
            mark(&mut marks, *port);
        }
        Ok(marks)
    }

    /// Which ports of the second circuit weren't.
    pub(crate) fn missed(&self, alloc: Global) -> Result<Vec<bool>, AllocError> {
        let mut marks = vec![in alloc; false; self.count as usize]?;
        for port in 0..self.count {
            if at(&self.before, port) == NONE {
                mark(&mut marks, port);
            }
        }
        Ok(marks)
    }

    // Takes partners apart that have no way to each other any more.
    fn part(&mut self, domains: &Domains) {
        for port in 0..self.count {
            let partner = at(&self.first, port);
            if !has_way(domains, self.kind, port, partner) {
                put(&mut self.first, port, NONE);
                put(&mut self.second, partner, NONE);
            }
        }
    }

    // Finds a partner for a port that has none, while others change theirs: breadth first, along ways that are left and
    // back along partners (augmenting paths: Berge, 1957).
    fn find_for(&mut self, domains: &Domains, port: u32) -> Result<bool, AllocError> {
        if at(&self.first, port) != NONE {
            return Ok(true);
        }
        self.start_at(port)?;
        for place in 0..self.count as usize {
            let Some(port) = self.reached.get(place).copied() else {
                return Ok(false);
            };
            if let Some(free) = self.reach_from(domains, port)? {
                self.change_along(free);
                return Ok(true);
            }
        }
        Ok(false)
    }

    fn start_at(&mut self, port: u32) -> Result<(), AllocError> {
        for before in self.before.iter_mut() {
            *before = NONE;
        }
        self.reached.clear();
        self.reached.push(port)?;
        Ok(())
    }

    // Reaches the ports of the second circuit to which a port has a way, and their partners. It answers the first one
    // that has no partner.
    fn reach_from(&mut self, domains: &Domains, port: u32) -> Result<Option<u32>, AllocError> {
        for other in 0..self.count {
            if self.is_new(domains, port, other) {
                put(&mut self.before, other, port);
                let partner = at(&self.second, other);
                if partner == NONE {
                    return Ok(Some(other));
                }
                self.reached.push(partner)?;
            }
        }
        Ok(None)
    }

    // Whether a port of the second circuit wasn't reached yet, and a port has a way to it.
    fn is_new(&self, domains: &Domains, port: u32, other: u32) -> bool {
        if at(&self.before, other) != NONE {
            return false;
        }
        has_way(domains, self.kind, port, other)
    }

    // Makes ports partners along the path that led to one.
    fn change_along(&mut self, last: u32) {
        let mut other = last;
        for _ in 0..self.count {
            let port = at(&self.before, other);
            let next = at(&self.first, port);
            put(&mut self.first, port, other);
            put(&mut self.second, other, port);
            if next == NONE {
                return;
            }
            other = next;
        }
    }
}

fn nowhere(alloc: Global, count: u32) -> Result<Vec<u32>, AllocError> {
    vec![in alloc; NONE; count as usize]
}

fn at(ports: &[u32], place: u32) -> u32 {
    match ports.get(place as usize) {
        Some(port) => *port,
        None => NONE,
    }
}

fn put(ports: &mut [u32], place: u32, port: u32) {
    if let Some(there) = ports.get_mut(place as usize) {
        *there = port;
    }
}

fn mark(marks: &mut [bool], place: u32) {
    if let Some(mark) = marks.get_mut(place as usize) {
        *mark = true;
    }
}

// Whether a way to pair two ports is left, plain or inverted.
fn has_way(domains: &Domains, kind: PortKind, from: u32, to: u32) -> bool {
    let plain = Pair {
        kind,
        from,
        to,
        flip: false,
    };
    if !is_known(domains, plain) {
        return false;
    }
    let inverted = Pair {
        kind,
        from,
        to,
        flip: true,
    };
    domains.remains(plain) | domains.remains(inverted)
}
