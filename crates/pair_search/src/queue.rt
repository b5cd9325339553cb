//! What is still to be propagated, and which bans a pair is in.

use crate::Mismatches;
use crate::partners::Partners;
use crate::units::is_assigned;
use crate::watchers::{Watcher, WatcherLists};
use account_core::Ban;
use circuits::{Pair, PortKind};
use pair_domains::Domains;
use std::alloc::{AllocError, Global};

/// The number of no entry, and the place of no list: it is greater than all others, so that a comparison needs no case
/// for it.
const NONE: usize = usize::MAX;

/// A ban, and the two of its pairs that it watches, which are one where it has no other.
#[derive(Clone, Copy, Debug)]
pub(crate) struct Watching {
    pub(crate) ban: u64,
    pub(crate) one: Pair,
    pub(crate) other: Pair,
}

impl Watching {
    /// The pair that is watched beside one.
    pub(crate) fn other_than(self, pair: Pair) -> Pair {
        if self.one == pair {
            self.other
        } else {
            self.one
        }
    }
}

/// How far propagation has come, and the bans in the lists of two of their pairs each (watched literals: Moskewicz and
/// others, Chaff, DAC 2001). A ban is looked at only where one of these comes to be assigned. What it says is tried,
/// and not trusted.
#[derive(Debug)]
pub struct Queue {
    /// How many entries were followed.
    pub head: usize,
    /// How many bans are in the index.
    pub seen: usize,
    /// The watchers of each pair.
    lists: WatcherLists,
    /// The bans that watch.
    watching: Vec<Watching>,
    /// The place of the list that is gone through, and how many of its watchers stay in it.
    list: usize,
    kept: usize,
    /// The bans that were made of mismatches.
    pub(crate) made: Mismatches,
    /// Partners for all outputs.
    pub(crate) partners: Partners,
}

// By hand, so that each exit of a function has one call for it (docs/IDIOMS.md).
impl Drop for Queue {
    fn drop(self) {
        let Queue {
            head: _head,
            seen: _seen,
            lists: _lists,
            watching: _watching,
            list: _list,
            kept: _kept,
            made: _made,
            partners: _partners,
        } = self;
    }
}

impl Queue {
    /// Nothing was propagated.
    pub fn new(alloc: Global, inputs: u32, outputs: u32) -> Result<Queue, AllocError> {
        let partners = Partners::new(alloc, PortKind::Output, outputs)?;
        let lists = WatcherLists::new(alloc, inputs, outputs)?;
        Ok(Queue {
            head: 0,
            seen: 0,
            lists,
            watching: Vec::new(alloc),
            list: NONE,
            kept: 0,
            made: Mismatches::new(alloc),
            partners,
        })
    }

    /// Has a ban watch the two of its pairs that are assigned last, or not at all.
    pub(crate) fn add(
        &mut self,
        domains: &Domains,
        ban: &Ban,
        number: u64,
    ) -> Result<(), AllocError> {
        let Some((one, other)) = last_two(domains, &ban.pairs) else {
            return Ok(());
        };
        let place = self.watching.len();
        self.watching.push(Watching {
            ban: number,
            one,
            other,
        })?;
        let lists = &mut self.lists;
        lists.put(
            one,
            Watcher {
                place,
                blocker: other,
            },
        )?;
        lists.put(
            other,
            Watcher {
                place,
                blocker: one,
            },
        )
    }

    /// Adds the bans that came since.
    pub(crate) fn add_new(&mut self, domains: &Domains, bans: &[Ban]) -> Result<(), AllocError> {
        for number in self.seen..bans.len() {
            self.add(domains, &bans[number], number as u64)?;
        }
        self.seen = bans.len();
        Ok(())
    }

    /// Adds the last ban that a conflict was resolved to. Those that it was made of are passed over: they follow of
    /// less, and there are many.
    pub(crate) fn add_learned(
        &mut self,
        domains: &Domains,
        bans: &[Ban],
        number: u64,
    ) -> Result<(), AllocError> {
        if number >= self.seen as u64 {
            if let Some(ban) = bans.get(number as usize) {
                self.add(domains, ban, number)?;
            }
        }
        self.seen = bans.len();
        Ok(())
    }

    /// Has a ban watch another pair in place of one, beside a third, and puts its watcher there.
    pub(crate) fn watch(
        &mut self,
        place: usize,
        pair: Pair,
        beside: Pair,
    ) -> Result<(), AllocError> {
        if let Some(watching) = self.watching.get_mut(place) {
            watching.one = pair;
            watching.other = beside;
        }
        self.lists.put(
            pair,
            Watcher {
                place,
                blocker: beside,
            },
        )
    }

    /// Begins to go through a pair's list, and answers how many watchers it has.
    pub(crate) fn begin_list(&mut self, pair: Pair) -> usize {
        self.list = self.lists.find(pair).unwrap_or(NONE);
        self.kept = 0;
        self.lists.at(self.list).len()
    }

    /// A watcher of the list that is gone through.
    pub(crate) fn watcher_at(&self, place: usize) -> Option<Watcher> {
        self.lists.at(self.list).get(place).copied()
    }

    /// Has a watcher stay in the list that is gone through.
    pub(crate) fn keep(&mut self, watcher: Watcher) {
        let place = self.kept;
        self.lists.set(self.list, place, watcher);
        self.kept = place.saturating_add(1);
    }

    /// Takes those out of the list that is gone through that don't stay in it.
    pub(crate) fn end_list(&mut self) {
        self.lists.truncate(self.list, self.kept);
    }

    /// The ban of a watcher, and what it watches.
    pub(crate) fn watching_at(&self, place: usize) -> Option<Watching> {
        self.watching.get(place).copied()
    }
}

// The two of some pairs that were assigned last, where those that aren't assigned come last. Of one pair that one
// twice.
fn last_two(domains: &Domains, pairs: &[Pair]) -> Option<(Pair, Pair)> {
    let mut one = *pairs.first()?;
    let mut other = one;
    for pair in pairs.iter() {
        if (*pair != one) & ((other == one) | (rank(domains, *pair) > rank(domains, other))) {
            other = *pair;
        }
        if rank(domains, other) > rank(domains, one) {
            (one, other) = (other, one);
        }
    }
    Some((one, other))
}

// Where the entry of an assigned pair stands, or the greatest number for one that isn't assigned.
fn rank(domains: &Domains, pair: Pair) -> usize {
    if !is_assigned(domains, pair) {
        return NONE;
    }
    match domains.place(pair) {
        Some(place) => place,
        None => NONE,
    }
}
