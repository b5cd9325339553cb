//! The bans that watch pairs, in a list for each pair that one watches.

use circuits::{Pair, PortKind};
use std::alloc::{AllocError, Global};

/// The place of no list. Lists of `Option` would take twice the memory.
const NONE: u32 = u32::MAX;

/// A ban that watches a pair, by its place among those that watch, and another of its pairs: where that is deleted,
/// nothing follows of the ban, and it isn't looked at (blocking literals: Sorensson and Een, MiniSat 2.1, 2008).
#[derive(Clone, Copy, Debug)]
pub(crate) struct Watcher {
    pub(crate) place: usize,
    pub(crate) blocker: Pair,
}

/// The watchers of each pair, side by side: chained through one table, 60,000 conflicts of a near miss of an equality
/// of 8 bits took 4.6 s in place of 2.8.
///
/// Of the pairs of circuits with many ports few are ever watched. So a pair gets its list when it is watched first, and
/// a port of the first circuit a row with the places of its ways' lists. A list for each pair at once would take 1.5
/// GiB of 4,096 inputs and as many outputs.
#[derive(Debug)]
pub(crate) struct WatcherLists {
    alloc: Global,
    /// How many inputs either circuit has, and how many outputs.
    inputs: u32,
    outputs: u32,
    /// For each input of the first circuit, and then for each of its outputs, where the lists of its ways stand;
    /// nothing as long as none of them has one.
    rows: Vec<Vec<u32>>,
    lists: Vec<Vec<Watcher>>,
}

// By hand, so that each exit of a function has one call for it (docs/IDIOMS.md).
impl Drop for WatcherLists {
    fn drop(self) {
        let WatcherLists {
            alloc: _alloc,
            inputs: _inputs,
            outputs: _outputs,
            rows: _rows,
            lists: _lists,
        } = self;
    }
}

impl WatcherLists {
    /// No pair is watched.
    pub(crate) fn new(
        alloc: Global,
        inputs: u32,
        outputs: u32,
    ) -> Result<WatcherLists, AllocError> {
        Ok(WatcherLists {
            alloc,
            inputs,
            outputs,
            rows: empty_rows(alloc, inputs as u64 + outputs as u64)?,
            lists: Vec::new(alloc),
        })
    }

    /// The place of a pair's list, if it has one.
    pub(crate) fn find(&self, pair: Pair) -> Option<usize> {
        let row = self.rows.get(self.row_of(pair))?;
        let place = *row.get(column_of(pair))?;
        if place == NONE {
            return None;
        }
        Some(place as usize)
    }

    /// The list at a place.
    pub(crate) fn at(&self, place: usize) -> &[Watcher] {
        match self.lists.get(place) {
            Some(list) => list.as_slice(),
            None => &[],
        }
    }

    /// Adds a watcher to a pair's list.
    pub(crate) fn put(&mut self, pair: Pair, watcher: Watcher) -> Result<(), AllocError> {
        let place = match self.find(pair) {
            Some(place) => place,
            None => self.add_list(pair)?,
        };
        if place < self.lists.len() {
            self.lists[place].push(watcher)?;
        }
        Ok(())
    }

    /// Puts a watcher in place of another one of a list.
    pub(crate) fn set(&mut self, list: usize, place: usize, watcher: Watcher) {
        if list < self.lists.len() {
            set_at(&mut self.lists[list], place, watcher);
        }
    }

    /// Keeps so many watchers of a list, the first ones.
    pub(crate) fn truncate(&mut self, list: usize, count: usize) {
        if list < self.lists.len() {
            self.lists[list].truncate(count);
        }
    }

    // Gives a pair a list, and answers its place.
    fn add_list(&mut self, pair: Pair) -> Result<usize, AllocError> {
        self.add_row(pair)?;
        let place = self.lists.len();
        // so many lists fit no memory
        if place >= NONE as usize {
            return Err(AllocError);
        }
        self.lists.push(Vec::new(self.alloc))?;
        let row = self.row_of(pair);
        if row < self.rows.len() {
            set_at(&mut self.rows[row], column_of(pair), place as u32);
        }
        Ok(place)
    }

    // Gives the port of a pair a row, if it has none.
    fn add_row(&mut self, pair: Pair) -> Result<(), AllocError> {
        let count = match pair.kind {
            PortKind::Input => self.inputs,
            PortKind::Output => self.outputs,
        };
        let row = self.row_of(pair);
        if row < self.rows.len() {
            if self.rows[row].is_empty() {
                self.rows[row] = vec![in self.alloc; NONE; 2 * count as usize]?;
            }
        }
        Ok(())
    }

    // The row of a pair's port of the first circuit.
    fn row_of(&self, pair: Pair) -> usize {
        let first = match pair.kind {
            PortKind::Input => 0,
            PortKind::Output => self.inputs,
        };
        first as usize + pair.from as usize
    }
}

// Where a pair stands in its row.
fn column_of(pair: Pair) -> usize {
    let sign = if pair.flip { 1 } else { 0 };
    2 * pair.to as usize + sign
}

// As many rows without a place.
fn empty_rows(alloc: Global, count: u64) -> Result<Vec<Vec<u32>>, AllocError> {
    let mut rows = Vec::new(alloc);
    for _ in 0..count {
        rows.push(Vec::new(alloc))?;
    }
    Ok(rows)
}

// Puts a value at a place of a list, if it has that place.
fn set_at<T: Copy>(list: &mut [T], place: usize, value: T) {
    if place < list.len() {
        list[place] = value;
    }
}
