//! Cells of literals that may correspond.

ghost use Rattle.std.specs.Prelude.{◌≡◌, ◌<◌, length};

use items::Items;
use net_core::Side;
use std::alloc::{AllocError, Global};
use word_sim::mix;

/// The literals of the inputs of two circuits, or of their outputs, in cells: a literal of the first circuit may
/// correspond to those of the second that are in its cell, of which there are as many. A literal is a port or its
/// complement, and the complements of a cell's literals are a cell too. Where that is the same cell, the signs of its
/// ports are open.
#[derive(Debug)]
pub struct Cells {
    /// The cell of each literal of the first circuit, by the literal's number.
    first: Items<usize>,
    /// The cell of each literal of the second circuit.
    second: Items<usize>,
    /// How many cells there are. They are numbered from 0 on.
    count: usize,
}

// By hand, so that each exit of a function has one call for it (docs/IDIOMS.md).
impl Drop for Cells {
    fn drop(self) {
        let Cells {
            first: _first,
            second: _second,
            count: _count,
        } = self;
    }
}

/// The number of a literal: twice the port, and one more for its complement. So the numbers of complements differ in
/// bit 0.
pub fn literal_of(port: u32, negated: bool) -> usize {
    2 * port as usize + negated as usize
}

/// The number of the port at a place of a list. A circuit has fewer than 2^32 ports.
pub fn port_at(place: usize) -> u32 {
    (place % (1 << 32)) as u32
}

/// Lists without elements.
pub(crate) fn empty_lists<T: Drop>(
    alloc: Global,
    count: usize,
) -> Result<Vec<Items<T>>, AllocError> {
    let mut lists = Vec::with_capacity(alloc, count)?;
    for _ in 0..count {
        lists.push(Items::new(alloc))?;
    }
    Ok(lists)
}

// A literal, by its cell and by a key that those have which it may correspond to.
#[derive(Clone, Copy, Debug, Drop, PartialEq, Eq, PartialOrd, Ord)]
struct Ranked {
    cell: usize,
    key: u64,
    literal: usize,
}

impl Ranked {
    // Whether two literals may correspond.
    fn is_like(self, other: Ranked) -> bool {
        (self.cell == other.cell) & (self.key == other.key)
    }
}

impl Cells {
    /// One cell for all literals of n ports.
    pub fn new(alloc: Global, ports: u32) -> Result<Cells, AllocError> {
        let first = vec![in alloc; 0usize; 2 * ports as usize]?;
        let second = vec![in alloc; 0usize; 2 * ports as usize]?;
        Ok(Cells {
            first: Items::from_vec(first),
            second: Items::from_vec(second),
            count: 1,
        })
    }

    /// The cell of each literal of a circuit, by the literal's number.
    pub fn of(&self, side: Side) -> &[usize] {
        match side {
            Side::First => self.first.as_slice(),
            Side::Second => self.second.as_slice(),
        }
    }

    /// How many cells there are.
    pub fn count(&self) -> usize {
        self.count
    }

    /// Whether each cell has one literal of each circuit.
    pub fn is_discrete(&self) -> bool {
        self.count >= self.first.len()
    }

    /// Whether a literal of the first circuit may correspond to one of the second and to its complement.
    pub fn is_open(&self, literal: usize) -> bool {
        self.first.get(literal) == self.first.get(literal ^ 1)
    }

    /// Whether the sign of some port is open. Going over all of them costs less than the sorting by which cells were
    /// split.
    pub fn has_open(&self) -> bool {
        for literal in 0..self.first.len() {
            if self.is_open(literal) {
                return true;
            }
        }
        false
    }

    /// How many literals of the first circuit each cell has.
    pub fn sizes(&self, alloc: Global) -> Result<Vec<usize>, AllocError> {
        let mut sizes = vec![in alloc; 0usize; self.count]?;
        for cell in self.first.iter() {
            if *cell < sizes.len() {
                sizes[*cell] = sizes[*cell].saturating_add(1);
            }
        }
        Ok(sizes)
    }

    /// The literals of a circuit in each cell, ascending.
    pub fn members(&self, alloc: Global, side: Side) -> Result<Items<Items<usize>>, AllocError> {
        let mut members = empty_lists(alloc, self.count)?;
        for (literal, cell) in self.of(side).iter().enumerate() {
            add_member(literal, *cell, members.as_mut_slice())?;
        }
        Ok(Items::from_vec(members))
    }

    /// An equal list of cells.
    pub fn copy(&self) -> Result<Cells, AllocError> {
        let first = self.first.clone()?;
        let second = self.second.clone()?;
        Ok(Cells {
            first,
            second,
            count: self.count,
        })
    }

    /// The cells, each split by keys that literals have which may correspond. None where a cell's keys aren't those of
    /// as many literals on both sides. A literal without a key has the key 0.
    pub fn refine(
        &self,
        alloc: Global,
        first: &[u64],
        second: &[u64],
    ) -> Result<Option<Cells>, AllocError> {
        let left = sorted_by(alloc, &self.first, first)?;
        let right = sorted_by(alloc, &self.second, second)?;
        if !are_alike(&left, &right) {
            return Ok(None);
        }
        let mut cells = vec![in alloc; 0usize; left.len()]?;
        let count = number_classes(&left, &mut cells);
        let mut others = vec![in alloc; 0usize; right.len()]?;
        number_classes(&right, &mut others);
        Ok(Some(Cells {
            first: Items::from_vec(cells),
            second: Items::from_vec(others),
            count,
        }))
    }
}

fn add_member(literal: usize, cell: usize, members: &mut [Items<usize>]) -> Result<(), AllocError> {
    if cell < members.len() {
        members[cell].push(literal)?;
    }
    Ok(())
}

// The literals of a circuit, sorted by their cells and their keys. A literal goes with its complement's key too, so
// that cells stay those of complements.
fn sorted_by(alloc: Global, cells: &[usize], keys: &[u64]) -> Result<Vec<Ranked>, AllocError> {
    let mut ranked = Vec::with_capacity(alloc, cells.len())?;
    for (literal, cell) in cells.iter().enumerate() {
        ranked.push(Ranked {
            cell: *cell,
            key: mix(key_at(keys, literal), key_at(keys, literal ^ 1)),
            literal,
        })?;
    }
    ranked.sort_unstable();
    Ok(ranked)
}

fn key_at(keys: &[u64], literal: usize) -> u64 {
    match keys.get(literal) {
        Some(key) => *key,
        None => 0,
    }
}

// Whether as many literals of both sides have each cell and key.
fn are_alike(left: &[Ranked], right: &[Ranked]) -> bool {
    if left.len() != right.len() {
        return false;
    }
    for place in 0..left.len() {
        if !left[place].is_like(right[place]) {
            return false;
        }
    }
    true
}

// Numbers the classes of sorted literals, and says how many there are.
fn number_classes(ranked: &[Ranked], cells: &mut [usize]) -> usize {
    let mut count = 0usize;
    for place in 0..ranked.len() {
        if begins_class(ranked, place) {
            count = count.saturating_add(1);
        }
        put_cell(ranked[place].literal, count.saturating_sub(1), cells);
    }
    count
}

// Whether the literal at a place is the first of its class.
fn begins_class(ranked: &[Ranked], place: usize) -> bool
    requires { place < length ranked.now }
{
    place == 0 || !ranked[place].is_like(ranked[place - 1])
}

fn put_cell(literal: usize, cell: usize, cells: &mut [usize])
    ensures { length cells.new ≡ length cells.old }
{
    if literal < cells.len() {
        cells[literal] = cell;
    }
}
