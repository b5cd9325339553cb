//! What is counted of literals, compared with each other with some slack, since the vectors are drawn.

use crate::cells::{Cells, literal_of};
use crate::counts::{Counts, Influence};
use items::Items;
use net_core::Side;
use std::alloc::{AllocError, Global};
use std::cmp::Reverse;

/// How often a literal changes with one of another cell, or how often it is true.
#[derive(Clone, Copy, Debug, Drop, PartialEq, Eq, PartialOrd, Ord)]
struct ProfileEntry {
    /// 0 for how often the literal is true, and else one more than the other literal's cell.
    cell: usize,
    /// The greatest counts of a cell come first, so that counts of no change may be left out.
    count: Reverse<u32>,
}

/// What is counted of a literal, ascending.
#[derive(Debug, Drop)]
pub struct Profile {
    entries: Items<ProfileEntry>,
}

/// How far counts of corresponding literals may be apart.
#[derive(Clone, Copy, Debug, Drop)]
pub struct Slack {
    /// How many vectors were drawn.
    pub vectors: u32,
    /// The square of how many standard deviations.
    pub deviations: u64,
}

impl Slack {
    /// Whether two counts may be of corresponding literals. The variance of their difference is estimated from both,
    /// and one more is added, so that few changes aren't far from none.
    fn is_near(self, one: u32, other: u32) -> bool {
        let all = u64::from(self.vectors);
        let (one, other) = (u64::from(one), u64::from(other));
        let apart = one.abs_diff(other);
        let spread = one
            .saturating_mul(all.saturating_sub(one))
            .saturating_add(other.saturating_mul(all.saturating_sub(other)))
            .saturating_add(all);
        apart.saturating_mul(apart).saturating_mul(all) <= self.deviations.saturating_mul(spread)
    }
}

impl Profile {
    // Whether two literals may correspond.
    fn is_near(&self, other: &Profile, slack: Slack) -> bool {
        let mut mine = 0usize;
        let mut its = 0usize;
        for _ in 0..self.entries.len().saturating_add(other.entries.len()) {
            let (one, another) = (self.entries.get(mine), other.entries.get(its));
            if !are_near(one, another, slack) {
                return false;
            }
            mine = mine.saturating_add(is_next(one, another) as usize);
            its = its.saturating_add(is_next(another, one) as usize);
        }
        true
    }
}

// Whether an entry stands in the first cell that is left.
fn is_next(one: Option<&ProfileEntry>, other: Option<&ProfileEntry>) -> bool {
    match (one, other) {
        (Some(one), Some(other)) => one.cell <= other.cell,
        _ => true,
    }
}

// Whether two entries are near, where they are of one cell; else the first of them is compared with no change.
fn are_near(one: Option<&ProfileEntry>, other: Option<&ProfileEntry>, slack: Slack) -> bool {
    match (one, other) {
        (Some(one), Some(other)) => {
            let least = one.cell.min(other.cell);
            slack.is_near(one.count_in(least), other.count_in(least))
        }
        (Some(one), None) => slack.is_near(one.count.0, 0),
        (None, Some(other)) => slack.is_near(0, other.count.0),
        (None, None) => true,
    }
}

impl ProfileEntry {
    // The count where the entry is of a cell, and else no change.
    fn count_in(&self, cell: usize) -> u32 {
        if self.cell == cell { self.count.0 } else { 0 }
    }
}

/// The profiles of the inputs' literals, by the cells of the outputs' literals.
pub fn input_profiles(
    alloc: Global,
    counts: &Counts,
    outputs: &[usize],
) -> Result<Items<Profile>, AllocError> {
    let mut profiles = Items::new(alloc);
    for influences in counts.of_inputs.iter() {
        add_profiles(alloc, influences, outputs, 0, 0, &mut profiles)?;
    }
    Ok(profiles)
}

/// The profiles of the outputs' literals, by the cells of the inputs' literals.
pub fn output_profiles(
    alloc: Global,
    counts: &Counts,
    inputs: &[usize],
) -> Result<Items<Profile>, AllocError> {
    let mut profiles = Items::new(alloc);
    for (influences, ones) in counts.of_outputs.iter().zip(counts.ones.iter()) {
        let zeros = counts.vectors.saturating_sub(*ones);
        add_profiles(alloc, influences, inputs, *ones, zeros, &mut profiles)?;
    }
    Ok(profiles)
}

// Adds the profiles of a port's literals, the plain one and its complement, by how often each is true.
fn add_profiles(
    alloc: Global,
    influences: &[Influence],
    cells: &[usize],
    plain: u32,
    inverted: u32,
    profiles: &mut Items<Profile>,
) -> Result<(), AllocError> {
    profiles.push(profile_of(alloc, influences, false, cells, plain)?)?;
    profiles.push(profile_of(alloc, influences, true, cells, inverted)?)?;
    Ok(())
}

// The profile of a literal that is so often true.
fn profile_of(
    alloc: Global,
    influences: &[Influence],
    negated: bool,
    cells: &[usize],
    ones: u32,
) -> Result<Profile, AllocError> {
    let mut entries = Vec::with_capacity(alloc, influences.len())?;
    add_entry(0, ones, &mut entries)?;
    for influence in influences.iter() {
        let (plain, inverted) = influence.counts(negated);
        add_entry(
            cell_after(cells, literal_of(influence.port, false)),
            plain,
            &mut entries,
        )?;
        add_entry(
            cell_after(cells, literal_of(influence.port, true)),
            inverted,
            &mut entries,
        )?;
    }
    entries.sort_unstable();
    Ok(Profile {
        entries: Items::from_vec(entries),
    })
}

fn add_entry(cell: usize, count: u32, entries: &mut Vec<ProfileEntry>) -> Result<(), AllocError> {
    if count > 0 {
        entries.push(ProfileEntry {
            cell,
            count: Reverse(count),
        })?;
    }
    Ok(())
}

// One more than a literal's cell.
fn cell_after(cells: &[usize], literal: usize) -> usize {
    match cells.get(literal) {
        Some(cell) => cell.saturating_add(1),
        None => 0,
    }
}

/// Keys of the literals of two circuits by which those have one key that may correspond: within a cell, near ones, and
/// those that are near to one of these, and so on. Within a cell all are compared with all that they aren't joined with
/// yet: near profiles needn't stand near each other in any order, a comparison ends at the first counts that are apart,
/// and cells soon get small.
pub fn near_keys(
    alloc: Global,
    cells: &Cells,
    first: &[Profile],
    second: &[Profile],
    slack: Slack,
) -> Result<(Vec<u64>, Vec<u64>), AllocError> {
    let mut left = vec![in alloc; 0u64; first.len()]?;
    let mut right = vec![in alloc; 0u64; second.len()]?;
    let mine = cells.members(alloc, Side::First)?;
    let its = cells.members(alloc, Side::Second)?;
    for (mine, its) in mine.iter().zip(its.iter()) {
        let classes = NearClasses::new(alloc, mine, its, first, second, slack)?;
        put_keys(mine, &classes.left, &mut left);
        put_keys(its, &classes.right, &mut right);
    }
    Ok((left, right))
}

fn put_keys(literals: &[usize], classes: &[u64], keys: &mut [u64]) {
    for (literal, class) in literals.iter().zip(classes.iter()) {
        if *literal < keys.len() {
            keys[*literal] = class.saturating_add(1);
        }
    }
}

// The components of "near" among the literals of a cell: a number for each literal of either circuit.
struct NearClasses {
    left: Vec<u64>,
    right: Vec<u64>,
}

// By hand, so that each exit of a function has one call for it (docs/IDIOMS.md).
impl Drop for NearClasses {
    fn drop(self) {
        let NearClasses {
            left: _left,
            right: _right,
        } = self;
    }
}

impl NearClasses {
    fn new(
        alloc: Global,
        mine: &[usize],
        its: &[usize],
        first: &[Profile],
        second: &[Profile],
        slack: Slack,
    ) -> Result<NearClasses, AllocError> {
        let mut classes = NearClasses {
            left: numbers(alloc, 0, mine.len())?,
            right: numbers(alloc, mine.len(), its.len())?,
        };
        for (place, literal) in mine.iter().enumerate() {
            if let Some(profile) = first.get(*literal) {
                classes.join_near(place, profile, its, second, slack);
            }
        }
        Ok(classes)
    }

    // Joins a literal of the first circuit with those of the second that are near.
    fn join_near(
        &mut self,
        place: usize,
        profile: &Profile,
        its: &[usize],
        second: &[Profile],
        slack: Slack,
    ) {
        for (other, literal) in its.iter().enumerate() {
            let near = self.left.get(place) != self.right.get(other)
                && match second.get(*literal) {
                    Some(another) => profile.is_near(another, slack),
                    None => false,
                };
            if near {
                self.join(place, other);
            }
        }
    }

    fn join(&mut self, place: usize, other: usize) {
        let (Some(one), Some(another)) = (self.left.get(place), self.right.get(other)) else {
            return;
        };
        let (from, to) = (*another, *one);
        rename(from, to, self.left.as_mut_slice());
        rename(from, to, self.right.as_mut_slice());
    }
}

fn numbers(alloc: Global, first: usize, count: usize) -> Result<Vec<u64>, AllocError> {
    let mut numbers = Vec::with_capacity(alloc, count)?;
    for place in 0..count {
        numbers.push((first as u64).saturating_add(place as u64))?;
    }
    Ok(numbers)
}

fn rename(from: u64, to: u64, classes: &mut [u64]) {
    for class in classes.iter_mut() {
        if *class == from {
            *class = to;
        }
    }
}
