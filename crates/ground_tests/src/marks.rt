//! Marks of numbers: few of many, and so many that they go to a table.

use bit_list::Marks;
use std::alloc::{AllocError, Global};
use std::test::Fail;

/// How many numbers there are, and which of them are marked, one after another. Below 1024 numbers the first mark goes
/// to a table, of 5000 the fifth one does, and of 10,000 the three stay in a set.
static MARKED: [(usize, &[usize]); 6] = [
    (0, &[]),
    (1, &[0]),
    (1023, &[1022, 5, 5]),
    (1024, &[1023, 0, 1023]),
    (5000, &[7, 4999, 7, 0, 1, 2, 3, 4]),
    (10_000, &[9999, 3, 4]),
];

fn marks_of(alloc: Global, count: usize, numbers: &[usize]) -> Result<Marks, AllocError> {
    let mut marks = Marks::none(alloc, count);
    for number in numbers.iter() {
        if *number < marks.len() {
            marks.mark(alloc, *number)?;
        }
    }
    Ok(marks)
}

/// Whether these are all of n numbers that are marked.
fn are_marked(marks: &Marks, count: usize, numbers: &[usize]) -> bool {
    let mut same = marks.len() == count;
    for number in 0..marks.len() {
        same = same & (marks.has(number) == numbers.contains(&number));
    }
    same
}

fn keeps_marks(alloc: Global, count: usize, numbers: &[usize]) -> Result<bool, AllocError> {
    let marks = marks_of(alloc, count, numbers)?;
    Ok(are_marked(&marks, count, numbers))
}

#[test]
fn marks_are_kept(rt: HostRuntime) -> Result<(), Fail> {
    for (count, numbers) in MARKED.iter() {
        assert!(rt; keeps_marks(rt.alloc(), *count, numbers)?, "of {count}");
    }
    Ok(())
}

/// Whether a table's marks are its bits, and the one that a test says no to isn't made.
fn takes_a_table(alloc: Global) -> Result<bool, AllocError> {
    let mut table = Vec::new(alloc);
    for number in 0..5 {
        table.push(number == 2)?;
    }
    let mut marks = Marks::from_table(table);
    if marks.len() == 5 {
        marks.mark_where(alloc, 3, true)?;
        marks.mark_where(alloc, 4, false)?;
    }
    Ok(are_marked(&marks, 5, &[2, 3]))
}

#[test]
fn marks_are_taken_from_a_table(rt: HostRuntime) -> Result<(), Fail> {
    assert!(rt; takes_a_table(rt.alloc())?);
    Ok(())
}
