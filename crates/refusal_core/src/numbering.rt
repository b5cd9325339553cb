ghost use Rattle.std.specs.Prelude.{◌≡◌, cond, IfOk};
ghost use Rattle.refusal_core.specs.Trims.{new_numbers};

use crate::marking::CoreMarks;
use items::Items;
use std::alloc::{AllocError, Global};

/// The new numbers of facts and of bans, each at the old one.
#[derive(Drop)]
pub(crate) struct Numbers {
    pub(crate) facts: Items<u64>,
    pub(crate) bans: Items<u64>,
}

/// The numbers that what is marked gets.
pub(crate) fn numbers_by(alloc: Global, marks: &CoreMarks) -> Result<Numbers, AllocError>
    ensures facts { IfOk result (λ numbers. numbers.facts ≡ new_numbers marks.now.facts.items) }
    ensures bans { IfOk result (λ numbers. numbers.bans ≡ new_numbers marks.now.bans.items) }
{
    Ok(Numbers {
        facts: numbers_of(alloc, &marks.facts)?,
        bans: numbers_of(alloc, &marks.bans)?,
    })
}

// For each place the number of marked ones before it.
fn numbers_of(alloc: Global, marks: &[bool]) -> Result<Items<u64>, AllocError>
    ensures { IfOk result (λ numbers. numbers ≡ new_numbers marks.now) }
{
    let mut numbers = Items::new(alloc);
    let mut next = 0;
    for mark in marks.iter() {
        numbers.push(next)?;
        next += one_if(*mark);
    }
    Ok(numbers)
}

fn one_if(mark: bool) -> u64
    ensures { result ≡ cond mark 1 0 }
{
    if mark { 1 } else { 0 }
}
