//! Clauses, put and read back.

use cnf_core::{Clause3, ClauseStore, SatLit, opposites};
use std::alloc::{AllocError, Global};
use std::test::Fail;

fn has_opposites(
    alloc: Global,
    clause: &[SatLit],
    expected: &[SatLit],
) -> Result<bool, AllocError> {
    let literals = opposites(alloc, clause)?;
    Ok(literals.as_slice() == expected)
}

#[test]
fn negates_literals(rt: HostRuntime) -> Result<(), Fail> {
    assert!(rt; has_opposites(rt.alloc(), &[SatLit(2), SatLit(5)], &[SatLit(3), SatLit(4)])?);
    Ok(())
}

/// Puts three clauses, the second one empty, and answers the numbers of the first two.
fn put_three(store: &mut ClauseStore) -> Result<(u64, u64), AllocError> {
    let two = Clause3::two(SatLit::of(3, true), SatLit::of(0, false));
    let first = store.put(two.literals())?;
    let second = store.put(&[])?;
    store.reserve(1)?;
    store.put_reserved(&[SatLit(9)]);
    Ok((first, second))
}

fn holds(store: &ClauseStore, id: u64, clause: &[SatLit]) -> bool {
    id < store.count() && store.get(id) == clause
}

#[test]
fn keeps_clauses(rt: HostRuntime) -> Result<(), Fail> {
    let mut store = ClauseStore::new(rt.alloc());
    assert_eq!(rt; (put_three(&mut store)?, store.count()), ((0, 1), 3));
    let rows: [(u64, &[SatLit]); 3] = [
        (0, &[SatLit(6), SatLit(1)]),
        (1, &[]),
        (2, &[SatLit(8).opposite()]),
    ];
    for (id, clause) in rows {
        assert!(rt; holds(&store, id, clause), "clause {id}");
    }
    Ok(())
}
