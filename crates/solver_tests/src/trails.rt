//! Literals assigned and taken off again.

use cnf_core::SatLit;
use std::test::Fail;
use trail_core::Trail;

/// How many literals there are, the level, and how many were walked.
fn counts(trail: &Trail) -> (u64, u64, u64) {
    (trail.len(), trail.level(), trail.walked())
}

#[test]
fn goes_back(rt: HostRuntime) -> Result<(), Fail> {
    let mut trail = Trail::with_variables(rt.alloc(), 4)?;
    trail.assign(SatLit(0), 7);
    trail.decide(SatLit(3));
    trail.assign(SatLit(4), 9);
    trail.step();
    trail.step();
    trail.decide(SatLit(6));
    let before = (
        counts(&trail),
        trail.value(SatLit(3)),
        trail.value(SatLit(2)),
    );
    trail.back_to(1);
    let between = (
        counts(&trail),
        trail.value(SatLit(7)),
        trail.place(2),
        trail.place(3),
    );
    let last = (trail.lit_at(2), trail.level_at(2), trail.reason_at(2));
    trail.back_to(0);
    let after = (
        counts(&trail),
        trail.value(SatLit(1)),
        trail.value(SatLit(4)),
        trail.reason_at(0),
    );
    assert_eq!(rt;
        (before, between, last, after),
        (
            ((4, 2, 2), Some(true), Some(false)),
            ((3, 1, 2), None, Some(2), None),
            (SatLit(4), 1, Some(9)),
            ((1, 0, 1), Some(false), None, Some(7)),
        )
    );
    Ok(())
}
