//! Bans that are looked up by pairs.

use crate::sample_circuits::port_pair;
use account_core::{Ban, Step};
use ban_book::BanBook;
use circuits::{Pair, PortKind};
use items::Few;
use std::alloc::{AllocError, Global};

/// Input 0 to input 1, inverted: with `BACK` the two inputs are exchanged.
const CROSSED: Pair = port_pair!(Input, 0, 1, true);

/// Input 1 to input 0.
const BACK: Pair = port_pair!(Input, 1, 0, false);

/// An input to the one of its own number, which is in a ban alone.
const OWN: Pair = port_pair!(Input, 2, 2, false);

/// The same two inputs, inverted, which no ban names.
const INVERTED: Pair = port_pair!(Input, 2, 2, true);

fn ban(alloc: Global, pairs: &[Pair]) -> Result<Ban, AllocError> {
    Ok(Ban {
        pairs: Few::from_slice(alloc, pairs)?,
        step: Step::Mismatch { fails: 0, holds: 1 },
    })
}

fn keep_ban(alloc: Global, pairs: &[Pair], book: &mut BanBook) -> Result<u64, AllocError> {
    book.hold(ban(alloc, pairs)?)
}

// Two bans: of two pairs, and of one.
fn two_bans(alloc: Global) -> Result<BanBook, AllocError> {
    let mut book = BanBook::new(alloc);
    // their numbers are 0 and 1
    let _ = keep_ban(alloc, &[CROSSED, BACK], &mut book)?;
    let _ = keep_ban(alloc, &[OWN], &mut book)?;
    Ok(book)
}

/// Pairs, and the number of the first of the two bans that is within them.
static COVERED: [(&[Pair], Option<u64>); 4] = [
    (&[CROSSED], None),
    (&[BACK, CROSSED], Some(0)),
    (&[CROSSED, OWN], Some(1)),
    (&[INVERTED], None),
];

#[test]
fn bans_within_pairs(rt: HostRuntime) -> Result<(), AllocError> {
    let book = two_bans(rt.alloc())?;
    for (pairs, number) in COVERED.iter() {
        assert_eq!(rt; book.covering(pairs), *number);
    }
    Ok(())
}
