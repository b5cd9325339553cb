//! Accounts in the other version, worked out by hand.

use crate::binary_accounts::{NONE_PORTS, Placed, rewrite};
use account_convert::{ConvertStop, convert};
use account_file::RecordFault;
use std::alloc::Global;
use std::test::Fail;

/// A refusal of the AND and the exclusive or.
const REFUSAL: &[u8] = b"npnp 1\n\
      fails b 0 up 0 =01\n\
      fails b 0 down 0 =10\n\
      fails b 0 up 1 =10\n\
      fails b 0 down 1 =01\n\
      holds a 0 up 0\n\
      l : 0 7 1\n\
      ban o0+0 : tally binate 0 1 2 3 / 4\n\
      ban o0-0 : tally binate 0 1 2 3 / 4\n\
      ban : cover out 0 / 0 / 0 1\n\
      none ban 2\n\
      end\n";

/// Its drops: of all facts after the last ban that names them, and of both bans after the cover that names them.
static DROPS: [Placed; 7] = [
    (9, true, 0),
    (9, true, 1),
    (9, true, 2),
    (9, true, 3),
    (9, true, 4),
    (10, false, 0),
    (10, false, 1),
];

/// Facts that nothing names, of which the second is given where its log ends; a ban that names a fact before it is
/// given; and a fact that a ban names twice, the greater one first.
const ODD: &[u8] = b"npnp 1\n\
      fails b 0 up 0 =01\n\
      holds a 0 up 0\n\
      l 3 : 0\n\
      l : 0\n\
      ban : mismatch 2 9\n\
      fails b 0 up 1 =01\n\
      fails b 0 up 1 =01\n\
      ban : mismatch 3 3\n\
      ban : tally support 3 2 / 2\n\
      none ban 1\n\
      end\n";

/// Its drops.
static ODD_DROPS: [Placed; 6] = [
    (2, true, 0),
    (5, true, 1),
    (6, false, 0),
    (10, true, 2),
    (10, true, 3),
    (10, false, 2),
];

/// Whether an account becomes these bytes, and what is said of it: the versions that it had and has, and its records.
fn becomes(alloc: Global, account: &[u8], said: (u8, u8, u64), bytes: &[u8]) -> bool {
    match convert(alloc, account) {
        Ok(new) => { ((new.from, new.to, new.records) == said) & (new.bytes.as_slice() == bytes) }
        Err(_) => false,
    }
}

#[test]
fn converts_there_and_back(rt: HostRuntime) -> Result<(), Fail> {
    let alloc = rt.alloc();
    assert!(rt; becomes(alloc, b"npnp 1\nnone ports\nend\n", (1, 2, 3), &NONE_PORTS));
    let mut dropped = Vec::new(alloc);
    rewrite(alloc, REFUSAL, &DROPS, &mut dropped)?;
    assert!(rt; becomes(alloc, REFUSAL, (1, 2, 12), &dropped));
    assert!(rt; becomes(alloc, &dropped, (2, 1, 19), REFUSAL));
    Ok(())
}

#[test]
fn drops_in_turn(rt: HostRuntime) -> Result<(), Fail> {
    let alloc = rt.alloc();
    let mut dropped = Vec::new(alloc);
    rewrite(alloc, ODD, &ODD_DROPS, &mut dropped)?;
    assert!(rt; becomes(alloc, ODD, (1, 2, 12), &dropped));
    Ok(())
}

/// Accounts with a fault, and the record that has it: the empty one; one of a later version; one without an end, in
/// either version; and a drop after the conclusion.
static FAULTS: [(&[u8], u64, RecordFault); 5] = [
    (b"", 1, RecordFault::Truncated),
    (b"npnp 9\n", 1, RecordFault::Header),
    (b"npnp 1\nnone ports\n", 3, RecordFault::Truncated),
    (
        &[78, 80, 78, 80, 65, 67, 67, 50, 5, 0, 0, 0, 0, 0, 0, 0, 0],
        3,
        RecordFault::Truncated,
    ),
    (
        &[
            78, 80, 78, 80, 65, 67, 67, 50, 5, 0, 0, 0, 0, 0, 0, 0, 0, 9, 0, 0, 0, 0, 0, 0, 0, 8,
            0, 0, 0, 0, 0, 0, 0, 0,
        ],
        3,
        RecordFault::Order,
    ),
];

/// Why an account isn't converted.
fn stop_of(alloc: Global, account: &[u8]) -> Option<ConvertStop> {
    match convert(alloc, account) {
        Ok(_) => None,
        Err(stop) => Some(stop),
    }
}

#[test]
fn says_the_first_fault(rt: HostRuntime) -> Result<(), Fail> {
    for (account, record_number, fault) in FAULTS.iter() {
        let stop = ConvertStop::Fault {
            record_number: *record_number,
            fault: *fault,
        };
        assert_eq!(rt; stop_of(rt.alloc(), account), Some(stop), "{account:?}");
    }
    Ok(())
}
